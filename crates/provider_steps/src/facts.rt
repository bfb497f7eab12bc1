//! What follows for each step of a provider, whatever it is asked to do.

ghost use Rattle.provider_steps.specs.Facts.{OrdersMayFollow, PacketsMayFollow, TicksMayFollow, TokensMayFollow};

/// What a packet asks for may be carried out, where what holds at all times holds.
pub fn packets_may_follow()
    ensures { PacketsMayFollow }
{}

/// What an order asks for may be carried out, where what holds at all times holds.
pub fn orders_may_follow()
    ensures { OrdersMayFollow }
{}

/// What a token that is given asks for may be carried out, where what holds at all times holds.
pub fn tokens_may_follow()
    ensures { TokensMayFollow }
{}

/// What a moment asks for may be carried out, where what holds at all times holds.
pub fn ticks_may_follow()
    ensures { TicksMayFollow }
{}
