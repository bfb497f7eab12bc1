//! What follows for each step of an operator, whatever it is asked to do.

ghost use Rattle.operator_steps.specs.Facts.{
  CreditsMayFollow,
  PacketsMayFollow,
  ReportsMayFollow,
  ServiceMayFollow,
  TicksMayFollow,
};

/// What a packet asks for may be carried out, where what holds at all times holds.
pub fn packets_may_follow()
    ensures { PacketsMayFollow }
{}

/// What a report of a charge point asks for may be carried out, where what holds at all times holds.
pub fn reports_may_follow()
    ensures { ReportsMayFollow }
{}

/// What an EVSE asks for that goes out of service or comes back may be carried out, where what holds at all times
/// holds.
pub fn service_may_follow()
    ensures { ServiceMayFollow }
{}

/// What an order to take the bill of a session back asks for may be carried out, where what holds at all times holds.
pub fn credits_may_follow()
    ensures { CreditsMayFollow }
{}

/// What a moment asks for may be carried out, where what holds at all times holds.
pub fn ticks_may_follow()
    ensures { TicksMayFollow }
{}
