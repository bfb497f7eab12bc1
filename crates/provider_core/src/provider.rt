//! The provider.

ghost use Rattle.std.specs.Prelude.{◌≡◌, IfOk, IfErr, IsOk, OnErr, OnOk};
ghost use Rattle.ocpi_text.specs.Text.{key};
ghost use Rattle.handover.specs.Owed.{owed};
ghost use Rattle.provider_rows.specs.State.{opening};

use node_steps::{NodeFault, Plan, Stepped, copies};
use ocpi_text::{Moment, Party, ShortText, Whole};
use ocpi_types::{Order, Packet, Row, Token};
use provider_rows::{Books, Peers, rows_change};
use std::alloc::{AllocError, Global};
use std::marker::Model;
use tables::HashSeed;

/// A provider: it has the tokens of its drivers, and deals with operators.
///
/// What happens to it is first planned (`plan_packet` and its kin, which change nothing), then the memory for it is
/// taken (`make_room`), and then it is carried out (`apply`, which cannot fail). A keeper that stores the rows does so
/// between the last two. `on_packet` and its kin are all three.
pub struct Provider {
    pub(crate) alloc: Global,
    pub(crate) books: Books,
}

/// What a derive would do, in a function of its own: so it is proved once, and not in each function that drops one.
impl Drop for Provider {
    fn drop(self) {
        let Provider { alloc: _, books } = self;
        drop(books);
    }
}

impl Model for Provider {
    ghost use Rattle.std.specs.FinMap as map;
    ghost use Rattle.std.specs.Coded.{codes};
    ghost use Rattle.provider_rows.specs.Steps.{Node};

    ghost Value = { Node };

    ghost coded = { Prim.hlevel (codes, map.code) };

    ghost view = { λ p. p.books };
}

impl Provider {
    ghost use Rattle.std.specs.FinMap as map;
    ghost use Rattle.node_steps.specs.Drafts.{step_of};
    ghost use Rattle.provider_rows.specs.Rows.{AreChanges, AreRowsOf};
    ghost use Rattle.provider_rows.specs.Sound.{IsConsistent};
    ghost use Rattle.provider_rows.specs.Steps.{HasRoomFor, MayFollow, after, restarted};
    ghost use Rattle.provider_steps.specs.Faults.{IsOrderFault, IsPacketFault, IsTickFault, IsTokenFault};
    ghost use Rattle.provider_steps.specs.Moves.{carried};
    ghost use Rattle.provider_steps.specs.Orders.{OrderStep};
    ghost use Rattle.provider_steps.specs.Packets.{PacketStep};
    ghost use Rattle.provider_steps.specs.Tick.{TickStep};
    ghost use Rattle.provider_steps.specs.Tokens.{TokenStep};
    ghost use Rattle.provider_core.specs.Planned.{out_of};

    /// The provider of these peers before its first event. It takes no memory.
    pub fn new(alloc: Global, seed: HashSeed, peers: Peers) -> Provider
        ensures { result.state ≡ opening peers }
    {
        let books = Books::new(alloc, seed, peers);
        Provider { alloc, books }
    }

    /// What holds of every provider at any time, which its type keeps: each push and each command is to an operator
    /// that it deals with, and has a number that was given, of its own; no two pushes are about the same; no command
    /// has a reference that was not given yet; only a request that waits has a resend time.
    pub fn consistency(&self)
        ensures { IsConsistent self.now.state }
    {
        self.books.consistency();
    }

    /// The provider, as it is spelled.
    pub fn party(&self) -> Party
        ensures { result ≡ self.now.state.party }
    {
        self.books.party()
    }

    /// The operators that it deals with, as it spells them.
    pub fn operators(&self) -> &[Party]
        ensures { result.now ≡ self.now.state.operators }
    {
        self.books.operators()
    }

    /// What is owed to an operator in a currency, in ten-thousandths: the sum of the costs of its charge detail
    /// records in that currency that are held, bills and credits, and 0 where none is. The costs of credits are
    /// negative, and a credit may be held before its bill, so the sum may be negative. The operator is compared without
    /// case, the currency as spelled. It takes no memory.
    pub fn settlement(&self, operator: &Party, currency: ShortText<3, 12>) -> i128
        ensures { result ≡ owed (key operator.now, currency) (map.values self.now.state.rows.inbox.cdrs) }
    {
        self.books.inbox().settlement(operator, currency)
    }

    /// The serial of the last packet that it sent, 0 where it sent none.
    pub fn last_serial(&self) -> Whole
        ensures { result ≡ self.now.state.rows.serial }
    {
        self.books.serial()
    }

    /// Where it takes its memory from.
    pub fn allocator(&self) -> Global {
        self.alloc
    }

    /// All rows that stand, each once. An error is want of memory.
    pub fn stored(&self) -> Result<Vec<Row>, AllocError>
        ensures { IfOk result (λ rows. AreRowsOf rows.items self.now.state.rows) }
    {
        self.books.stored(self.alloc)
    }

    /// Takes the memory that a planned step needs. Nothing that stands changes, whether there is enough or not. An
    /// error is want of memory, for a step that has no room yet.
    pub fn make_room(&mut self, plan: &Plan) -> Result<(), AllocError>
        ensures state { self.new.state ≡ self.old.state }
        ensures room { OnOk result (HasRoomFor self.new (step_of plan.now)) }
        ensures again { HasRoomFor self.old (step_of plan.now) → IsOk result }
    {
        self.books.make_room(plan)
    }

    /// Carries a planned step out, and answers the packets that are to be sent. It takes no memory and cannot fail.
    pub fn apply(&mut self, plan: Plan) -> Vec<Packet>
        requires room { HasRoomFor self.old (step_of plan) }
        requires may { MayFollow self.old.state (step_of plan) }
        ensures state { self.new.state ≡ after (step_of plan) self.old.state }
        ensures packets { result.items ≡ (step_of plan).packets }
    {
        self.books.apply(plan)
    }

    /// Makes room for a planned step and carries it out. An error is want of memory, and changes nothing.
    fn carry_out(&mut self, plan: Plan) -> Result<Stepped, AllocError>
        requires { MayFollow self.old.state (step_of plan) }
        ensures ok { IfOk result (λ x. out_of self.new.state x ≡ carried self.old.state (step_of plan)) }
        ensures err { OnErr result (self.new.state ≡ self.old.state) }
        ensures rows { IfOk result (λ x. AreChanges self.old.state.rows x.rows.items self.new.state.rows) }
    {
        rows_change();
        let rows = copies(self.alloc, plan.changes.as_slice())?;
        self.make_room(&plan)?;
        let packets = self.apply(plan);
        Ok(Stepped { rows, packets })
    }

    /// A packet comes at a moment. It is refused (`NotForMe`) where it is to another party, from a party that is no
    /// operator of the provider, or of a kind that a provider does not take; and else (`NumbersUsedUp`) where a
    /// counter of packets or of references would pass its last number. A refusal, want of memory included, changes
    /// nothing and sends nothing.
    ///
    /// A request that was answered before gets the same reply again, under a new serial. Another is answered, and its
    /// reply is kept for good: the result of a command is kept with the command that it is for, a session or a charge
    /// detail record is taken where it is its operator's own, for a token of this provider, and news (OCPI 2.2.1,
    /// Commands, Sessions, CDRs); a valid token that is asked for is allowed with a new reference (Tokens). A response
    /// is kept with its command, and an acknowledgement ends the push that it is for.
    pub fn on_packet(&mut self, at: Moment, packet: &Packet) -> Result<Stepped, NodeFault>
        ensures step { IfOk result (λ x. PacketStep self.old.state at packet.now (out_of self.new.state x)) }
        ensures fault { IfErr result (IsPacketFault self.old.state at packet.now) }
        ensures err { OnErr result (self.new.state ≡ self.old.state) }
        ensures rows { IfOk result (λ x. AreChanges self.old.state.rows x.rows.items self.new.state.rows) }
    {
        let plan = self.plan_packet(at, packet)?;
        Ok(self.carry_out(plan)?)
    }

    /// An order to an operator is submitted at a moment: the command that it makes is sent as the next request, and is
    /// sent again until it is answered (OCPI 2.2.1, Commands). Refused where the party is no operator of the provider
    /// (`UnknownOperator`), where the provider does not hold the token (`UnknownToken`), and where a counter of
    /// packets, of requests or of references would pass its last number (`NumbersUsedUp`). A refusal, want of memory
    /// included, changes nothing and sends nothing.
    pub fn submit(
        &mut self,
        at: Moment,
        operator: &Party,
        order: &Order,
    ) -> Result<Stepped, NodeFault>
        ensures step { IfOk result (λ x. OrderStep self.old.state at operator.now order.now (out_of self.new.state x)) }
        ensures fault { IfErr result (IsOrderFault self.old.state at operator.now order.now) }
        ensures err { OnErr result (self.new.state ≡ self.old.state) }
        ensures rows { IfOk result (λ x. AreChanges self.old.state.rows x.rows.items self.new.state.rows) }
    {
        let plan = self.plan_order(at, operator, order)?;
        Ok(self.carry_out(plan)?)
    }

    /// A token of the provider is given at a moment: it is stored as the next version of it, and pushed to each
    /// operator until that acknowledges it (OCPI 2.2.1, Tokens). Refused where it is another party's (`NotForMe`),
    /// where no version can be later than the one that is held (`StampEnd`), and where a counter of packets or of
    /// requests would pass its last number (`NumbersUsedUp`). A refusal, want of memory included, changes nothing and
    /// sends nothing.
    pub fn on_token(&mut self, at: Moment, token: &Token) -> Result<Stepped, NodeFault>
        ensures step { IfOk result (λ x. TokenStep self.old.state at token.now (out_of self.new.state x)) }
        ensures fault { IfErr result (IsTokenFault self.old.state at token.now) }
        ensures err { OnErr result (self.new.state ≡ self.old.state) }
        ensures rows { IfOk result (λ x. AreChanges self.old.state.rows x.rows.items self.new.state.rows) }
    {
        let plan = self.plan_token(at, token)?;
        Ok(self.carry_out(plan)?)
    }

    /// Time has come to a moment: requests that wait and were last sent ten seconds before it, or earlier, or not
    /// since the provider started, are sent again, by their numbers. Refused (`NumbersUsedUp`) where the counter of
    /// packets would pass its last number. A refusal, want of memory included, changes nothing and sends nothing.
    pub fn on_tick(&mut self, at: Moment) -> Result<Stepped, NodeFault>
        ensures step { IfOk result (λ x. TickStep self.old.state at (out_of self.new.state x)) }
        ensures fault { IfErr result (IsTickFault self.old.state at) }
        ensures err { OnErr result (self.new.state ≡ self.old.state) }
        ensures rows { IfOk result (λ x. AreChanges self.old.state.rows x.rows.items self.new.state.rows) }
    {
        let plan = self.plan_tick(at)?;
        Ok(self.carry_out(plan)?)
    }

    /// The provider starts again from what it stored: each request that waits is due at once, and nothing else
    /// changes. It takes no memory.
    pub fn restart(&mut self)
        ensures { self.new.state ≡ restarted self.old.state }
    {
        self.books.restart(self.alloc);
    }
}
