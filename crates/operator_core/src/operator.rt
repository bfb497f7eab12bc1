//! The operator.

ghost use Rattle.std.specs.Prelude.{◌≡◌, IfOk, IfErr, IsOk, OnErr, OnOk};
ghost use Rattle.operator_rows.specs.State.{opening};

use node_steps::{NodeFault, Stepped, copies};
use ocpi_text::{CiKey, CiText, Moment, Whole};
use ocpi_types::{ChargerEvent, Packet, Row, SiteLine};
use operator_rows::{Books, FullPlan};
use std::alloc::{AllocError, Global};
use std::marker::Model;
use tables::HashSeed;

/// An operator: it owns the charge points of a site, and answers the site's providers.
///
/// What happens to it is first planned (`plan_packet` and its kin, which change nothing), then the memory for it is
/// taken (`make_room`), and then it is carried out (`apply`, which cannot fail). What a plan ensures is what `apply`
/// requires, as long as nothing is carried out in between. A keeper that stores the rows does so between the last two.
/// `on_packet` and its kin are all three.
pub struct Operator {
    pub(crate) alloc: Global,
    pub(crate) books: Books,
}

/// What a derive would do, in a function of its own: so it is proved once, and not in each function that drops one.
impl Drop for Operator {
    fn drop(self) {
        let Operator { alloc: _, books } = self;
        drop(books);
    }
}

impl Model for Operator {
    ghost use Rattle.std.specs.FinMap as map;
    ghost use Rattle.std.specs.Coded.{codes};
    ghost use Rattle.operator_rows.specs.Steps.{Node};

    ghost Value = { Node };

    ghost coded = { Prim.hlevel (codes, map.code) };

    ghost view = { λ o. o.books };
}

impl Operator {
    ghost use Rattle.ocpi_text.specs.Text.{key};
    ghost use Rattle.operator_rows.specs.Rows.{AreChanges, AreRowsOf};
    ghost use Rattle.operator_rows.specs.Sound.{IsConsistent};
    ghost use Rattle.operator_rows.specs.Steps.{HasFullRoomFor, MayFollowFull, after_full, restarted};
    ghost use Rattle.operator_rows.specs.FullSteps.{full_step_of};
    ghost use Rattle.operator_steps.specs.Charger.{ChargerStep};
    ghost use Rattle.operator_steps.specs.Credits.{CreditStep};
    ghost use Rattle.operator_steps.specs.Faults.{IsCreditFault, IsDue, IsOwnFault, IsReportFault};
    ghost use Rattle.operator_steps.specs.Moves.{carried};
    ghost use Rattle.operator_steps.specs.Service.{ServiceStep};
    ghost use Rattle.operator_steps.specs.Steps.{OperatorStep};
    ghost use Rattle.operator_steps.specs.Tick.{TickLine, TickStep};
    ghost use Rattle.operator_core.specs.Stepping.{out_of};

    /// The operator of a site before its first event. An error is want of memory.
    pub fn new(alloc: Global, seed: HashSeed, line: SiteLine) -> Result<Operator, AllocError>
        ensures { IfOk result (λ o. o.state ≡ opening line) }
    {
        let books = Books::new(alloc, seed, line)?;
        Ok(Operator { alloc, books })
    }

    /// What holds of every operator at any time, which its type keeps: each EVSE has at most one claim; each open
    /// command was answered, has no result, and is of a provider of the site, and an open start has an EVSE and a
    /// connector of the site; each command that has a result was answered; each reservation is on an EVSE of the site
    /// and names its location; each push is to a provider of the site, and has a number that was given; only a push
    /// that stands has a resend time; each token is of a provider of the site; each session and each charge detail
    /// record is the operator's own, and a session that has not ended is of a provider of the site, at a connector of
    /// the site, and costs what its energy costs; at each EVSE at most one authorization is awaited, of a provider of
    /// the site.
    pub fn consistency(&self)
        ensures { IsConsistent self.now.state }
    {
        self.books.consistency();
    }

    /// The serial of the last packet that it sent, 0 where it sent none.
    pub fn last_serial(&self) -> Whole
        ensures { result ≡ self.now.state.rows.serial }
    {
        self.books.serial()
    }

    /// Where it takes its memory from.
    pub fn allocator(&self) -> Global {
        self.alloc
    }

    /// All rows that stand, each once. An error is want of memory.
    pub fn stored(&self) -> Result<Vec<Row>, AllocError>
        ensures { IfOk result (λ rows. AreRowsOf rows.items self.now.state.rows) }
    {
        self.books.stored(self.alloc)
    }

    /// Takes the memory that a planned step needs. Nothing that stands changes, whether there is enough or not. An
    /// error is want of memory, for a step that has no room yet.
    pub fn make_room(&mut self, plan: &FullPlan) -> Result<(), AllocError>
        ensures state { self.new.state ≡ self.old.state }
        ensures room { OnOk result (HasFullRoomFor self.new (full_step_of plan.now)) }
        ensures again { HasFullRoomFor self.old (full_step_of plan.now) → IsOk result }
    {
        self.books.make_full_room(plan)
    }

    /// Carries a planned step out, and answers the packets that are to be sent. It takes no memory and cannot fail.
    pub fn apply(&mut self, plan: FullPlan) -> Vec<Packet>
        requires room { HasFullRoomFor self.old (full_step_of plan) }
        requires may { MayFollowFull self.old.state (full_step_of plan) }
        ensures state { self.new.state ≡ after_full (full_step_of plan) self.old.state }
        ensures packets { result.items ≡ (full_step_of plan).step.packets }
    {
        self.books.apply_full(plan)
    }

    /// Makes room for a planned step and carries it out. An error is want of memory, and changes nothing.
    fn carry_out(&mut self, plan: FullPlan) -> Result<Stepped, AllocError>
        requires { MayFollowFull self.old.state (full_step_of plan) }
        ensures ok { IfOk result (λ x. out_of self.new.state x ≡ carried self.old.state (full_step_of plan)) }
        ensures err { OnErr result (self.new.state ≡ self.old.state) }
        ensures rows { IfOk result (λ x. AreChanges self.old.state.rows x.rows.items self.new.state.rows) }
    {
        self.consistency();
        let rows = copies(self.alloc, plan.plan.changes.as_slice())?;
        self.make_room(&plan)?;
        let packets = self.apply(plan);
        Ok(Stepped { rows, packets })
    }

    /// A packet comes at a moment. It is refused (`NotForMe`) where it is to another party, from a party that is no
    /// provider of the site, or of a kind that an operator does not take; and else (`NumbersUsedUp`) where a counter
    /// of packets, of requests or of sessions would pass its last number. A refusal, want of memory included, changes
    /// nothing and sends nothing.
    ///
    /// A request that was answered before gets the same reply again, under a new serial. A command that was not is
    /// decided by its table (OCPI 2.2.1, Commands), and a token is kept where it is its provider's own and newer than
    /// the one that is held (Tokens); the reply is kept for good. An acknowledgement ends the push that it is for. An
    /// answer whether a token may be used ends the waiting that it is for, and a session begins where it allows the
    /// token, its reference was not used before, and the token may still take the EVSE (Tokens: Real-time
    /// authorization).
    pub fn on_packet(&mut self, at: Moment, packet: &Packet) -> Result<Stepped, NodeFault>
        ensures step { IfOk result (λ x. OperatorStep self.old.state at packet.now (out_of self.new.state x)) }
        ensures fault { IfErr result (IsDue self.old.state at packet.now) }
        ensures err { OnErr result (self.new.state ≡ self.old.state) }
        ensures rows { IfOk result (λ x. AreChanges self.old.state.rows x.rows.items self.new.state.rows) }
    {
        let plan = self.plan_packet(at, packet)?;
        Ok(self.carry_out(plan)?)
    }

    /// A charge point reports at a moment. The open command that the report ends gets its result, which is kept and
    /// pushed to its provider: that a command was carried out (`Accepts`, `Unlocked`), that it cannot be (`Refuses`),
    /// that the EVSE failed which an open start took (`Fault`). With a start that is carried out a session begins. The
    /// session at an EVSE goes on or ends (`Starts`, `Meter`, `Stops`, `Fault`): its new version is pushed, in place
    /// of the push of an older one, and so is the charge detail record of one that is completed (OCPI 2.2.1, Sessions,
    /// CDRs). For a token that is shown (`Swipe`) a session begins, or its provider is asked and its answer awaited
    /// for ten seconds (Tokens: Real-time authorization). Another report does nothing.
    ///
    /// Refused (`StampEnd`) where the newest version of the session was updated at the last moment, since none can be
    /// later, and (`NumbersUsedUp`) where a counter of packets, of requests, of sessions or of charge detail records
    /// would pass its last number. A refusal, want of memory included, changes nothing and sends nothing.
    pub fn on_charger(&mut self, at: Moment, report: ChargerEvent) -> Result<Stepped, NodeFault>
        ensures step { IfOk result (λ x. ChargerStep self.old.state at report (out_of self.new.state x)) }
        ensures fault { IfErr result (IsReportFault self.old.state at report) }
        ensures err { OnErr result (self.new.state ≡ self.old.state) }
        ensures rows { IfOk result (λ x. AreChanges self.old.state.rows x.rows.items self.new.state.rows) }
    {
        let plan = self.plan_charger(at, &report)?;
        Ok(self.carry_out(plan)?)
    }

    /// The bill of a session is taken back at a moment, where the session is COMPLETED, has one bill and no credit yet,
    /// and the provider of the bill's token is one of the site. The credit has the bill's id followed by `-C`, the
    /// bill's cost negated, and the bill's id as its `credit_reference_id`; it is updated later than the bill, and all
    /// else is as in the bill. It is stored, and pushed to that provider (OCPI 2.2.1, CDRs: CDR object, members
    /// `credit` and `credit_reference_id`; Sender interface). Nothing happens where there is no such bill, where its id
    /// has more than 37 characters, or where a record has the id of its credit.
    ///
    /// Refused (`StampEnd`) where the bill was updated at the last moment, since no credit can be later, and
    /// (`NumbersUsedUp`) where a counter of packets or of requests would pass its last number. A refusal, want of
    /// memory included, changes nothing and sends nothing.
    pub fn on_credit(&mut self, at: Moment, session_id: CiText<36>) -> Result<Stepped, NodeFault>
        ensures step { IfOk result (λ x. CreditStep self.old.state at (key session_id) (out_of self.new.state x)) }
        ensures fault { IfErr result (IsCreditFault self.old.state at (key session_id)) }
        ensures err { OnErr result (self.new.state ≡ self.old.state) }
        ensures rows { IfOk result (λ x. AreChanges self.old.state.rows x.rows.items self.new.state.rows) }
    {
        let plan = self.plan_credit(at, session_id.key())?;
        Ok(self.carry_out(plan)?)
    }

    /// Time has come to a moment: open commands whose deadline is at or before it end by a timeout; reservations whose
    /// expiry is at or before it end, of which nobody is told; authorizations whose deadline is at or before it are
    /// awaited no more, and a session begins for each token that may be used without its provider's answer, and may
    /// take its EVSE then; pushes that were last sent ten seconds before it, or earlier, or not since the operator
    /// started, are sent again. Packets leave in this order. Refused (`NumbersUsedUp`) where a counter of packets, of
    /// requests or of sessions would pass its last number. A refusal, want of memory included, changes nothing and
    /// sends nothing.
    pub fn on_tick(&mut self, at: Moment) -> Result<Stepped, NodeFault>
        ensures step { IfOk result (λ x. TickStep self.old.state at (out_of self.new.state x)) }
        ensures fault { IfErr result (IsOwnFault (TickLine self.old.state at) self.old.state) }
        ensures err { OnErr result (self.new.state ≡ self.old.state) }
        ensures rows { IfOk result (λ x. AreChanges self.old.state.rows x.rows.items self.new.state.rows) }
    {
        let plan = self.plan_tick(at)?;
        Ok(self.carry_out(plan)?)
    }

    /// An EVSE goes out of service, or comes back. Standing claims stay. An EVSE that is unknown, or already is what
    /// it is to be, is left as it is. An error is want of memory, and changes nothing.
    pub fn on_service(
        &mut self,
        evse_uid: CiKey<36>,
        in_service: bool,
    ) -> Result<Stepped, AllocError>
        ensures step { IfOk result (λ x. ServiceStep self.old.state evse_uid in_service (out_of self.new.state x)) }
        ensures err { OnErr result (self.new.state ≡ self.old.state) }
        ensures rows { IfOk result (λ x. AreChanges self.old.state.rows x.rows.items self.new.state.rows) }
    {
        let plan = self.plan_service(evse_uid, in_service)?;
        Ok(self.carry_out(plan)?)
    }

    /// The operator starts again from what it stored: each push is due at once, no authorization is awaited, and
    /// nothing else changes. It takes no memory.
    pub fn restart(&mut self)
        ensures { self.new.state ≡ restarted self.old.state }
    {
        self.books.restart(self.alloc);
    }
}
