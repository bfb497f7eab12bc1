//! What a new version of a token makes a provider do (OCPI 2.2.1, Tokens: Receiver interface, PUT). Nothing is changed
//! here.

ghost use Rattle.std.specs.Prelude.{◌≡◌, ℕ, List, length, Option, IfOk, IfErr, OnOk};
ghost use Rattle.node_steps.specs.Drafts.{HasNumbers, IsInRange, StopsBy, later, step_of, with_acts};
ghost use Rattle.provider_rows.specs.Steps.{MayFollow};
ghost use Rattle.provider_steps.specs.Acts.{replaced};
ghost use Rattle.provider_steps.specs.Faults.{IsTokenFault};
ghost use Rattle.provider_steps.specs.Moves.{PlannedBy, counters_of};
ghost use Rattle.provider_steps.specs.Tokens.{TokenLine};
ghost use Rattle.provider_core.specs.Versions.{ArePushed, IsGathered, IsPushed, IsVersioned};

use crate::provider::Provider;
use node_steps::{Draft, Needs, NodeFault, Plan};
use ocpi_text::{Moment, Party, Whole};
use ocpi_types::{Boxed, Change, Push, Row, RowKey, Token};
use provider_steps::facts;
use std::alloc::AllocError;

/// Adds that the push of a number, where there is one, is replaced by a newer one.
fn add_replaced(draft: &mut Draft, older: Option<Whole>) -> Result<(), AllocError>
    ensures { OnOk result (draft.new ≡ with_acts (replaced older) draft.old) }
{
    match older {
        None => Ok(()),
        Some(number) => draft.change(Change::Drop(RowKey::Push { number })),
    }
}

impl Provider {
    /// Adds the push of a version of a token to an operator, in place of the push of an older version there.
    fn add_push(
        &self,
        draft: &mut Draft,
        at: Moment,
        version: &Boxed<Token>,
        to: Party,
    ) -> Result<(), AllocError>
        requires { HasNumbers 1 1 draft.old }
        ensures { OnOk result (IsPushed self.now.state.rows.outbox.pushes at version.now to draft.old draft.new) }
    {
        let push = Push::PutToken(version.copy()?);
        let older = self.books.outbox().replaced(&to, &push);
        add_replaced(draft, older)?;
        draft.push(at, to, push)
    }

    /// Adds the pushes of a version of a token to each operator in turn.
    fn add_pushes(
        &self,
        draft: &mut Draft,
        at: Moment,
        version: &Boxed<Token>,
    ) -> Result<(), AllocError>
        requires { HasNumbers (length self.now.state.operators) (length self.now.state.operators) draft.old }
        ensures { OnOk result (ArePushed self.now.state at version.now draft.old draft.new) }
    {
        for operator in self.books.operators() {
            self.add_push(draft, at, version, *operator)?;
        }
        Ok(())
    }

    /// Adds that a version of a token is stored, and pushed to each operator.
    fn add_version(&self, draft: &mut Draft, at: Moment, version: &Token) -> Result<(), AllocError>
        requires { HasNumbers (length self.now.state.operators) (length self.now.state.operators) draft.old }
        ensures { OnOk result (IsGathered self.now.state at version.now draft.old draft.new) }
    {
        let version = Boxed::new(self.alloc, *version)?;
        let token = version.copy()?;
        draft.change(Change::Put(Row::Token { token }))?;
        self.add_pushes(draft, at, &version)
    }

    /// The step in which a version of a token is stored, and pushed to each operator.
    fn plan_version(&self, at: Moment, version: &Token) -> Result<Plan, NodeFault>
        ensures ok { IfOk result (λ x. IsVersioned self.now.state at version.now (step_of x)) }
        ensures in_range { OnOk result (IsInRange (later (counters_of self.now.state) (length self.now.state.operators) (length self.now.state.operators))) }
        ensures err { IfErr result (StopsBy (later (counters_of self.now.state) (length self.now.state.operators) (length self.now.state.operators))) }
    {
        let count = self.books.operators().len();
        let mut draft = self.draft(Needs {
            packets: count,
            requests: count,
            changes: count.saturating_add(count).saturating_add(1),
        })?;
        self.add_version(&mut draft, at, version)?;
        Ok(draft.into_plan())
    }

    /// What becomes of a token that is given at a moment. Nothing changes. Refused as `on_token` says.
    pub fn plan_token(&self, at: Moment, token: &Token) -> Result<Plan, NodeFault>
        ensures step { IfOk result (λ x. PlannedBy (TokenLine self.now.state at token.now) self.now.state (step_of x)) }
        ensures follows { IfOk result (λ x. MayFollow self.now.state (step_of x)) }
        ensures fault { IfErr result (IsTokenFault self.now.state at token.now) }
    {
        self.books.consistency();
        facts::tokens_may_follow();
        if !token.party.is_same(&self.books.party()) {
            return Err(NodeFault::NotForMe);
        }
        let Some(version) = self.books.desk().next_version(at, token) else {
            return Err(NodeFault::StampEnd);
        };
        self.plan_version(at, &version)
    }
}
