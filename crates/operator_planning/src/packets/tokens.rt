//! The tokens that providers send (OCPI 2.2.1, Tokens: Receiver interface, PUT).

ghost use Rattle.std.specs.Prelude.{◌≡◌, ℕ, List, IfOk, IfErr, OnOk};
ghost use Rattle.ocpi_text.specs.Text.{key};
ghost use Rattle.node_steps.specs.Drafts.{HasNumbers, step_of, with_acts};
ghost use Rattle.operator_steps.specs.Steps.{TokenLine, acknowledgement};
ghost use Rattle.operator_planning.specs.Planned.{PlansActs, StopsLine};
ghost use Rattle.operator_planning.specs.Requests.{put_acts, status_of};

use crate::changes::CHANGES_OF_A_TOKEN;
use crate::planner::Planner;
use node_steps::{Draft, Needs, NodeFault, Plan};
use ocpi_text::Moment;
use ocpi_types::{Ack, Boxed, Change, Reply, Row, StatusCode, Token};
use operator_tables::Request;
use std::alloc::{AllocError, Global};
use token_desk::{TokenFault, TokenPut};

/// A token is taken.
fn taken(at: Moment) -> Reply
    ensures { result ≡ acknowledgement at 1000 }
{
    Reply::Ack(Ack {
        status_code: StatusCode::new(1000).unwrap(),
        timestamp: at,
    })
}

/// A token is refused: its parameters are not valid.
fn refused(at: Moment) -> Reply
    ensures { result ≡ acknowledgement at 2001 }
{
    Reply::Ack(Ack {
        status_code: StatusCode::new(2001).unwrap(),
        timestamp: at,
    })
}

/// The reply to a token, by what becomes of it.
fn reply(at: Moment, put: &Result<TokenPut, TokenFault>) -> Reply
    ensures { result ≡ acknowledgement at (status_of put.now) }
{
    match put {
        Ok(_put) => taken(at),
        Err(_fault) => refused(at),
    }
}

/// Adds what becomes of a token: the reply is kept and sent, and the token is stored where it is newer.
fn add_put(
    alloc: Global,
    draft: &mut Draft,
    request: &Request,
    token: &Token,
    put: &Result<TokenPut, TokenFault>,
) -> Result<(), AllocError>
    requires { HasNumbers 1 0 draft.old }
    ensures { OnOk result (draft.new ≡ with_acts (put_acts request.now token.now put.now) draft.old) }
{
    let reply = reply(request.at, put);
    draft.answer(request.provider, request.from, request.number, reply)?;
    match put {
        Ok(TokenPut::Stored) => {
            let token = Boxed::new(alloc, *token)?;
            draft.change(Change::Put(Row::Token { token }))
        }
        Ok(TokenPut::Kept) | Err(_) => Ok(()),
    }
}

impl Planner<'_> {
    /// What becomes of a token that a provider sends, for a request that was not answered before: it is kept where it
    /// is the provider's own, and newer than the one that stands.
    pub(crate) fn plan_put(&self, request: &Request, token: &Token) -> Result<Plan, NodeFault>
        ensures ok { IfOk result (λ x. PlansActs (TokenLine self.now.state request.now.at request.now.from request.now.provider request.now.number token.now) self.now.state (step_of x)) }
        ensures err { IfErr result (StopsLine (TokenLine self.now.state request.now.at request.now.from request.now.provider request.now.number token.now) self.now.state) }
    {
        let put = self.books.desk().judge_put(request.provider, token);
        let mut draft = self.draft(Needs {
            packets: 1,
            requests: 0,
            changes: CHANGES_OF_A_TOKEN,
        })?;
        add_put(self.alloc, &mut draft, request, token, &put)?;
        Ok(draft.into_plan())
    }
}
