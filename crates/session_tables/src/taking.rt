//! When a token may take an EVSE.

ghost use Rattle.std.specs.Prelude.{◌≡◌, IsTrue, false};
ghost use Rattle.session_tables.specs.Places.{EndsBy, MayTake, MayTakeAt};
ghost use Rattle.session_tables.specs.Taken.{IsTaken, IsReservedFor};

use ocpi_text::{CiKey, Moment};
use ocpi_types::{Token, TokenType};
use operator_rows::Books;
use site_book::Claim;

/// Whether a token may take an EVSE, and what it takes it by.
#[derive(Clone, Copy)]
pub enum Taking {
    /// It may not: the EVSE is out of service, or is claimed by something else than a reservation for the token.
    No,
    /// The EVSE is unclaimed.
    Free,
    /// The reservation of that id, of the token's provider, holds the EVSE for the token, and ends.
    Reserved(CiKey<36>),
}

/// The reservation for a token of its provider that a claim is, by its id.
fn reserved_for(books: &Books, token: &Token, claim: &Claim) -> Taking
    ensures { IsReservedFor books.now.state.rows token.now claim.now result }
{
    match claim {
        Claim::Reserved {
            provider,
            reservation,
        } => {
            let (uid, token_type) = (token.uid.key(), token.token_type);
            let own = *provider == token.party.key();
            if own
                && books
                    .booked()
                    .serves(*provider, *reservation, uid, token_type)
            {
                Taking::Reserved(*reservation)
            } else {
                Taking::No
            }
        }
        Claim::OpenStart { .. } => Taking::No,
        Claim::Live { .. } => Taking::No,
    }
}

/// Whether a token may take the EVSE of a key: it is in service, and is unclaimed, or reserved by the token's provider
/// for the token. It costs the logarithm of what is stored.
pub fn may_take(books: &Books, token: &Token, evse: CiKey<36>) -> Taking
    ensures { IsTaken (MayTake books.now.state.rows token.now evse) result }
{
    let site = books.site_book();
    if !site.works(evse) {
        return Taking::No;
    }
    match site.claim_of(evse) {
        None => Taking::Free,
        Some(claim) => reserved_for(books, token, &claim),
    }
}

/// Whether a claim ends by a moment: the deadline of its open start, or the expiry of its reservation, is at or before
/// it.
fn ends_by(books: &Books, at: Moment, claim: &Claim) -> bool
    ensures yes { IsTrue result → EndsBy books.now.state.rows at claim.now }
    ensures no { result ≡ false → ¬ EndsBy books.now.state.rows at claim.now }
{
    match claim {
        Claim::OpenStart { provider, number } => match books.commands().opened(*provider, *number) {
            None => false,
            Some(open) => open.deadline <= at,
        },
        Claim::Live { .. } => false,
        Claim::Reserved {
            provider,
            reservation,
        } => match books.booked().standing(*provider, *reservation) {
            None => false,
            Some(standing) => standing.expiry_date <= at,
        },
    }
}

/// As `may_take`, once the claims have ended that end by a moment.
pub fn may_take_at(books: &Books, at: Moment, token: &Token, evse: CiKey<36>) -> Taking
    ensures { IsTaken (MayTakeAt books.now.state.rows at token.now evse) result }
{
    let site = books.site_book();
    if !site.works(evse) {
        return Taking::No;
    }
    match site.claim_of(evse) {
        None => Taking::Free,
        Some(claim) => {
            if ends_by(books, at, &claim) {
                Taking::Free
            } else {
                reserved_for(books, token, &claim)
            }
        }
    }
}
