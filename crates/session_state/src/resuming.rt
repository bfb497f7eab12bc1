//! Sessions that are made again of what was stored.

ghost use Rattle.std.specs.Prelude.{◌≡◌, IfOk, IfErr, MatchBool};
ghost use Rattle.session_state.specs.Resuming.{IsResumed, CannotResume};
ghost use Rattle.session_state.specs.Versions.{HasCost, IsUncharged};

use crate::costs::cost_of;
use crate::sessions::{Session, session_in};
use crate::states::{Active, Completed, Invalid, Pending};
use ocpi_types::{PricePerKwh, Session as Version, SessionStatus};

/// A session in one of its states.
#[derive(Drop)]
pub enum Resumed {
    Pending(Session<Pending>),
    Active(Session<Active>),
    Completed(Session<Completed>),
    Invalid(Session<Invalid>),
}

/// The session whose newest version that is, at that price. Handed back is a version that is a reservation's, or whose
/// `total_cost` is not that of its energy at the price, rounded down, or that is PENDING and has energy.
pub fn resume(version: Version, price: PricePerKwh) -> Result<Resumed, Version>
    ensures resumed { IfOk result (λ r. IsResumed price version r) }
    ensures refused { IfErr result (λ v. (v ≡ version) × CannotResume price version) }
{
    if !has_cost(&version, price) || !is_uncharged(&version) {
        return Err(version);
    }
    Ok(match version.status {
        SessionStatus::Pending => Resumed::Pending(session_in(Pending, version, price)),
        SessionStatus::Active => Resumed::Active(session_in(Active, version, price)),
        SessionStatus::Completed => Resumed::Completed(session_in(Completed, version, price)),
        SessionStatus::Invalid => Resumed::Invalid(session_in(Invalid, version, price)),
        SessionStatus::Reservation => return Err(version),
    })
}

/// Whether the version has no energy where its charging has not begun.
pub fn is_uncharged(version: &Version) -> bool
    ensures { MatchBool result (IsUncharged version.now) (¬ IsUncharged version.now) }
{
    match version.status {
        SessionStatus::Pending => version.kwh.value().units() == 0,
        _ => true,
    }
}

/// Whether the total cost is that of the energy at the price.
fn has_cost(version: &Version, price: PricePerKwh) -> bool
    ensures { MatchBool result (HasCost price version.now) (¬ HasCost price version.now) }
{
    let Some(total) = version.total_cost else {
        return false;
    };
    let total = total.excl_vat.units();
    match cost_of(version.kwh, price) {
        Some(cost) => cost.excl_vat.units() == total,
        None => false,
    }
}
