//! Laws of the definitions, for all values: each function's contract is one, and its body does nothing.

ghost use Rattle.std.specs.Prelude.{◌≡◌, ℤ, pos, ◌*ℤ◌, ◌+ℤ◌, ◌≤ℤ◌, ◌<ℤ◌};
ghost use Rattle.session_state.specs.Costs.{cost};
ghost use Rattle.session_state.specs.Pasts.{MovesAreOrderly, FinalIsLast, PastsGrow};

/// What moves make of a new session is an orderly past; nothing follows a version that is COMPLETED or INVALID; and a
/// past grows by what may follow its last version.
pub fn pasts_are_orderly()
    ensures made { MovesAreOrderly }
    ensures last { FinalIsLast }
    ensures grow { PastsGrow }
{}

/// A cost is the greatest whole number of ten-thousandths that is at most the energy times the price.
pub fn costs_are_rounded_down()
    ensures least { (kwh price : ℤ) → (cost kwh price *ℤ pos 10000) ≤ℤ (kwh *ℤ price) }
    ensures greatest { (kwh price : ℤ) → (kwh *ℤ price) <ℤ ((cost kwh price +ℤ pos 1) *ℤ pos 10000) }
{}
