//! Whether two charge detail records are equal.

ghost use Rattle.std.specs.Prelude.{◌≡◌, ◌↔◌, IsTrue};

use ocpi_types::Cdr;

/// Whether two charge detail records are equal in every field, as spelled.
#[tactic(auto, using(crate::proofs::Equal::same_cdrs))]
pub fn is_equal(a: &Cdr, b: &Cdr) -> bool
    ensures { IsTrue result ↔ (a.now ≡ b.now) }
{
    a == b
}
