//! Whether lists are equal.

ghost use Rattle.std.specs.Prelude.{◌≡◌, ◌↔◌, IsTrue};

/// What a list may hold that is compared.
pub trait Compared {
    /// Whether both are equal, in every field as spelled.
    fn is_equal(&self, other: &Self) -> bool
        ensures { IsTrue result ↔ (self.now ≡ other.now) };
}

/// Whether both lists have the same items, in one order.
pub fn are_equal_items<T: Compared>(items: &[T], others: &[T]) -> bool
    ensures { IsTrue result ↔ (items.now ≡ others.now) }
{
    if items.len() != others.len() {
        return false;
    }
    for i in 0..items.len() {
        if !items[i].is_equal(&others[i]) {
            return false;
        }
    }
    true
}
