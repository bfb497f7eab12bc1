//! Copies of lists.

ghost use Rattle.std.specs.Prelude.{◌≡◌, IfOk};

use std::alloc::{AllocError, Global};

/// What a list may hold whose copy is wanted.
pub trait ListItem: Drop {
    /// An equal value.
    fn item_copy(&self) -> Result<Self, AllocError>
        ensures { IfOk result (λ x. x ≡ self.now) };
}

/// The copies of all items, in order.
pub fn copy_all<T: ListItem>(alloc: Global, items: &[T]) -> Result<Vec<T>, AllocError>
    ensures { IfOk result (λ v. v.items ≡ items.now) }
{
    let mut copies = Vec::new(alloc);
    for item in items {
        let copy = item.item_copy()?;
        copies.push(copy)?;
    }
    Ok(copies)
}
