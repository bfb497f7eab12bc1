//! Values on the heap that several owners may share, for large members of small enums.

ghost use Rattle.std.specs.Prelude.{◌≡◌, IfOk};

use std::alloc::{AllocError, Global};
use std::marker::Model;
use std::ops::Deref;
use std::sync::Arc;

/// A value on the heap, which clauses see as the value itself. It has one owner or several, which see the same value
/// and cannot change it, and it lies there until the last of them is let go.
#[derive(Drop)]
pub struct Boxed<T> {
    inner: Arc<T>,
}

impl<T> Model for Boxed<T> {
    ghost use Rattle.std.specs.Arc.{arc_value};

    ghost Value = { T };

    ghost coded = { T.code };

    ghost view = { λ b. arc_value b.inner };
}

impl<T> Deref for Boxed<T> {
    type Target = T;

    ghost deref_gives = { λ b x. x ≡ b };

    fn deref(&self) -> &T
        ensures { result.now ≡ self.now }
    {
        &self.inner
    }
}

/// Value by value, wherever they stand.
impl<T: PartialEq> PartialEq for Boxed<T> {
    ghost eq = { T.eq };

    ghost laws = { T.laws };

    fn eq(&self, other: &Self) -> bool {
        *self.inner == *other.inner
    }
}

impl<T: Drop> Boxed<T> {
    /// Takes a place on the heap for a value, which has one owner then. An error is want of memory.
    pub fn new(alloc: Global, value: T) -> Result<Boxed<T>, AllocError>
        ensures { IfOk result (λ b. b ≡ value) }
    {
        Ok(Boxed {
            inner: Arc::new(alloc, value)?,
        })
    }
}

impl<T> Boxed<T> {
    /// One more owner of the value. It takes no memory. An error is told as want of memory: the count of owners, of 63
    /// bits, is full.
    pub fn copy(&self) -> Result<Boxed<T>, AllocError>
        ensures { IfOk result (λ b. b ≡ self.now) }
    {
        Ok(Boxed {
            inner: Arc::try_clone(&self.inner)?,
        })
    }
}
