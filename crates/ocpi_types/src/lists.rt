//! Lists of records.

ghost use Rattle.std.specs.Prelude.{◌≡◌, ◌≤◌, IfOk, SomeIff, length, nat_eq};
ghost use Rattle.std.specs.Cmp.{partial_equiv_from_equiv};
ghost use Rattle.std.specs.Cmp.Lexicographic.{lists_per, nat_list_eq_equiv, pointwise};

use crate::copies::{ListItem, copy_all};
use ocpi_text::CiText;
use std::alloc::{AllocError, Global};
use std::marker::Model;

/// One or more of a kind, in order.
#[derive(Drop)]
pub struct NonEmpty<T> {
    items: Vec<T>,
}

impl<T> Model for NonEmpty<T> {
    ghost use Rattle.std.specs.Prelude.{List, length, ◌≤◌};

    ghost Value = { List T };

    ghost view = { λ l. l.items.items };

    ghost invariant = { λ l. 1 ≤ length l.items.items };
}

impl<T: ListItem> NonEmpty<T> {
    /// The items of a list. None, where it is empty.
    pub fn new(items: Vec<T>) -> Option<NonEmpty<T>>
        ensures { SomeIff result (1 ≤ length items.items) items.items }
    {
        if items.is_empty() {
            None
        } else {
            Some(NonEmpty { items })
        }
    }

    /// The items, in order.
    pub fn as_slice(&self) -> &[T]
        ensures value { result.now ≡ self.now }
        ensures some { 1 ≤ length self.now }
    {
        self.items.as_slice()
    }

    /// An equal list.
    pub fn copy(&self) -> Result<NonEmpty<T>, AllocError>
        ensures { IfOk result (λ t. t ≡ self.now) }
    {
        let items = copy_all(*self.items.allocator(), self.items.as_slice())?;
        Ok(NonEmpty { items })
    }
}

/// Item by item, in order.
impl<T: PartialEq> PartialEq for NonEmpty<T> {
    ghost eq = { λ s t. pointwise T.eq s t };

    ghost laws = { lists_per T.laws };

    fn eq(&self, other: &Self) -> bool {
        self.items == other.items
    }
}

impl ListItem for CiText<36> {
    fn item_copy(&self) -> Result<CiText<36>, AllocError> {
        Ok(*self)
    }
}

/// Uids of EVSEs, in order.
#[derive(Drop)]
pub struct EvseUids {
    uids: Vec<CiText<36>>,
}

impl Model for EvseUids {
    ghost use Rattle.std.specs.Prelude.{List, ℕ};

    ghost Value = { List (List ℕ) };

    ghost view = { λ l. l.uids.items };
}

impl EvseUids {
    /// The uids of a list.
    pub fn new(uids: Vec<CiText<36>>) -> EvseUids
        ensures { result ≡ uids.items }
    {
        EvseUids { uids }
    }

    /// The uids, in order.
    pub fn as_slice(&self) -> &[CiText<36>]
        ensures { result.now ≡ self.now }
    {
        self.uids.as_slice()
    }

    /// Equal uids.
    pub fn copy(&self) -> Result<EvseUids, AllocError>
        ensures { IfOk result (λ t. t ≡ self.now) }
    {
        let uids = copy_all(*self.uids.allocator(), self.uids.as_slice())?;
        Ok(EvseUids { uids })
    }
}

/// Uid by uid, as spelled, in order.
impl PartialEq for EvseUids {
    ghost eq = { λ s t. pointwise (pointwise nat_eq) s t };

    ghost laws = { lists_per (partial_equiv_from_equiv nat_list_eq_equiv) };

    fn eq(&self, other: &Self) -> bool {
        self.uids == other.uids
    }
}
