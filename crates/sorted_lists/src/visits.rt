//! The entries of a list, one after the other.

ghost use Rattle.std.specs.Prelude.{◌≡◌, length};
ghost use Rattle.std.specs.Iterator.{at_most};
ghost use Rattle.std.specs.Map.Iter.{TakesFirst, deref_pair};

use crate::slots::Slot;
use std::collections::vec_deque::Iter;
use std::marker::Model;

/// The entries of a list that are left to visit, in the order of their keys. Room without a value is passed over.
#[derive(Drop)]
pub struct Visits<'a, K, V> {
    pub(crate) slots: Iter<'a, (K, Slot<V>)>,
}

impl<'a, K, V> Model for Visits<'a, K, V> {
    ghost use Rattle.std.specs.Prelude.{List};
    ghost use Rattle.std.specs.VecDeque.Iter.{deque_iter_rest};
    ghost use Rattle.tables.specs.Tables.{shown};
    ghost use Rattle.sorted_lists.specs.Slots.{seen};

    ghost Value = { List (K × V) };

    ghost view = { λ v. shown (seen (deque_iter_rest v.slots)) };
}

impl<'a, K, V> Iterator for Visits<'a, K, V> {
    type Item = (&'a K, &'a V);

    ghost next_gives = { TakesFirst deref_pair };

    ghost remaining = { λ s. at_most (length s) };

    fn next(&mut self) -> Option<(&'a K, &'a V)> {
        while let Some(slot) = self.slots.next() {
            if let Slot::Value(value) = &slot.1 {
                return Some((&slot.0, value));
            }
        }
        None
    }
}
