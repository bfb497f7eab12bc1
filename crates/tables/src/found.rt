//! The entries of a lookup, one after the other.

ghost use Rattle.std.specs.Prelude.{◌≡◌, length};
ghost use Rattle.std.specs.Iterator.{at_most};
ghost use Rattle.std.specs.Map.Iter.{TakesFirst, deref_pair};

use std::collections::hash_map::Iter;
use std::marker::Model;

/// The entries of a lookup that are left to visit. Room without a value is passed over.
#[derive(Drop)]
pub struct Found<'a, K, V> {
    pub(crate) slots: Iter<'a, K, Option<V>>,
}

impl<'a, K, V> Model for Found<'a, K, V> {
    ghost use Rattle.std.specs.Prelude.{List};
    ghost use Rattle.tables.specs.Tables.{shown};

    ghost Value = { List (K × V) };

    ghost view = { λ v. shown v.slots };
}

impl<'a, K, V> Iterator for Found<'a, K, V> {
    type Item = (&'a K, &'a V);

    ghost next_gives = { TakesFirst deref_pair };

    ghost remaining = { λ s. at_most (length s) };

    fn next(&mut self) -> Option<(&'a K, &'a V)> {
        while let Some((key, slot)) = self.slots.next() {
            if let Some(value) = slot {
                return Some((key, value));
            }
        }
        None
    }
}
