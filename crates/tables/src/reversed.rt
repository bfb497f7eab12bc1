//! Keys in the opposite order.

ghost use Rattle.std.specs.Cmp.{back_po, back_total};
ghost use Rattle.tables.specs.Keys.{back_ties};

use std::cmp::Ordering;
use std::marker::Model;

/// A key in the opposite order of its own, which clauses see as the key itself.
#[derive(Clone, Copy)]
pub(crate) struct Reversed<K> {
    pub(crate) key: K,
}

impl<K> Model for Reversed<K> {
    ghost Value = { K };

    ghost coded = { K.code };

    ghost view = { λ r. r.key };

    ghost inverse = { λ k. record { key = k } };
}

impl<K: PartialEq> PartialEq for Reversed<K> {
    ghost eq = { K.eq };

    ghost laws = { K.laws };

    fn eq(&self, other: &Self) -> bool {
        self.key == other.key
    }
}

impl<K: Eq> Eq for Reversed<K> {
    ghost laws = { K.Eq.laws };
}

impl<K: PartialOrd> PartialOrd for Reversed<K> {
    ghost partial_cmp = { λ x y. K.partial_cmp y x };

    ghost laws = { back_po K.PartialEq.laws K.PartialOrd.laws };

    fn partial_cmp(&self, other: &Self) -> Option<Ordering> {
        other.key.partial_cmp(&self.key)
    }
}

/// What is later is less.
impl<K: Ord> Ord for Reversed<K> {
    ghost cmp = { λ x y. K.cmp y x };

    ghost total = { back_total K.Ord.total };

    ghost matches_partial_cmp = { λ x y. K.matches_partial_cmp y x };

    ghost matches_eq = { back_ties K.Ord.total K.matches_eq };

    fn cmp(&self, other: &Self) -> Ordering {
        other.key.cmp(&self.key)
    }
}
