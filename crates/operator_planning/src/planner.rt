//! What plans the steps of an operator.

ghost use Rattle.std.specs.Prelude.{◌≡◌};
ghost use Rattle.operator_rows.specs.Sound.{IsConsistent};

use operator_rows::Books;
use std::alloc::Global;
use std::marker::Model;

/// Plans what happens to an operator, over its books, which it reads and never changes. It is seen as the books are.
#[derive(Drop)]
pub struct Planner<'a> {
    pub(crate) alloc: Global,
    pub(crate) books: &'a Books,
}

impl<'a> Model for Planner<'a> {
    ghost use Rattle.std.specs.FinMap as map;
    ghost use Rattle.std.specs.Coded.{codes};
    ghost use Rattle.operator_rows.specs.Steps.{Node};

    ghost Value = { Node };

    ghost coded = { Prim.hlevel (codes, map.code) };

    ghost view = { λ p. p.books.now };
}

impl<'a> Planner<'a> {
    /// What plans over those books. Its plans take their memory from `alloc`; this takes none.
    pub fn new(alloc: Global, books: &'a Books) -> Planner<'a>
        ensures { result ≡ books.now }
    {
        Planner { alloc, books }
    }

    /// What holds of every operator at any time, which its books keep.
    pub(crate) fn consistency(&self)
        ensures { IsConsistent self.now.state }
    {
        self.books.consistency();
    }
}
