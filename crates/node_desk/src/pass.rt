//! The right to call a desk.

ghost use Rattle.std.specs.Prelude.{◌≡◌, ◌<◌, sum_by, vec_len};
ghost use Rattle.node_desk.specs.Passes.{PassOf};

use crate::naming::Naming;
use std::marker::Model;
use std::sync::ledger::Share;

/// The right to call a desk. It knows how many entries its holder has seen, and its calls that were entered are counted
/// in it; the count exists in proofs alone.
#[derive(Drop)]
pub struct Pass<J: Naming> {
    pub(crate) seen: usize,
    pub(crate) share: Share<J>,
}

impl<J: Naming> Model for Pass<J> {
    ghost use Rattle.std.specs.Prelude.{◌≡◌};
    ghost use Rattle.node_desk.specs.Passes.{PassOf};

    ghost Value = { PassOf };

    ghost view = { λ p. record { seen = p.seen; count = p.share.amount } };

    ghost invariant = { λ p. p.share.parts ≡ 1 };
}

impl<J: Naming> Pass<J> {
    /// How many entries its holder has seen: one more than the place of its last receipt, or as many as there were when
    /// the desk was made.
    pub fn seen(&self) -> usize
        ensures { result ≡ self.now.seen }
    {
        self.seen
    }
}

/// The shares of all passes, put together.
pub(crate) fn join_all<J: Naming>(passes: Vec<Pass<J>>) -> Share<J>
    requires { 0 < vec_len passes }
    ensures parts { result.parts ≡ vec_len passes }
    ensures amount { result.amount ≡ sum_by (λ (p : PassOf). p.count) passes.items }
{
    let mut passes = passes;
    let Some(last) = passes.pop() else {
        unreachable!()
    };
    let Pass { seen: _, share } = last;
    let mut all = share;
    while let Some(pass) = passes.pop() {
        let Pass { seen: _, share } = pass;
        all.merge(share);
    }
    all
}
