//! What only proofs read. It takes no memory, and its methods do nothing at run time.
ghost use Rattle.std.specs.Prelude.{◌≡◌, List, [], ◌∷◌, ◌++◌};
ghost use Rattle.std.specs.Borrow.{ftrue};

use std::marker::{Model, PhantomData};

/// The values that were noted, in turn. A clause reads them as `items`.
#[derive(Drop)]
pub struct Past<A> {
    of: PhantomData<A>,
    pub ghost items: { List A },
}

impl<A> Model for Past<A> {
    ghost also_owns = { λ _. ftrue };
}

// It owns nothing.
unsafe impl<A: Send> Send for Past<A> {}

impl<A> Past<A> {
    /// Nothing was noted.
    pub fn new() -> Past<A>
        ensures { result.items ≡ [] }
    {
        Past { of: PhantomData }
    }

    /// The same, and then the value as it is now.
    pub fn note(&self, value: &A) -> Past<A>
        ensures { result.items ≡ self.now.items ++ value.now ∷ [] }
    {
        Past { of: PhantomData }
    }
}
