//! What a hash of a text, of the keys of texts and of a whole number is made of, so that they can be looked up by
//! their hash.

ghost use Rattle.std.specs.Hash as fed;
ghost use Rattle.std.specs.Slice.Scan.{big_endian};

use crate::ci_text::CiText;
use crate::keys::{CiKey, PartyKey};
use crate::whole::Whole;
use std::hash::{Hash, Hasher};

/// As the number of its six bytes.
impl Hash for PartyKey {
    ghost hash_input = { λ k. fed.u64 (big_endian 0 k) };

    ghost use Rattle.std.proofs.Common.{ap, sym};
    ghost use Rattle.std.specs.Cmp.Lexicographic.{same_text};

    ghost respects_eq = { λ s t e. ap (λ k. fed.u64 (big_endian 0 k)) (same_text s t (sym e)) };

    fn hash<H: Hasher>(&self, state: &mut H) {
        self.text().number().hash(state);
    }
}

/// As the text, as it was spelled.
impl<const MAX: usize> Hash for CiText<MAX> {
    ghost hash_input = { λ s. fed.str s };

    ghost use Rattle.std.proofs.Common.{ap, sym};
    ghost use Rattle.std.specs.Cmp.Lexicographic.{same_text};

    ghost respects_eq = { λ s t e. ap fed.str (same_text s t (sym e)) };

    fn hash<H: Hasher>(&self, state: &mut H) {
        self.as_str().hash(state);
    }
}

/// As the text of the key.
impl<const MAX: usize> Hash for CiKey<MAX> {
    ghost hash_input = { λ k. fed.str k };

    ghost use Rattle.std.proofs.Common.{ap, sym};
    ghost use Rattle.std.specs.Cmp.Lexicographic.{same_text};

    ghost respects_eq = { λ s t e. ap fed.str (same_text s t (sym e)) };

    fn hash<H: Hasher>(&self, state: &mut H) {
        self.as_str().hash(state);
    }
}

/// As the number.
impl Hash for Whole {
    ghost hash_input = { fed.u64 };

    ghost use borrow.Author.Rules.{rules};

    ghost respects_eq = { Prim.search rules };

    fn hash<H: Hasher>(&self, state: &mut H) {
        self.value().hash(state);
    }
}
