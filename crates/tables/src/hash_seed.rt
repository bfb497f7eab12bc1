//! What hashes begin with.

use std::hash::{BuildHasher, FoldHasher, Hasher};
use std::io;
use std::random::RandomSource;

/// What each hash of a lookup begins with. Others choose keys that are looked up. They cannot foresee which of them
/// meet in a table, unless they know the seed. No call answers it, and no answer depends on it.
#[derive(Clone, Copy)]
pub struct HashSeed {
    begun: FoldHasher,
}

/// A hasher that has begun with a number.
fn begin(number: u64) -> FoldHasher {
    let mut hasher = FoldHasher::default();
    hasher.write_u64(number);
    hasher
}

impl HashSeed {
    /// A seed that nobody can foresee, of the system's random bytes. An error is the system's.
    pub fn random(rt: &impl RandomSource) -> io::Result<HashSeed> {
        let mut bytes = [0; 8];
        rt.fill_bytes(&mut bytes)?;
        Ok(HashSeed {
            begun: begin(u64::from_le_bytes(bytes)),
        })
    }

    /// Always the same seed: for tests, and where nobody else chooses the keys.
    pub fn fixed() -> HashSeed {
        HashSeed { begun: begin(0) }
    }
}

impl BuildHasher for HashSeed {
    type Hasher = FoldHasher;

    ghost build_hasher = { λ s. s.begun };

    fn build_hasher(&self) -> FoldHasher {
        self.begun
    }
}
