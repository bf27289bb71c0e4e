//! Hashing with keys of the caller's. std's own hasher needs a source of random numbers at run time.
ghost use Rattle.std.specs.Prelude.{◌≡◌};
ghost use Rattle.core.specs.Hash.DefaultHasher.{with_keys};
ghost use Rattle.cordyceps_map.specs.Seeded.{first_state};

use core::hash::keyed_hasher;
use std::hash::{BuildHasher, DefaultHasher};

/// Hashes by SipHash-1-3 with two keys of the caller's.
///
/// If others choose the keys of a map, take the two numbers from a source of random numbers. Whoever does not know them
/// cannot foresee which keys share a bucket, as SipHash promises. This is not proved.
#[derive(Clone, Copy)]
pub struct Seeded {
    key0: u64,
    key1: u64,
}

impl Seeded {
    /// Creates the hashing by two keys.
    ///
    /// # Complexity
    /// O(1).
    pub fn new(key0: u64, key1: u64) -> Seeded
        ensures { first_state result ≡ with_keys key0 key1 }
    {
        Seeded { key0, key1 }
    }
}

impl BuildHasher for Seeded {
    type Hasher = DefaultHasher;

    ghost build_hasher = { first_state };

    fn build_hasher(&self) -> DefaultHasher {
        keyed_hasher(self.key0, self.key1)
    }
}
