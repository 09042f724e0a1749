//! A hash that is the key itself, so that a script decides to which bucket and stripe its keys go.
ghost use Rattle.scc_script.specs.Hashes.{same_write};

use std::hash::{BuildHasher, Hasher};

/// Builds hashers under which a `u64` is its own hash.
#[derive(Clone, Copy, Debug, PartialEq)]
pub struct Same;

/// A hasher that finishes with the bytes of the last write of exactly eight bytes, as a native `u64`, or with 0 if
/// there was no such write.
#[derive(Clone, Copy, Debug, PartialEq)]
pub struct SameHasher {
    last: u64,
}

impl Hasher for SameHasher {
    ghost write = { same_write };

    ghost finish = { λ hasher. hasher.last };

    fn finish(&self) -> u64 {
        self.last
    }

    fn write(&mut self, bytes: &[u8]) {
        if let Ok(eight) = <[u8; 8]>::try_from(bytes) {
            self.last = u64::from_ne_bytes(eight);
        }
    }
}

impl BuildHasher for Same {
    type Hasher = SameHasher;

    ghost build_hasher = { λ _. record { last = 0 } };

    fn build_hasher(&self) -> SameHasher {
        SameHasher { last: 0 }
    }
}
