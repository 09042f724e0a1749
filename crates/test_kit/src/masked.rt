//! A hasher by which a key under a mask is its own hash. One key type thus has keys that spread, keys with equal
//! tags, and keys that all collide.
ghost use Rattle.std.specs.Int.Bits.{bit_and};
ghost use Rattle.test_kit.specs.Masks.{masked_write};

use std::hash::{BuildHasher, Hasher};

/// Builds hashers by which the hash of a `u64` is the number under the mask. The default mask is 0.
#[derive(Clone, Copy, Debug, Default, PartialEq)]
pub struct Masked(pub u64);

/// Every key has the hash 0.
pub const ZERO: Masked = Masked(0);

/// The lowest 7 bits of each hash are 0, so that all entries have one tag.
pub const ALIKE: Masked = Masked(0xFFFF_FFFF_FFFF_FF80);

/// Each key is its own hash.
pub const SAME: Masked = Masked(u64::MAX);

/// Finishes with the last write of exactly eight bytes, as a native `u64` under the mask. Finishes with 0 if there
/// was no such write.
#[derive(Clone, Copy, Debug, PartialEq)]
pub struct MaskedHasher {
    last: u64,
    mask: u64,
}

impl Hasher for MaskedHasher {
    ghost write = { masked_write };

    ghost finish = { λ hasher. bit_and hasher.last hasher.mask };

    fn finish(&self) -> u64 {
        self.last & self.mask
    }

    fn write(&mut self, bytes: &[u8]) {
        if let Ok(eight) = <[u8; 8]>::try_from(bytes) {
            self.last = u64::from_ne_bytes(eight);
        }
    }
}

impl BuildHasher for Masked {
    type Hasher = MaskedHasher;

    ghost build_hasher = { λ builder. record { last = 0; mask = builder.0 } };

    fn build_hasher(&self) -> MaskedHasher {
        MaskedHasher {
            last: 0,
            mask: self.0,
        }
    }
}
