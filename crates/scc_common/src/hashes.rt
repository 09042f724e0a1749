//! `Hashes`: a hasher and the keys that it hashes, as one.
ghost use Rattle.std.specs.Prelude.{◌≡◌, ℕ, IsTrue};

use std::hash::{BuildHasher, Hash};

/// A hasher of keys of the type `K`. A contract sees the hash of a key as `hash_of`.
pub trait Hashes<K: Eq> {
    ghost hash_of: { Self → K → ℕ };

    /// Returns the hash of `key`.
    fn hash(&self, key: &K) -> u64
        ensures { result ≡ hash_of self.now key.now };

    // Equal keys have equal hashes.
    ghost respects_eq: { (h : Self) (k l : K) → IsTrue (K.eq k l) → hash_of h k ≡ hash_of h l };
}

impl<K: Eq + Hash, H: BuildHasher> Hashes<K> for H {
    ghost use Rattle.std.proofs.Common.{ap};
    ghost use Rattle.scc_common.specs.Hashing.{hash_of as hash_under};

    ghost hash_of = { λ h k. hash_under H.BuildHasher H.Hasher.Hasher h (K.hash_input k) };

    #[inline(always)]
    fn hash(&self, key: &K) -> u64 {
        self.hash_one(key)
    }

    ghost respects_eq = { λ h k l w. ap (hash_under H.BuildHasher H.Hasher.Hasher h) (K.respects_eq k l w) };
}
