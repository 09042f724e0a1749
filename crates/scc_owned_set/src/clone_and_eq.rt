//! The calls on a whole set: comparisons and clones.
ghost use Rattle.scc_common.specs.Clones.{HasClones};
ghost use Rattle.scc_common.specs.Contents.{entries, notes_of, waiting_of};
ghost use Rattle.scc_common.specs.Copies.{IsCopied};
ghost use Rattle.scc_owned_set.specs.Collections.{FindsClones};
ghost use Rattle.scc_owned_set.specs.Keys.{find, IsUnique};
ghost use Rattle.std.specs.Prelude.{◌≡◌, Some, IfOk, OnErr, [], true, false};

use crate::Owned;
use scc_common::MakeError;
use std::alloc::AllocError;
use std::hash::{BuildHasher, Hash};

impl<K: Eq + Hash, H: BuildHasher> Owned<K, H> {
    /// Returns a clone of the stored key that equals `k`, or `None` if there is none.
    pub fn cloned_key(&self, k: &K) -> Result<Option<K>, AllocError>
    where
        K: Clone,
        ensures ok { IfOk result (IsCopied K.is_clone (find K.eq (entries self.now) k.now)) }
        ensures err { OnErr result ((l : K) × (find K.eq (entries self.now) k.now ≡ Some l) × (K.is_infallible l → ⊥)) }
    {
        self.map.cloned_key(k)
    }

    /// Returns a set with clones of all keys and of the hasher. It has the capacity of this set as its capacity and
    /// its minimum; no bucket of it waits, and no refused resize is noted. Fails if memory is refused, a clone fails,
    /// or the clones of two keys are equal.
    pub fn try_clone(&self) -> Result<Self, MakeError>
    where
        K: Clone,
        H: Clone,
        ensures clones { IfOk result (HasClones K.is_clone H.is_clone self.now) }
        ensures finds { IfOk result (λ s. ((k : K) → (copy : K) → K.is_clone k copy → K.eq k copy ≡ true)
            → FindsClones K.eq K.is_clone (entries self.now) (entries s)) }
        ensures noted { IfOk result (λ s. notes_of s ≡ (false, false)) }
        ensures waiting { IfOk result (λ s. waiting_of s ≡ []) }
        ensures unique { IfOk result (λ s. IsUnique K.eq s) }
    {
        match self.map.try_clone() {
            Ok(map) => Ok(Owned { map }),
            Err(e) => Err(e),
        }
    }
}

impl<K: Eq + Hash, H: BuildHasher> PartialEq for Owned<K, H> {
    ghost use Rattle.scc_owned_set.specs.Equality.{keys_eq, keys_eq-symm, keys_eq-trans};

    ghost eq = { λ m n. keys_eq K.eq (entries m) (entries n) };

    ghost laws = { record {
      symm = λ m n. keys_eq-symm K.eq (entries m) (entries n);
      trans = λ l m n. keys_eq-trans K.eq
          K.Eq.laws (entries l) (entries m) (entries n);
    } };

    /// Returns whether each key of either set is in the other set.
    fn eq(&self, other: &Self) -> bool {
        self.map == other.map
    }
}

impl<K: Eq + Hash, H: BuildHasher> Eq for Owned<K, H> {
    ghost use Rattle.std.specs.Cmp;
    ghost use Rattle.scc_owned_set.specs.Equality.{keys_eq-symm, keys_eq-trans, keys_eq-refl};

    ghost laws = { Cmp.equiv (record {
      symm = λ m n. keys_eq-symm K.eq (entries m) (entries n);
      trans = λ l m n.
          keys_eq-trans K.eq K.Eq.laws (entries l) (entries m) (entries n);
    }) (λ m. keys_eq-refl K.eq K.Eq.laws
        (entries m)) };
}
