//! The calls on a whole map: comparisons and clones.
ghost use Rattle.scc_common.specs.Clones.{HasClones};
ghost use Rattle.scc_common.specs.Contents.{entries, notes_of, waiting_of};
ghost use Rattle.scc_common.specs.Copies.{IsCopied};
ghost use Rattle.scc_common.specs.Pairs.{find, IsUnique};
ghost use Rattle.scc_owned.specs.Collections.{FindsClones};
ghost use Rattle.std.specs.HashMap.{entries_eq};
ghost use Rattle.std.specs.List.{list_all};
ghost use Rattle.std.specs.Option.{option_eq};
ghost use Rattle.std.specs.Prelude.{◌≡◌, Some, IfOk, OnErr, [], true, false};

use crate::{Map, Owned};
use scc_common::MakeError;
use std::alloc::AllocError;
use std::hash::{BuildHasher, Hash};

impl<K: Eq + Hash, V, H: BuildHasher> Map<K, V, H> {
    /// Returns a clone of the value of `k`, or `None` if no key equals `k`.
    pub fn cloned_value(&self, k: &K) -> Result<Option<V>, AllocError>
    where
        V: Clone,
        ensures ok { IfOk result (IsCopied (λ p w. V.is_clone p.1 w) (find K.eq (entries self.now) k.now)) }
        ensures err { OnErr result ((p : K × V) × (find K.eq (entries self.now) k.now ≡ Some p)
            × (V.is_infallible p.1 → ⊥)) }
    {
        let hash = self.table.hash(k);
        match self.table.find(hash, k) {
            Some(pair) => Ok(Some(pair.1.clone()?)),
            None => Ok(None),
        }
    }

    /// Returns a clone of the stored key that equals `k`, or `None` if there is none.
    pub fn cloned_key(&self, k: &K) -> Result<Option<K>, AllocError>
    where
        K: Clone,
        ensures ok { IfOk result (IsCopied (λ p l. K.is_clone p.0 l) (find K.eq (entries self.now) k.now)) }
        ensures err { OnErr result ((p : K × V) × (find K.eq (entries self.now) k.now ≡ Some p)
            × (K.is_infallible p.0 → ⊥)) }
    {
        let hash = self.table.hash(k);
        match self.table.find(hash, k) {
            Some(pair) => Ok(Some(pair.0.clone()?)),
            None => Ok(None),
        }
    }

    /// Returns a clone of the pair of `k`, or `None` if no key equals `k`.
    pub fn cloned_pair(&self, k: &K) -> Result<Option<(K, V)>, AllocError>
    where
        K: Clone,
        V: Clone,
        ensures ok { IfOk result (IsCopied (λ p q. K.is_clone p.0 q.0 × V.is_clone p.1 q.1)
            (find K.eq (entries self.now) k.now)) }
        ensures err { OnErr result ((p : K × V) × (find K.eq (entries self.now) k.now ≡ Some p)
            × (K.is_infallible p.0 × V.is_infallible p.1 → ⊥)) }
    {
        let hash = self.table.hash(k);
        match self.table.find(hash, k) {
            Some(pair) => Ok(Some(pair.clone()?)),
            None => Ok(None),
        }
    }

    /// Returns a map with clones of all pairs and of the hasher. It has the capacity of this map as its capacity and
    /// its minimum; no bucket of it waits, and no refused resize is noted. Fails if memory is refused, a clone fails,
    /// or the clones of two keys are equal.
    pub fn try_clone(&self) -> Result<Self, MakeError>
    where
        K: Clone,
        V: Clone,
        H: Clone,
        ensures clones { IfOk result (HasClones (λ p q. K.is_clone p.0 q.0 × V.is_clone p.1 q.1) H.is_clone self.now) }
        ensures finds { IfOk result (λ m. ((k : K) → (copy : K) → K.is_clone k copy → K.eq k copy ≡ true)
            → FindsClones K.eq (λ p q. K.is_clone p.0 q.0 × V.is_clone p.1 q.1) (entries self.now) (entries m)) }
        ensures noted { IfOk result (λ m. notes_of m ≡ (false, false)) }
        ensures waiting { IfOk result (λ m. waiting_of m ≡ []) }
        ensures unique { IfOk result (λ m. IsUnique K.eq m) }
    {
        match self.table.try_clone() {
            Ok(table) => Ok(Owned::over(table)),
            Err(e) => Err(e),
        }
    }
}

impl<K: Eq + Hash, V: PartialEq, H: BuildHasher> PartialEq for Map<K, V, H> {
    ghost use Rattle.scc_common.specs.Equality.{entries_eq-symm, entries_eq-trans};

    ghost eq = { λ m n. entries_eq K.eq (λ p q. V.eq p.1 q.1) (entries m) (entries n) };

    ghost laws = { let v = V.laws in record {
      symm = λ m n. entries_eq-symm K.eq (λ p q. V.eq p.1 q.1)
          (λ p q. v.symm p.1 q.1) (entries m) (entries n);
      trans = λ l m n. entries_eq-trans K.eq (λ p q. V.eq p.1 q.1)
          K.Eq.laws (λ p q r. v.trans p.1 q.1 r.1) (entries l) (entries m) (entries n);
    } };

    /// Returns whether each pair of either map has its key with an equal value in the other map.
    fn eq(&self, other: &Self) -> bool {
        self.len() == other.len() && self.is_within(other)
    }
}

impl<K: Eq + Hash, V: Eq, H: BuildHasher> Eq for Map<K, V, H> {
    ghost use Rattle.std.specs.Cmp;
    ghost use Rattle.std.specs.Cmp.{partial_equiv_from_equiv};
    ghost use Rattle.scc_common.specs.Equality.{entries_eq-symm, entries_eq-trans, entries_eq-refl};

    ghost laws = { let v = V.Eq.laws in Cmp.equiv (record {
      symm = λ m n. entries_eq-symm K.eq (λ p q. V.eq p.1 q.1)
          (λ p q. v.symm p.1 q.1) (entries m) (entries n);
      trans = λ l m n. entries_eq-trans K.eq (λ p q. V.eq p.1 q.1)
          K.Eq.laws (λ p q r. (partial_equiv_from_equiv v).trans p.1 q.1 r.1) (entries l) (entries m) (entries n);
    })
        (λ m. entries_eq-refl K.eq (λ p q. V.eq p.1 q.1) (λ p. v.refl p.1) (entries m)) };
}

impl<K: Eq + Hash, V: PartialEq, H: BuildHasher> Map<K, V, H> {
    /// Returns whether a key equals `k` and its value equals `v`.
    fn has_pair(&self, k: &K, v: &V) -> bool
        ensures { result ≡ option_eq (λ p q. V.eq p.1 q.1) (Some (k.now, v.now)) (find K.eq (entries self.now) k.now) }
    {
        let hash = self.table.hash(k);
        match self.table.search(hash, k) {
            Some(place) => *v == *self.table.pair_at(place).1,
            None => false,
        }
    }

    /// Returns whether each pair of this map has its key with an equal value in `other`.
    fn is_within(&self, other: &Self) -> bool
        ensures { result ≡ list_all (λ p. option_eq (λ p q. V.eq p.1 q.1) (Some p)
            (find K.eq (entries other.now) p.0)) (entries self.now) }
    {
        self.table.walk(|k, v| other.has_pair(k, v))
    }
}
