//! The calls on a whole cache: comparisons and clones.
ghost use Rattle.scc_owned_cache.specs.CacheSteps.{pair_of};
ghost use Rattle.scc_common.specs.Contents.{hash_in, entries};
ghost use Rattle.scc_common.specs.Copies.{IsCopied};
ghost use Rattle.scc_common.specs.Pairs.{find};
ghost use Rattle.std.specs.HashMap.{entries_eq};
ghost use Rattle.std.specs.List.{list_all};
ghost use Rattle.std.specs.Option.{option_eq};
ghost use Rattle.std.specs.Prelude.{◌≡◌, Some, IfOk, OnErr};

use crate::Owned;
use scc_common::{Hashes, Rule, Valued};
use std::alloc::AllocError;
use std::hash::{BuildHasher, Hash};

impl<K: Eq + Hash, V, H: BuildHasher, R: Rule<K, V>> Owned<K, V, H, R> {
    /// Returns a clone of the value of `k`, or `None` if no key equals `k`.
    pub fn cloned_value(&self, k: &K) -> Result<Option<V>, AllocError>
    where
        V: Clone,
        ensures ok { IfOk result (IsCopied (λ p w. V.is_clone p.1 w)
            (pair_of (hash_in ⟦<H as Hashes<K>>⟧.hash_of self.now.contents) K.eq self.now.contents k.now)) }
        ensures err { OnErr result ((p : K × V) × (pair_of (hash_in ⟦<H as Hashes<K>>⟧.hash_of self.now.contents) K.eq
            self.now.contents k.now ≡ Some p) × (V.is_infallible p.1 → ⊥)) }
    {
        let hash = self.table.hash(k);
        match self.place_of(hash, k) {
            Some(place) => Ok(Some(self.pair_at(place).1.clone()?)),
            None => Ok(None),
        }
    }

    /// Returns a clone of the stored key that equals `k`, or `None` if there is none.
    pub fn cloned_key(&self, k: &K) -> Result<Option<K>, AllocError>
    where
        K: Clone,
        ensures ok { IfOk result (IsCopied (λ p l. K.is_clone p.0 l)
            (pair_of (hash_in ⟦<H as Hashes<K>>⟧.hash_of self.now.contents) K.eq self.now.contents k.now)) }
        ensures err { OnErr result ((p : K × V) × (pair_of (hash_in ⟦<H as Hashes<K>>⟧.hash_of self.now.contents) K.eq
            self.now.contents k.now ≡ Some p) × (K.is_infallible p.0 → ⊥)) }
    {
        let hash = self.table.hash(k);
        match self.place_of(hash, k) {
            Some(place) => Ok(Some(self.pair_at(place).0.clone()?)),
            None => Ok(None),
        }
    }

    /// Returns a clone of the pair of `k`, or `None` if no key equals `k`.
    pub fn cloned_pair(&self, k: &K) -> Result<Option<(K, V)>, AllocError>
    where
        K: Clone,
        V: Clone,
        ensures ok { IfOk result (IsCopied (λ p q. K.is_clone p.0 q.0 × V.is_clone p.1 q.1)
            (pair_of (hash_in ⟦<H as Hashes<K>>⟧.hash_of self.now.contents) K.eq self.now.contents k.now)) }
        ensures err { OnErr result ((p : K × V) × (pair_of (hash_in ⟦<H as Hashes<K>>⟧.hash_of self.now.contents) K.eq
            self.now.contents k.now ≡ Some p) × (K.is_infallible p.0 × V.is_infallible p.1 → ⊥)) }
    {
        let hash = self.table.hash(k);
        match self.place_of(hash, k) {
            Some(place) => {
                let (key, value) = self.pair_at(place);
                let key = key.clone()?;
                let value = value.clone()?;
                Ok(Some((key, value)))
            }
            None => Ok(None),
        }
    }
}

impl<K: Eq + Hash, V: PartialEq, H: BuildHasher> PartialEq for Owned<K, V, H> {
    ghost use Rattle.scc_common.specs.Equality.{entries_eq-symm, entries_eq-trans};

    ghost eq = { λ m n. entries_eq K.eq (λ p q. V.eq p.1 q.1) (entries m.contents) (entries n.contents) };

    ghost laws = { let v = V.laws in record {
      symm = λ m n. entries_eq-symm K.eq (λ p q. V.eq p.1 q.1)
          (λ p q. v.symm p.1 q.1) (entries m.contents) (entries n.contents);
      trans = λ l m n. entries_eq-trans K.eq
          (λ p q. V.eq p.1 q.1) K.Eq.laws (λ p q r. v.trans p.1 q.1 r.1) (entries l.contents) (entries m.contents)
          (entries n.contents);
    } };

    /// Returns whether each pair of either cache has its key with an equal value in the other cache. The order of the
    /// pairs and the maximum don't count.
    fn eq(&self, other: &Self) -> bool {
        self.len() == other.len() && self.is_within(other)
    }
}

impl<K: Eq + Hash, V: Eq, H: BuildHasher> Eq for Owned<K, V, H> {
    ghost use Rattle.std.specs.Cmp;
    ghost use Rattle.std.specs.Cmp.{partial_equiv_from_equiv};
    ghost use Rattle.scc_common.specs.Equality.{entries_eq-symm, entries_eq-trans, entries_eq-refl};

    ghost laws = { let v = V.Eq.laws in Cmp.equiv (record {
      symm = λ m n. entries_eq-symm K.eq (λ p q. V.eq p.1 q.1)
          (λ p q. v.symm p.1 q.1) (entries m.contents) (entries n.contents);
      trans = λ l m n. entries_eq-trans K.eq
          (λ p q. V.eq p.1 q.1) K.Eq.laws (λ p q r. (partial_equiv_from_equiv v).trans p.1 q.1 r.1) (entries l.contents)
          (entries m.contents) (entries n.contents);
    }) (λ m. entries_eq-refl K.eq (λ p q. V.eq p.1 q.1) (λ p. v.refl p.1)
        (entries m.contents)) };
}

impl<K: Eq + Hash, V: PartialEq, H: BuildHasher> Owned<K, V, H> {
    /// Returns whether a key equals `k` and its value equals `v`.
    fn has_pair(&self, k: &K, v: &V) -> bool
        ensures { result ≡ option_eq (λ p q. V.eq p.1 q.1) (Some (k.now, v.now))
            (find K.eq (entries self.now.contents) k.now) }
    {
        let hash = self.table.hash(k);
        match self.table.search(hash, k) {
            Some(place) => *v == *self.table.entry_at(place).parts().1,
            None => false,
        }
    }

    /// Returns whether each pair of this cache has its key with an equal value in `other`.
    fn is_within(&self, other: &Self) -> bool
        ensures { result ≡ list_all (λ p. option_eq (λ p q. V.eq p.1 q.1) (Some p)
            (find K.eq (entries other.now.contents) p.0)) (entries self.now.contents) }
    {
        self.iter_lent(&mut |k, v| other.has_pair(k, v))
    }
}
