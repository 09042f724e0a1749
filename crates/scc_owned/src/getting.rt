//! The calls that return the value of a key, and make one that is missing, alike for maps and indexes, under a rule or
//! under none.
ghost use Rattle.scc_common.specs.Contents.{entries, IsUniqueBy};
ghost use Rattle.scc_owned.specs.Getting.{GetsCloned, GetsOrInserts, TriesToGet};
ghost use Rattle.std.specs.Fn.{FnOnceReturnsAt, FnOnceTakesAt};
ghost use Rattle.std.specs.Prelude.{◌≡◌, Err, IfErr, IfOk, None, Ok};

use crate::Owned;
use crate::stored::Stored;
use scc_common::Hashes;
use std::alloc::AllocError;
use std::hash::{BuildHasher, Hash};

impl<E: Stored, H: BuildHasher> Owned<E, H>
where
    E::Key: Eq + Hash,
{
    /// Returns the value of `k`. If no key equals `k`, calls `make` with `k`, inserts the pair unless memory is refused,
    /// and returns the value.
    pub fn get_or_insert_with<F: FnOnce(&E::Key) -> E::Value>(
        &mut self,
        k: E::Key,
        make: F,
    ) -> E::Value
    where
        E::Key: Drop,
        E::Value: Copy,
        requires callable { E.lookups.find (E.Key.eq k) (entries self.old) ≡ None → FnOnceTakesAt F.FnOnce make k }
        requires keeps { E.lookups.find (E.Key.eq k) (entries self.old) ≡ None
            → (v : E.Value) → FnOnceReturnsAt F.FnOnce make k v → E.allows k v }
        ensures step { GetsOrInserts E.lookups E.key_of E.value_of E.Key.eq ⟦<H as Hashes<E::Key>>⟧.hash_of E.taking
            self.old k (FnOnceReturnsAt F.FnOnce make k) (E.lookups.find (E.Key.eq k) (entries self.old)) result
            self.new }
        ensures allowed { E.allows k result }
        ensures unique { IsUniqueBy E.Key.eq E.key_of self.new }
    {
        let hash = self.table.hash(&k);
        match self.table.search(hash, &k) {
            Some(place) => *self.entry_at(place).read().1,
            None => {
                let value = make(&k);
                let _ = E::insert_into(self, hash, k, value);
                value
            }
        }
    }

    /// As `get_or_insert_with`, but `make` may fail. Then its error is returned, and nothing is stored.
    pub fn get_or_try_insert_with<X, F: FnOnce(&E::Key) -> Result<E::Value, X>>(
        &mut self,
        k: E::Key,
        make: F,
    ) -> Result<E::Value, X>
    where
        E::Key: Drop,
        E::Value: Copy,
        requires callable { E.lookups.find (E.Key.eq k) (entries self.old) ≡ None → FnOnceTakesAt F.FnOnce make k }
        requires keeps { E.lookups.find (E.Key.eq k) (entries self.old) ≡ None
            → (v : E.Value) → FnOnceReturnsAt F.FnOnce make k (Ok v) → E.allows k v }
        ensures step { TriesToGet E.lookups E.key_of E.value_of E.Key.eq ⟦<H as Hashes<E::Key>>⟧.hash_of E.taking
            self.old k (λ v. FnOnceReturnsAt F.FnOnce make k (Ok v)) (λ x. FnOnceReturnsAt F.FnOnce make k (Err x))
            (E.lookups.find (E.Key.eq k) (entries self.old)) result self.new }
        ensures allowed { IfOk result (E.allows k) }
        ensures failed { IfErr result (λ x. FnOnceReturnsAt F.FnOnce make k (Err x)) }
        ensures unique { IsUniqueBy E.Key.eq E.key_of self.new }
    {
        let hash = self.table.hash(&k);
        match self.table.search(hash, &k) {
            Some(place) => Ok(*self.entry_at(place).read().1),
            None => match make(&k) {
                Ok(made) => {
                    let _ = E::insert_into(self, hash, k, made);
                    Ok(made)
                }
                Err(error) => Err(error),
            },
        }
    }

    /// As `get_or_insert_with`, but returns a clone of the value. Fails if the clone fails; then the value stays in the
    /// container. If memory for the insertion is refused, returns the value that was made.
    pub fn get_or_insert_cloned<F: FnOnce(&E::Key) -> E::Value>(
        &mut self,
        k: E::Key,
        make: F,
    ) -> Result<E::Value, AllocError>
    where
        E::Key: Drop,
        E::Value: Clone,
        requires callable { E.lookups.find (E.Key.eq k) (entries self.old) ≡ None → FnOnceTakesAt F.FnOnce make k }
        requires keeps { E.lookups.find (E.Key.eq k) (entries self.old) ≡ None
            → (v : E.Value) → FnOnceReturnsAt F.FnOnce make k v → E.allows k v }
        ensures step { GetsCloned E.lookups E.key_of E.value_of E.Key.eq ⟦<H as Hashes<E::Key>>⟧.hash_of E.taking
            self.old k E.Value.is_clone E.Value.is_infallible (FnOnceReturnsAt F.FnOnce make k)
            (E.lookups.find (E.Key.eq k) (entries self.old)) result self.new }
        ensures allowed { ((v w : E.Value) → E.allows k v → E.Value.is_clone v w → E.allows k w)
            → IfOk result (E.allows k) }
        ensures unique { IsUniqueBy E.Key.eq E.key_of self.new }
    {
        let hash = self.table.hash(&k);
        match self.table.search(hash, &k) {
            Some(place) => self.entry_at(place).read().1.clone(),
            None => {
                let value = make(&k);
                match E::insert_into(self, hash, k, value) {
                    Ok(place) => self.entry_at(place).read().1.clone(),
                    Err((_key, value)) => Ok(value),
                }
            }
        }
    }
}
