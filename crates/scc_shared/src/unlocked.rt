//! A container whose stripes have no locks yet.
ghost use Rattle.std.specs.List.{FoldsTo};
ghost use Rattle.std.specs.Prelude.{◌≡◌, false, IfOk, IsTrue};
ghost use Rattle.scc_common.specs.Contents.{entries};
ghost use Rattle.scc_common.specs.Routing.{stripe_of};
ghost use Rattle.scc_common.specs.Rules.{ClonesKeep};
ghost use Rattle.scc_stripes.specs.Parts.{part_count, parts_hasher, parts_of, parts_owner};
ghost use Rattle.scc_shared.specs.Copying.{InsertsClones, InsertsMissing, InsertsNothing, InsertsRouted};
ghost use Rattle.scc_shared.specs.Stripes.{hasher_of};

use super::{HashContainer, Paired};
use scc_common::{Hashes, Keyed, MakeError, Shared};
use scc_owned::{Owned, Stored};
use scc_stripes::OpenStripes;
use std::alloc::Global;
use std::hash::{BuildHasher, Hash};

/// A container that is filled before threads share it.
#[derive(Drop)]
pub(crate) struct Unlocked<E: Keyed, H: BuildHasher>
where
    E::Key: Eq + Hash,
{
    parts: OpenStripes<Owned<E, Shared<H>>, H>,
}

impl<E: Keyed + Drop, H: BuildHasher + Drop> Unlocked<E, H>
where
    E::Key: Eq + Hash,
{
    /// Returns an empty container without locks, for `capacity` slots, under the hasher of `of`. Fails if memory is
    /// refused.
    pub(crate) fn alike(
        alloc: Global,
        of: &HashContainer<E, H>,
        capacity: usize,
    ) -> Result<Self, MakeError>
        ensures hasher { IfOk result (λ u. parts_hasher u.parts ≡ hasher_of of.now) }
    {
        match OpenStripes::alike(alloc, &of.stripes, capacity) {
            Ok(parts) => Ok(Unlocked { parts }),
            Err(e) => Err(e),
        }
    }

    /// Puts a lock round each stripe. Fails if memory is refused.
    pub(crate) fn lock(self, alloc: Global) -> Result<HashContainer<E, H>, MakeError>
        ensures hasher { IfOk result (λ m. hasher_of m ≡ parts_hasher self.parts) }
    {
        match self.parts.lock(alloc) {
            Ok(stripes) => Ok(HashContainer { stripes, alloc }),
            Err(e) => Err(e),
        }
    }
}

impl<E: Paired, H: BuildHasher> Unlocked<E, H>
where
    E::Key: Eq + Hash + Clone + Drop,
    E::Value: Clone + Drop,
{
    /// Inserts clones of all pairs of `from`, up to the first pair that can't be inserted. Returns whether all pairs
    /// were inserted.
    pub(crate) fn insert_all(&mut self, from: &Owned<E, Shared<H>>) -> bool
        requires { ClonesKeep E.allows E.Key.is_clone E.Value.is_clone }
        ensures hasher { parts_owner self.new.parts ≡ parts_owner self.old.parts }
        ensures all { IsTrue result → FoldsTo (InsertsClones E.lookups E.Key.eq E.Key.is_clone E.Value.is_clone
            (stripe_of H.BuildHasher H.Hasher.Hasher E.Key.hash_input (parts_hasher self.old.parts)
            (part_count self.old.parts))) (parts_of self.old.parts) (entries from.now) (parts_of self.new.parts) }
    {
        let mut at = from.first_place();
        while let Some(place) = at {
            let (k, v) = E::pair_at(from, place);
            if !self.insert_clones(k, v) {
                return false;
            }
            at = from.next_place(place);
        }
        true
    }

    /// Inserts clones of `k` and `v`, and returns whether it did. It does unless a clone fails, a key equals the clone
    /// of `k`, or memory is refused.
    fn insert_clones(&mut self, k: &E::Key, v: &E::Value) -> bool
        requires allowed { E.allows k.now v.now }
        requires clones { ClonesKeep E.allows E.Key.is_clone E.Value.is_clone }
        ensures hasher { parts_owner self.new.parts ≡ parts_owner self.old.parts }
        ensures count { part_count self.new.parts ≡ part_count self.old.parts }
        ensures made { IsTrue result → (key : E.Key) × (value : E.Value) × E.Key.is_clone k.now key
            × E.Value.is_clone v.now value × InsertsRouted E.lookups E.Key.eq
            (stripe_of H.BuildHasher H.Hasher.Hasher E.Key.hash_input (parts_hasher self.old.parts)
            (part_count self.old.parts)) (parts_of self.old.parts) key value (parts_of self.new.parts) }
    {
        let Ok(key) = k.clone() else {
            return false;
        };
        let Ok(value) = v.clone() else {
            return false;
        };
        let part = self.parts.route(&key);
        self.parts
            .change(part, move |owned| insert::<E, H>(owned, key, value))
    }
}

/// Inserts the pair if no key equals `key`, and returns whether it did.
fn insert<E: Stored, H: BuildHasher>(
    owned: &mut Owned<E, Shared<H>>,
    key: E::Key,
    value: E::Value,
) -> bool
where
    E::Key: Eq + Hash + Drop,
    E::Value: Drop,
    requires { E.allows key value }
    ensures made { IsTrue result → InsertsMissing E.lookups E.Key.eq owned.old key value owned.new }
    ensures left { result ≡ false → InsertsNothing E.lookups E.Key.eq E.taking
        ⟦<Shared<H> as Hashes<E::Key>>⟧.hash_of E.key_of owned.old key owned.new }
{
    let hash = owned.hash_of(&key);
    match owned.place_of(hash, &key) {
        Some(_) => false,
        None => E::insert_into(owned, hash, key, value).is_ok(),
    }
}
