//! The occupied entry of a set: the place of a key.
ghost use Rattle.scc_common.specs.Contents.{entries};
ghost use Rattle.scc_common.specs.Steps.{Holds};
ghost use Rattle.scc_owned_set.specs.Keys.{IsUnique};
ghost use Rattle.scc_owned_set.specs.SetWalks.{CallableWhile, PassesAt, PassesNone};
ghost use Rattle.scc_table.specs.Arrays.{ShrinksByRule};
ghost use Rattle.scc_table.specs.Places.{IsPlace};
ghost use Rattle.std.specs.Borrow.{sem};
ghost use Rattle.std.specs.Fn.{CalledAt};
ghost use Rattle.std.specs.Prelude.{◌≡◌, ◌++◌, [], IfNone, IfSome, ⊤, false};

use crate::Owned;
use scc_buckets::Place;
use std::hash::{BuildHasher, BuildHasherDefault, FoldHasher, Hash};

/// An occupied entry: the place of a key of the set. It borrows the set.
#[derive(Drop)]
pub struct OccupiedEntry<'a, K: Eq + Hash, H: BuildHasher = BuildHasherDefault<FoldHasher>> {
    set: &'a mut Owned<K, H>,
    bucket: usize,
    slot: usize,
    ghost within: { IsPlace set.now (record { bucket = bucket; slot = slot }) },
}

/// A key that was removed.
#[derive(Debug, Drop, PartialEq)]
pub struct Removed<K> {
    pub key: K,
}

impl<K: Eq + Hash, H: BuildHasher> Owned<K, H> {
    ghost use Rattle.scc_owned_set.specs.SetEntries.{StandsIn, occupied_borrow, occupied_key, occupied_front, rests_if_none};

    /// Returns the first entry of the set's list, or `None` if the set is empty.
    pub fn begin_sync(&mut self) -> Option<OccupiedEntry<'_, K, H>>
        ensures same_set { IfSome result (λ o. (occupied_borrow o).ghost_name ≡ self.entry.ghost_name) }
        ensures first { IfSome result (λ o. StandsIn self.old o × (occupied_front o ≡ [])) }
        ensures empty { IfNone result (entries self.old ≡ []) }
        ensures* kept { sem 𝓛 (rests_if_none K.row H.row H.Hasher.row K.Hash H.BuildHasher H.Hasher.Hasher self.entry
            result) }
    {
        match self.first_place() {
            Some(place) => Some(OccupiedEntry {
                set: self,
                bucket: place.bucket,
                slot: place.slot,
            }),
            None => None,
        }
    }

    /// Returns the first entry of the set's list on whose key `p` returns true, or `None` if there is none. Calls `p`
    /// on the keys in the order of the list until it returns true.
    pub fn any_sync<P: FnMut(&K) -> bool>(&mut self, p: P) -> Option<OccupiedEntry<'_, K, H>>
        requires { CallableWhile P.FnMut (λ answer. answer ≡ false) p (entries self.old) }
        ensures same_set { IfSome result (λ o. (occupied_borrow o).ghost_name ≡ self.entry.ghost_name) }
        ensures here { IfSome result (StandsIn self.old) }
        ensures first { IfSome result (λ o. PassesAt (CalledAt P.FnMut) p (occupied_front o) (occupied_key o)) }
        ensures none { IfNone result (PassesNone (CalledAt P.FnMut) p (entries self.old)) }
        ensures* kept { sem 𝓛 (rests_if_none K.row H.row H.Hasher.row K.Hash H.BuildHasher H.Hasher.Hasher self.entry
            result) }
    {
        match self.first_passing(p) {
            Some(place) => Some(OccupiedEntry {
                set: self,
                bucket: place.bucket,
                slot: place.slot,
            }),
            None => None,
        }
    }
}

impl<'a, K: Eq + Hash, H: BuildHasher> OccupiedEntry<'a, K, H> {
    ghost use Rattle.scc_owned_set.specs.SetEntries.{IsNext, RemovesWithNext, occupied_borrow, occupied_key, occupied_front, occupied_back, rests_if_none, rests_removed};

    /// Returns the stored key.
    pub fn get(&self) -> &K
        ensures { result.now ≡ occupied_key self.now }
    {
        let set: &Owned<K, H> = self.set;
        set.key_at(Place {
            bucket: self.bucket,
            slot: self.slot,
        })
    }

    /// Removes the key, and returns it. The array may shrink.
    pub fn remove_entry(self) -> K
        ensures key { result ≡ occupied_key self.entry }
        ensures removed { Holds (occupied_borrow self.entry).now
            (occupied_front self.entry ++ occupied_back self.entry) self.exit.0.now }
        ensures unique { IsUnique K.eq self.exit.0.now }
        ensures array { ShrinksByRule ⊤ (occupied_borrow self.entry).now self.exit.0.now }
    {
        let bucket = self.bucket;
        let slot = self.slot;
        self.set.remove_at(Place { bucket, slot })
    }

    /// Returns the entry that stands next in the set's list, or `None` if this entry is the last. Resizes nothing.
    pub fn next_sync(self) -> Option<OccupiedEntry<'a, K, H>>
        ensures next { IfSome result (IsNext self.entry) }
        ensures last { IfNone result (occupied_back self.entry ≡ []) }
        ensures* kept { sem 𝓛 (rests_if_none K.row H.row H.Hasher.row K.Hash H.BuildHasher H.Hasher.Hasher
            (occupied_borrow self.entry) result) }
    {
        let OccupiedEntry { set, bucket, slot } = self;
        match set.next_place(Place { bucket, slot }) {
            Some(place) => Some(OccupiedEntry {
                set,
                bucket: place.bucket,
                slot: place.slot,
            }),
            None => None,
        }
    }

    /// Removes the key, and returns it with the entry that stood next in the set's list. If the key was the last,
    /// returns it alone, as an `Err`. Resizes nothing.
    pub fn remove_and_sync(self) -> Result<(Removed<K>, OccupiedEntry<'a, K, H>), K>
        ensures removes { RemovesWithNext K.eq self.entry result }
        ensures* kept { sem 𝓛 (rests_removed K.row H.row H.Hasher.row K.Hash H.BuildHasher H.Hasher.Hasher self.entry
            result) }
    {
        let OccupiedEntry { set, bucket, slot } = self;
        let (key, next) = set.take_with_next(Place { bucket, slot });
        match next {
            Some(place) => Ok((
                Removed { key },
                OccupiedEntry {
                    set,
                    bucket: place.bucket,
                    slot: place.slot,
                },
            )),
            None => Err(key),
        }
    }
}
