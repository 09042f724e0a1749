//! Calls that look a key up, alike for maps and indexes.
ghost use Rattle.scc_common.specs.Contents.{entries, hash_in, IsUniqueBy};
ghost use Rattle.scc_owned.specs.Rooms.{MakesRoom};
ghost use Rattle.scc_table.specs.Places.{IsFoundAt};
ghost use Rattle.std.specs.Prelude.{◌≡◌, ◌↔◌, IfOk, IsTrue, IsSome, MatchOption, None};

use crate::Owned;
use crate::stored::Stored;
use scc_buckets::Place;
use scc_buckets::sizes::GREATEST_CAPACITY;
use scc_common::{Hashes, MakeError};
use std::hash::{BuildHasher, Hash};

impl<E: Stored, H: BuildHasher> Owned<E, H>
where
    E::Key: Eq + Hash,
{
    /// Returns whether a key equals `k`.
    #[inline(always)]
    pub fn contains_sync(&self, k: &E::Key) -> bool
        ensures { IsTrue result ↔ IsSome (E.lookups.find (E.Key.eq k.now) (entries self.now)) }
    {
        let hash = self.table.hash(k);
        match self.table.search(hash, k) {
            Some(_) => true,
            None => false,
        }
    }

    /// Returns whether a key equals `k`, as `contains_sync` does. The search begins with `hint`, the hash of `k` under some hasher. If
    /// the container's own hasher gives the same hash, the entry is there and no bucket waits, `k` isn't hashed again.
    #[inline(always)]
    pub fn contains_by_hint(&self, hint: u64, k: &E::Key) -> bool
        ensures { IsTrue result ↔ IsSome (E.lookups.find (E.Key.eq k.now) (entries self.now)) }
    {
        match self.table.find_by_hint(hint, k) {
            Some(_) => true,
            None => false,
        }
    }

    /// Makes what an insertion of `k` would have to make first, except the entry itself, at most one resize: the first array, or an array of
    /// twice as many buckets if a growth is due; then all buckets wait. If a key equals `k`, nothing is made. A growth
    /// whose memory is refused is noted and marked: the insertion of `k` that follows doesn't try the growth again, so
    /// it makes no resize in any case. A growth that is made takes note and mark away; if no growth is due, both stay.
    /// Fails only if memory for the first array is refused, and then nothing changes.
    pub fn make_room(&mut self, k: &E::Key) -> Result<(), MakeError>
        ensures room { MakesRoom (hash_in ⟦<H as Hashes<E::Key>>⟧.hash_of self.old) E.key_of
            (E.lookups.find (E.Key.eq k.now) (entries self.old)) self.old k.now result self.new }
        ensures unique { IsUniqueBy E.Key.eq E.key_of self.new }
    {
        match self.find_or_make_room(k) {
            Ok(_) => Ok(()),
            Err(e) => Err(e),
        }
    }

    /// Does what `make_room` does, and returns the place of the entry of `k`, or `None`.
    pub fn find_or_make_room(&mut self, k: &E::Key) -> Result<Option<Place>, MakeError>
        ensures room { MakesRoom (hash_in ⟦<H as Hashes<E::Key>>⟧.hash_of self.old) E.key_of
            (E.lookups.find (E.Key.eq k.now) (entries self.old)) self.old k.now result self.new }
        ensures found { IfOk result (λ found. MatchOption found
            (E.lookups.find (E.Key.eq k.now) (entries self.new) ≡ None)
            (IsFoundAt (λ e. E.Key.eq k.now (E.key_of e)) self.new)) }
        ensures unique { IsUniqueBy E.Key.eq E.key_of self.new }
    {
        let hash = self.table.hash(k);
        match self.table.search(hash, k) {
            Some(place) => Ok(Some(place)),
            None => match self.table.prepare(hash, GREATEST_CAPACITY) {
                Ok(()) => Ok(None),
                Err(_) => Err(MakeError),
            },
        }
    }
}
