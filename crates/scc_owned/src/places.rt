//! The calls at a place of a container, alike for maps and indexes.
ghost use Rattle.scc_common.specs.Contents.{entries, hash_in, notes_of, waiting_of, IsUniqueBy};
ghost use Rattle.scc_common.specs.Steps.{HoldsExactly};
ghost use Rattle.scc_owned.specs.Shrinking.{ClearsByRule, TakesWithNextByRule};
ghost use Rattle.scc_table.specs.Places.{IsFoundAt, IsPlace, StandsAt, index_of};
ghost use Rattle.std.specs.List.{position};
ghost use Rattle.std.specs.Prelude.{◌≡◌, [], suc, length, IfErr, IfOk, MatchOption, None, Some, slice_get};

use crate::Owned;
use crate::stored::Stored;
use scc_buckets::Place;
use scc_common::{Hashes, Keyed};
use std::hash::{BuildHasher, Hash};

impl<E: Keyed, H: BuildHasher> Owned<E, H>
where
    E::Key: Eq + Hash,
{
    /// Returns the hash of `k`.
    pub fn hash_of(&self, k: &E::Key) -> u64
        ensures { result ≡ hash_in ⟦<H as Hashes<E::Key>>⟧.hash_of self.now k.now }
    {
        self.table.hash(k)
    }

    /// Returns the place of the entry of `k`, or `None`. `hash` must be the hash of `k`.
    pub(crate) fn search(&self, hash: u64, k: &E::Key) -> Option<Place>
        requires { hash ≡ hash_in ⟦<H as Hashes<E::Key>>⟧.hash_of self.now k.now }
        ensures place { MatchOption result (position (λ e. E.Key.eq k.now (E.key_of e)) (entries self.now) ≡ None)
            (IsFoundAt (λ e. E.Key.eq k.now (E.key_of e)) self.now) }
        ensures unique { IsUniqueBy E.Key.eq E.key_of self.now }
    {
        self.table.search(hash, k)
    }

    /// Returns the place of the entry of `k`, or the hash of `k` if no key equals `k`. The search begins with `hint`, the
    /// hash of `k` under some hasher. If the container's own hasher gives the same hash, the entry is there and no bucket
    /// waits, `k` isn't hashed again.
    #[inline(always)]
    pub(crate) fn search_by_hint(&self, hint: u64, k: &E::Key) -> Result<Place, u64>
        ensures found { IfOk result (IsFoundAt (λ e. E.Key.eq k.now (E.key_of e)) self.now) }
        ensures missed { IfErr result (λ h. (h ≡ hash_in ⟦<H as Hashes<E::Key>>⟧.hash_of self.now k.now)
            × (position (λ e. E.Key.eq k.now (E.key_of e)) (entries self.now) ≡ None)) }
        ensures unique { IsUniqueBy E.Key.eq E.key_of self.now }
    {
        self.table.search_by_hint(hint, k)
    }

    /// Returns the place of the first pair of the list, or `None` if the container is empty.
    pub fn first_place(&self) -> Option<Place>
        ensures place { MatchOption result (entries self.now ≡ []) (StandsAt self.now 0) }
        ensures unique { IsUniqueBy E.Key.eq E.key_of self.now }
    {
        self.table.first_place()
    }

    /// Returns the place after `place`, or `None` if `place` is the last.
    pub fn next_place(&self, place: Place) -> Option<Place>
        requires { IsPlace self.now place }
        ensures place { MatchOption result (suc (index_of self.now place) ≡ length (entries self.now))
            (StandsAt self.now (suc (index_of self.now place))) }
        ensures unique { IsUniqueBy E.Key.eq E.key_of self.now }
    {
        self.table.next_place(place)
    }

    /// Returns the entry at `place`.
    #[inline(always)]
    pub(crate) fn entry_at(&self, place: Place) -> &E
        requires { IsPlace self.now place }
        ensures entry { slice_get (entries self.now) (index_of self.now place) ≡ Some result.now }
        ensures unique { IsUniqueBy E.Key.eq E.key_of self.now }
    {
        self.table.entry_at(place)
    }

    /// Removes the entry at `place` without a resize, and returns it with the place of the entry that followed.
    pub(crate) fn take_entry(&mut self, place: Place) -> (E, Option<Place>)
        requires { IsPlace self.old place }
        ensures { TakesWithNextByRule (IsUniqueBy E.Key.eq E.key_of) self.old place result self.new }
    {
        self.table.take_with_next(place)
    }

    /// Removes all pairs. Then the array may shrink.
    pub fn clear_sync(&mut self)
    where
        E: Drop,
        ensures { ClearsByRule (IsUniqueBy E.Key.eq E.key_of) self.old self.new }
    {
        self.take_all();
        self.table.shrink();
    }

    /// Removes all pairs, without a resize.
    fn take_all(&mut self)
    where
        E: Drop,
        ensures step { HoldsExactly self.old [] self.new }
        ensures noted { notes_of self.new ≡ notes_of self.old }
        ensures waiting { waiting_of self.new ≡ waiting_of self.old }
    {
        let mut at = self.table.first_place();
        while let Some(place) = at {
            let (_entry, next) = self.take_entry(place);
            at = next;
        }
    }
}

impl<E: Stored, H: BuildHasher> Owned<E, H>
where
    E::Key: Eq + Hash,
{
    /// Returns the place of the pair of `k`, or `None`. `hash` must be the hash of `k`.
    pub fn place_of(&self, hash: u64, k: &E::Key) -> Option<Place>
        requires { hash ≡ hash_in ⟦<H as Hashes<E::Key>>⟧.hash_of self.now k.now }
        ensures place { MatchOption result (E.lookups.find (E.Key.eq k.now) (entries self.now) ≡ None)
            (IsFoundAt (λ e. E.Key.eq k.now (E.key_of e)) self.now) }
        ensures unique { IsUniqueBy E.Key.eq E.key_of self.now }
    {
        self.search(hash, k)
    }
}
