//! Steps from entry to entry of one target in the old array.
ghost use Rattle.scc_array.specs.Shelf.{shelf_entries};
ghost use Rattle.scc_array.specs.Shelves.{shelf_of};
ghost use Rattle.scc_buckets.specs.Pour.{destined_for};
ghost use Rattle.scc_buckets.specs.Tables.{overflow_in};
ghost use Rattle.scc_common.specs.Sizes.{IsBucketCount};
ghost use Rattle.scc_draining.specs.Moves.{AreMultiples, AreOwn};
ghost use Rattle.scc_draining.specs.Stepping.{entries_before, StandsNext};
ghost use Rattle.std.specs.List.{flat_map};
ghost use Rattle.std.specs.Prelude.{◌≡◌, ◌<◌, ◌≤◌, ◌⊎◌, ◌+◌, ◌^◌, ℕ, [], length, take, MatchOption};

use crate::Draining;
use crate::relocate::{Relocation, sources};
use scc_array::Array;
use scc_buckets::Router;
use scc_common::{Hashes, Keyed};

/// Returns `end`, or `first + 1` if that is greater.
fn end_past(end: usize, first: usize) -> usize
    requires { first < 2 ^ 58 }
    ensures least { end ≤ result }
    ensures past { first < result }
    ensures one { (result ≡ end) ⊎ (result ≡ first + 1) }
{
    if first < end { end } else { first + 1 }
}

impl Relocation {
    /// Returns the slot of the first entry of the old bucket `source`, from `slot` on, that belongs to the target, or
    /// `None`.
    fn slot_from<E: Keyed, H: Hashes<E::Key>>(
        &self,
        router: &Router<H>,
        old: &Array<E>,
        source: usize,
        slot: usize,
    ) -> Option<usize>
    where
        E::Key: Eq,
        requires source { source < length old.now }
        requires few { length (shelf_entries (shelf_of old.now source)) < 2 ^ 63 }
        ensures { MatchOption result (destined_for (λ e. H.hash_of router.now.hasher (E.key_of e))
            router.now.skipped self.now.count self.now.target (entries_before old.now source slot)
            ≡ destined_for (λ e. H.hash_of router.now.hasher (E.key_of e))
            router.now.skipped self.now.count self.now.target (flat_map shelf_entries (take (source + 1) old.now)))
            (λ s. StandsNext (λ e. H.hash_of router.now.hasher (E.key_of e))
            router.now.skipped self.now.count self.now.target old.now source slot source s) }
    {
        for place in slot..old.bucket_len(source) {
            let hash = router.hash(old.entry_at(source, place).key());
            if router.bucket(hash, self.count) == self.target {
                return Some(place);
            }
        }
        None
    }

    /// Returns the old bucket and the slot of the first entry that belongs to the target, from `slot` of the first old
    /// bucket on, or `None`.
    pub fn spot_from<E: Keyed, H: Hashes<E::Key>>(
        &self,
        router: &Router<H>,
        old: &Array<E>,
        slot: usize,
    ) -> Option<(usize, usize)>
    where
        E::Key: Eq,
        requires order { self.now.first < self.now.last }
        requires within { self.now.last ≤ length old.now }
        requires few { (j : ℕ) → length (shelf_entries (shelf_of old.now j)) < 2 ^ 63 }
        ensures { MatchOption result (destined_for (λ e. H.hash_of router.now.hasher (E.key_of e))
            router.now.skipped self.now.count self.now.target (entries_before old.now self.now.first slot)
            ≡ destined_for (λ e. H.hash_of router.now.hasher (E.key_of e))
            router.now.skipped self.now.count self.now.target (flat_map shelf_entries (take self.now.last old.now)))
            (λ r. StandsNext (λ e. H.hash_of router.now.hasher (E.key_of e))
            router.now.skipped self.now.count self.now.target old.now self.now.first slot r.0 r.1) }
    {
        if let Some(place) = self.slot_from(router, old, self.first, slot) {
            return Some((self.first, place));
        }
        for source in self.first + 1..self.last {
            if let Some(place) = self.slot_from(router, old, source, 0) {
                return Some((source, place));
            }
        }
        None
    }
}

impl<E: Keyed> Draining<E>
where
    E::Key: Eq,
{
    /// Returns the old bucket and the slot of the first entry that belongs to the bucket `target` of `count`, from
    /// `slot` of the old bucket `source` on, or `None`.
    pub fn spot_from<H: Hashes<E::Key>>(
        &self,
        router: &Router<H>,
        target: usize,
        count: usize,
        source: usize,
        slot: usize,
    ) -> Option<(usize, usize)>
        requires sized { IsBucketCount (length self.now.array) }
        requires target { target < count }
        requires multiples { AreMultiples (length self.now.array) count }
        requires own { AreOwn (λ e. H.hash_of router.now.hasher (E.key_of e))
            router.now.skipped self.now.array }
        requires few { overflow_in self.now.array < 2 ^ 62 }
        requires source { source < length self.now.array }
        ensures { MatchOption result (destined_for (λ e. H.hash_of router.now.hasher (E.key_of e))
            router.now.skipped count target (entries_before self.now.array source slot)
            ≡ destined_for (λ e. H.hash_of router.now.hasher (E.key_of e))
            router.now.skipped count target (flat_map shelf_entries self.now.array))
            (λ r. StandsNext (λ e. H.hash_of router.now.hasher (E.key_of e))
            router.now.skipped count target self.now.array source slot r.0 r.1) }
    {
        let (_, end) = sources(self.array.len(), count, target);
        let rest = Relocation {
            target,
            count,
            first: source,
            last: end_past(end, source),
            whole: false,
        };
        rest.spot_from(router, &self.array, slot)
    }

    /// Returns the old bucket and the slot of the first entry that belongs to the bucket `target` of `count`, or
    /// `None`.
    pub fn first_spot<H: Hashes<E::Key>>(
        &self,
        router: &Router<H>,
        target: usize,
        count: usize,
    ) -> Option<(usize, usize)>
        requires sized { IsBucketCount (length self.now.array) }
        requires target { target < count }
        requires multiples { AreMultiples (length self.now.array) count }
        requires own { AreOwn (λ e. H.hash_of router.now.hasher (E.key_of e))
            router.now.skipped self.now.array }
        requires few { overflow_in self.now.array < 2 ^ 62 }
        ensures { MatchOption result (destined_for (λ e. H.hash_of router.now.hasher (E.key_of e))
            router.now.skipped count target (flat_map shelf_entries self.now.array) ≡ [])
            (λ r. StandsNext (λ e. H.hash_of router.now.hasher (E.key_of e))
            router.now.skipped count target self.now.array 0 0 r.0 r.1) }
    {
        let (first, _) = sources(self.array.len(), count, target);
        if first >= self.array.len() {
            return None;
        }
        self.spot_from(router, target, count, first, 0)
    }
}
