//! The moves of the entries of one bucket of the new array out of the old one.
ghost use Rattle.scc_array.specs.Shelf.{empty_shelf, shelf_entries};
ghost use Rattle.scc_array.specs.Shelves.{shelf_of};
ghost use Rattle.scc_array.specs.Sifts.{raised};
ghost use Rattle.scc_buckets.specs.Pour.{IsPacked, destined_for};
ghost use Rattle.scc_buckets.specs.Tables.{overflow_in};
ghost use Rattle.scc_common.specs.Contents.{bucket_count, hash_in, list_of, lists_of, settings_of, overflow_of};
ghost use Rattle.scc_common.specs.Routing.{bucket_number};
ghost use Rattle.scc_common.specs.Sizes.{IsBucketCount};
ghost use Rattle.scc_draining.specs.Moves.{AreMultiples, AreOwn, AreSiblings, Drains, IsDrainable, IsPullable, IsWithinSources, Pulls};
ghost use Rattle.scc_draining.specs.Filling.{Fills, MovesTarget};
ghost use Rattle.std.specs.List.{flat_map, IsDistinct};
ghost use Rattle.std.specs.Prelude.{◌≡◌, ◌==◌, ◌<◌, ◌≤◌, ◌+◌, ◌^◌, ◌*◌, ◌⊎◌, ℕ, [], length, map, take, false, slice_get, slice_index_or, slice_set, Some, IsTrue, OnOk, OnErr};

use scc_array::Array;
use scc_buckets::place::tag;
use scc_buckets::{Buckets, Router, overflow_room};
use scc_common::{Hashes, Keyed};
use std::alloc::AllocError;

/// One relocation: the entries that belong to the bucket `target` of the new array, which has `count` buckets, stand in
/// the old buckets from `first` up to before `last`. If `whole`, these old buckets hold no other entries.
#[derive(Clone, Copy)]
pub struct Relocation {
    pub target: usize,
    pub count: usize,
    pub first: usize,
    pub last: usize,
    pub whole: bool,
}

impl Relocation {
    /// Sets the flag of each slot of the old bucket `source` to 1 if its entry belongs to the target, or else to 0.
    #[inline(always)]
    fn flags_of<E: Keyed, H: Hashes<E::Key>>(
        &self,
        router: &Router<H>,
        old: &Array<E>,
        source: usize,
        flags: &mut [u8; 32],
    )
    where
        E::Key: Eq,
        requires { source < length old.now }
        ensures { (j : ℕ) (e : E) → slice_get (shelf_of old.now source).slots j ≡ Some e
            → slice_get (raised flags.new) j ≡ Some (bucket_number router.now.skipped self.now.count
            (H.hash_of router.now.hasher (E.key_of e)) == self.now.target) }
    {
        let slots = old.slot_count(source);
        for slot in 0..slots {
            let hash = router.hash(old.entry_of(source, slot, slots).key());
            flags[slot] = (router.bucket(hash, self.count) == self.target) as u8;
        }
    }

    /// As `pull`, but moves entry by entry: for an old bucket with entries in its overflow list, and for a target whose
    /// free slots may not suffice.
    #[cold]
    fn pull_each<E: Keyed, H: Hashes<E::Key>>(
        &self,
        router: &Router<H>,
        old: &mut Array<E>,
        into: &mut Array<E>,
        source: usize,
    )
    where
        E::Key: Eq,
        requires { IsPullable (λ e. H.hash_of router.now.hasher (E.key_of e))
            router.now.skipped self.now.count self.now.target source old.old into.old }
        ensures pulls { Pulls (λ e. H.hash_of router.now.hasher (E.key_of e))
            router.now.skipped self.now.count self.now.target source old.old (shelf_of into.old self.now.target)
            old.new (shelf_of into.new self.now.target) }
        ensures others { into.new ≡ slice_set into.old self.now.target (shelf_of into.new self.now.target) }
    {
        let entry_count = old.bucket_len(source);
        let mut slot = 0;
        for seen in 0..entry_count {
            let hash = router.hash(old.entry_at(source, slot).key());
            if router.bucket(hash, self.count) == self.target {
                let entry = old.remove_at(source, slot);
                into.insert_in_room(self.target, entry, tag(hash));
            } else {
                slot += 1;
            }
        }
    }

    /// Moves the entries of the old bucket `source` that belong to the target to the end of the target, in order. The
    /// target must have room for them, so nothing is allocated. The others keep their order. If `whole`, the old bucket
    /// holds no others, and its entries aren't hashed unless `pull_each` moves them.
    fn pull<E: Keyed, H: Hashes<E::Key>>(
        &self,
        router: &Router<H>,
        old: &mut Array<E>,
        into: &mut Array<E>,
        source: usize,
    )
    where
        E::Key: Eq,
        requires pullable { IsPullable (λ e. H.hash_of router.now.hasher (E.key_of e))
            router.now.skipped self.now.count self.now.target source old.old into.old }
        requires joined { IsTrue self.now.whole → destined_for (λ e. H.hash_of router.now.hasher (E.key_of e))
            router.now.skipped self.now.count self.now.target (shelf_entries (shelf_of old.old source))
            ≡ shelf_entries (shelf_of old.old source) }
        ensures pulls { Pulls (λ e. H.hash_of router.now.hasher (E.key_of e))
            router.now.skipped self.now.count self.now.target source old.old (shelf_of into.old self.now.target)
            old.new (shelf_of into.new self.now.target) }
        ensures others { into.new ≡ slice_set into.old self.now.target (shelf_of into.new self.now.target) }
    {
        if old.bucket_len(source) == 0 {
            return;
        }
        if old.overflow_len(source) == 0
            && into.slot_count(self.target) + old.slot_count(source) <= 32
        {
            if self.whole {
                old.pour(source, into, self.target);
                return;
            }
            let mut flags = [0u8; 32];
            self.flags_of(router, old, source, &mut flags);
            old.split(source, &flags, into, self.target);
            return;
        }
        self.pull_each(router, old, into, source);
    }

    /// Moves the entries of all old buckets that belong to the target to the end of the target, in order. The target
    /// must have room for them. The others keep their order.
    fn drain<E: Keyed, H: Hashes<E::Key>>(
        &self,
        router: &Router<H>,
        old: &mut Array<E>,
        into: &mut Array<E>,
    )
    where
        E::Key: Eq,
        requires drainable { IsDrainable (λ e. H.hash_of router.now.hasher (E.key_of e))
            router.now.skipped self.now.count self.now.target self.now.first self.now.last self.now.whole old.old }
        requires target { self.now.target < length into.old }
        requires packed { IsPacked (λ e. H.hash_of router.now.hasher (E.key_of e))
            (shelf_of into.old self.now.target) }
        requires room { length (shelf_entries (shelf_of into.old self.now.target)) + length (destined_for
            (λ e. H.hash_of router.now.hasher (E.key_of e))
            router.now.skipped self.now.count self.now.target (flat_map shelf_entries old.old))
            ≤ 32 + (shelf_of into.old self.now.target).room }
        ensures drains { Drains (λ e. H.hash_of router.now.hasher (E.key_of e))
            router.now.skipped self.now.count self.now.target old.old (shelf_of into.old self.now.target) old.new
            (shelf_of into.new self.now.target) }
        ensures others { into.new ≡ slice_set into.old self.now.target (shelf_of into.new self.now.target) }
    {
        for source in self.first..self.last {
            self.pull(router, old, into, source);
        }
    }

    /// Moves the entries of all old buckets that belong to the target into the target, in order. The target must be
    /// empty, and the entries at most `coming`. Fails if memory is refused, or if more than `left` of `coming` entries
    /// would stand in the overflow list; then all entries stay.
    fn fill<E: Keyed, H: Hashes<E::Key>>(
        &self,
        router: &Router<H>,
        old: &mut Array<E>,
        into: &mut Array<E>,
        coming: usize,
        left: usize,
    ) -> Result<(), AllocError>
    where
        E::Key: Eq,
        requires drainable { IsDrainable (λ e. H.hash_of router.now.hasher (E.key_of e))
            router.now.skipped self.now.count self.now.target self.now.first self.now.last self.now.whole old.old }
        requires target { self.now.target < length into.old }
        requires empty { shelf_of into.old self.now.target
            ≡ record empty_shelf { room = (shelf_of into.old self.now.target).room } }
        requires coming { length (destined_for (λ e. H.hash_of router.now.hasher (E.key_of e))
            router.now.skipped self.now.count self.now.target (flat_map shelf_entries old.old)) ≤ coming }
        ensures { Fills (λ e. H.hash_of router.now.hasher (E.key_of e))
            router.now.skipped self.now.count self.now.target coming left into.old old.old result into.new old.new }
    {
        make_room_for(into, self.target, coming, left)?;
        self.drain(router, old, into);
        Ok(())
    }

    /// Moves the entries of all old buckets that belong to the target into this bucket of `current`, in order, and
    /// returns their number. The bucket must be empty, and the entries at most `coming`. `aside` entries count as if
    /// they stood in overflow lists of `current`. Fails if memory is refused, or if the overflow lists would hold too
    /// many entries; then all stays.
    fn move_in<E: Keyed, H: Hashes<E::Key>>(
        &self,
        current: &mut Buckets<E, H>,
        old: &mut Array<E>,
        coming: usize,
        aside: usize,
    ) -> Result<usize, AllocError>
    where
        E::Key: Eq,
        requires drainable { IsDrainable (λ e. hash_in H.hash_of current.old (E.key_of e))
            (settings_of current.old).skipped (bucket_count current.old) self.now.target self.now.first self.now.last
            self.now.whole old.old }
        requires count { self.now.count ≡ bucket_count current.old }
        requires target { self.now.target < bucket_count current.old }
        requires bare { list_of current.old self.now.target ≡ [] }
        requires coming { length (destined_for (λ e. hash_in H.hash_of current.old (E.key_of e))
            (settings_of current.old).skipped (bucket_count current.old) self.now.target (flat_map shelf_entries old.old))
            ≤ coming }
        requires aside { overflow_of current.old + aside < 2 ^ 62 }
        requires unique { IsDistinct E.Key.eq (map E.key_of (flat_map (λ l. l) (slice_set (lists_of current.old)
            self.now.target (destined_for (λ e. hash_in H.hash_of current.old (E.key_of e))
            (settings_of current.old).skipped (bucket_count current.old) self.now.target
            (flat_map shelf_entries old.old))))) }
        ensures { MovesTarget (λ e. hash_in H.hash_of current.old (E.key_of e))
            self.now.target coming aside current.old old.old result current.new old.new }
    {
        let left = overflow_room(current.overflow_len() + aside);
        let fill = |router: &Router<H>, into: &mut Array<E>, from: &mut Array<E>| -> Result<
            (),
            AllocError,
        >
            requires drainable { IsDrainable (λ e. H.hash_of router.now.hasher (E.key_of e))
                router.now.skipped self.now.count self.now.target self.now.first self.now.last self.now.whole from.old }
            requires target { self.now.target < length into.old }
            requires empty { shelf_of into.old self.now.target
                ≡ record empty_shelf { room = (shelf_of into.old self.now.target).room } }
            requires coming { length (destined_for (λ e. H.hash_of router.now.hasher (E.key_of e))
                router.now.skipped self.now.count self.now.target (flat_map shelf_entries from.old)) ≤ coming }
            ensures { Fills (λ e. H.hash_of router.now.hasher (E.key_of e)) router.now.skipped
                self.entry.now.count self.entry.now.target coming left into.old from.old result into.new from.new }
        { self.fill(router, from, into, coming, left) };
        let (filled, moved) = current.fill_by(self.target, old, fill);
        match filled {
            Ok(()) => Ok(moved),
            Err(e) => Err(e),
        }
    }

    /// Returns how many entries of the old bucket `source` belong to the target.
    fn count_in<E: Keyed, H: Hashes<E::Key>>(
        &self,
        router: &Router<H>,
        old: &Array<E>,
        source: usize,
    ) -> usize
    where
        E::Key: Eq,
        requires source { source < length old.now }
        requires few { length (shelf_entries (shelf_of old.now source)) < 2 ^ 63 }
        ensures { result ≡ length (destined_for (λ e. H.hash_of router.now.hasher (E.key_of e))
            router.now.skipped self.now.count self.now.target (shelf_entries (shelf_of old.now source))) }
    {
        let entry_count = old.bucket_len(source);
        let mut found = 0;
        for slot in 0..entry_count {
            let hash = router.hash(old.entry_at(source, slot).key());
            if router.bucket(hash, self.count) == self.target {
                found += 1;
            }
        }
        found
    }

    /// Returns how many entries of all old buckets belong to the target.
    pub fn count_all<E: Keyed, H: Hashes<E::Key>>(
        &self,
        router: &Router<H>,
        old: &Array<E>,
    ) -> usize
    where
        E::Key: Eq,
        requires sources { IsWithinSources (λ e. H.hash_of router.now.hasher (E.key_of e))
            router.now.skipped self.now.count self.now.target self.now.first self.now.last old.now }
        requires few { (j : ℕ) → length (shelf_of old.now j).overflow < 2 ^ 62 }
        requires own { AreOwn (λ e. H.hash_of router.now.hasher (E.key_of e))
            router.now.skipped old.now }
        requires most { length (flat_map shelf_entries old.now) < 2 ^ 64 }
        ensures { result ≡ length (destined_for (λ e. H.hash_of router.now.hasher (E.key_of e))
            router.now.skipped self.now.count self.now.target (flat_map shelf_entries old.now)) }
    {
        let mut found = 0;
        for source in self.first..self.last {
            found += self.count_in(router, old, source);
        }
        found
    }

    /// Returns at least the number of entries of all old buckets that belong to the target. A result greater than 32 is
    /// exact. Hashes no entry if these entries stand in one old bucket of at most 32 entries, or if `whole`.
    fn count_coming<E: Keyed, H: Hashes<E::Key>>(&self, router: &Router<H>, old: &Array<E>) -> usize
    where
        E::Key: Eq,
        requires drainable { IsDrainable (λ e. H.hash_of router.now.hasher (E.key_of e))
            router.now.skipped self.now.count self.now.target self.now.first self.now.last self.now.whole old.now }
        requires most { length (flat_map shelf_entries old.now) < 2 ^ 64 }
        ensures enough { length (destined_for (λ e. H.hash_of router.now.hasher (E.key_of e))
            router.now.skipped self.now.count self.now.target (flat_map shelf_entries old.now)) ≤ result }
        ensures exact { 32 < result → result ≡ length (destined_for
            (λ e. H.hash_of router.now.hasher (E.key_of e))
            router.now.skipped self.now.count self.now.target (flat_map shelf_entries old.now)) }
    {
        if self.last - self.first == 1 && old.bucket_len(self.first) <= 32 {
            return 32;
        }
        if self.whole {
            return len_between(old, self.first, self.last);
        }
        self.count_all(router, old)
    }
}

/// Makes room for `coming` entries in an empty bucket. Fails if memory is refused, or if more than `left` of them would
/// stand in its overflow list.
fn make_room_for<E>(
    into: &mut Array<E>,
    bucket: usize,
    coming: usize,
    left: usize,
) -> Result<(), AllocError>
    requires bucket { bucket < length into.old }
    requires empty { shelf_of into.old bucket ≡ record empty_shelf { room = (shelf_of into.old bucket).room } }
    ensures value { into.new
        ≡ slice_set into.old bucket (record empty_shelf { room = (shelf_of into.new bucket).room }) }
    ensures room { OnOk result (coming ≤ 32 + (shelf_of into.new bucket).room) }
    ensures few { OnOk result (coming ≤ 32 + left) }
    ensures refused { OnErr result (32 < coming) }
{
    if coming <= 32 {
        return Ok(());
    }
    if coming - 32 > left {
        return Err(AllocError);
    }
    into.reserve_overflow(bucket, coming - 32)
}

/// Returns the range of old buckets in which the entries of `target` stand: from the first number up to before the
/// second. If the array shrinks, from `old` buckets to `count`, these old buckets hold no other entries. If it doubles,
/// the range is one old bucket, which two targets share.
pub fn sources(old: usize, count: usize, target: usize) -> (usize, usize)
    requires some { 0 < old }
    requires most { old ≤ 2 ^ 58 }
    requires target { target < count }
    requires multiples { AreMultiples old count }
    ensures order { result.0 ≤ result.1 }
    ensures within { result.1 ≤ old }
    ensures only { (skipped hash : ℕ) → bucket_number skipped count hash ≡ target → (result.0 ≤ bucket_number skipped
        old hash) × (bucket_number skipped old hash < result.1) }
    ensures joined { count < old → (skipped hash : ℕ) → result.0 ≤ bucket_number skipped old hash → bucket_number
        skipped old hash < result.1 → bucket_number skipped count hash ≡ target }
    ensures doubled { count ≡ 2 * old → (result.1 ≡ result.0 + 1) × ((target ≡ 2 * result.0) ⊎ (target ≡ 2 * result.0 +
        1)) }
{
    if count == 2 * old {
        return (target / 2, target / 2 + 1);
    }
    if old <= count {
        let targets = count / old;
        let source = target / targets;
        return (source, source + 1);
    }
    let spread = old / count;
    (target * spread, target * spread + spread)
}

/// Returns the other target that shares the old bucket of `target` when the array doubles.
fn sibling(target: usize) -> usize
    requires { target + 1 < 2 ^ 64 }
    ensures { AreSiblings target result }
{
    if target % 2 == 0 {
        return target + 1;
    }
    target - 1
}

/// Returns whether the old buckets that hold the entries of `target` hold no others. That is so if the array shrinks,
/// or if it doubles and the sibling of `target` doesn't wait.
fn is_whole(old: usize, count: usize, target: usize, waiting: &[bool]) -> bool
    requires most { old ≤ 2 ^ 58 }
    requires target { target < count }
    requires flags { length waiting.now ≡ count }
    ensures { IsTrue result → (count < old) ⊎ ((count ≡ 2 * old) × (k : ℕ) × (AreSiblings target k) × (k < count) ×
        (slice_index_or waiting.now k false ≡ false)) }
{
    if count == 2 * old {
        return !waiting[sibling(target)];
    }
    count < old
}

/// Returns how many entries the old buckets from `first` up to before `last` hold.
fn len_between<E>(old: &Array<E>, first: usize, last: usize) -> usize
    requires order { first ≤ last }
    requires within { last ≤ length old.now }
    requires few { (j : ℕ) → j < length old.now → length (shelf_entries (shelf_of old.now j)) < 2 ^ 63 }
    requires most { length (flat_map shelf_entries old.now) < 2 ^ 64 }
    ensures { length (flat_map shelf_entries (take first old.now)) + result ≡ length (flat_map shelf_entries (take last
        old.now)) }
{
    let mut entry_count = 0;
    for source in first..last {
        entry_count += old.bucket_len(source);
    }
    entry_count
}

/// Moves the entries of all old buckets that belong to `target` into this bucket of `current`, in order, and returns
/// their number. The bucket must be empty. `aside` entries, at least those in the overflow lists of `old`, count as if
/// they stood in overflow lists of `current`. `waiting` must have a flag for each bucket of `current`, and `old` must
/// hold no entry of a bucket whose flag is down. Fails if memory is refused, or if the overflow lists would hold too
/// many entries; then all stays.
pub fn move_target<E: Keyed, H: Hashes<E::Key>>(
    current: &mut Buckets<E, H>,
    old: &mut Array<E>,
    target: usize,
    aside: usize,
    waiting: &[bool],
) -> Result<usize, AllocError>
where
    E::Key: Eq,
    requires target { target < bucket_count current.old }
    requires bare { list_of current.old target ≡ [] }
    requires sized { IsBucketCount (length old.old) }
    requires multiples { AreMultiples (length old.old) (bucket_count current.old) }
    requires own { AreOwn (λ e. hash_in H.hash_of current.old (E.key_of e))
        (settings_of current.old).skipped old.old }
    requires spilled { overflow_in old.old ≤ aside }
    requires aside { overflow_of current.old + aside < 2 ^ 62 }
    requires flags { length waiting.now ≡ bucket_count current.old }
    requires not_waiting { (i : ℕ) → i < bucket_count current.old → slice_index_or waiting.now i false ≡ false →
        destined_for (λ e. hash_in H.hash_of current.old (E.key_of e))
        (settings_of current.old).skipped (bucket_count current.old) i (flat_map shelf_entries old.old) ≡ [] }
    requires unique { IsDistinct E.Key.eq (map E.key_of (flat_map (λ l. l) (slice_set (lists_of current.old) target
        (destined_for (λ e. hash_in H.hash_of current.old (E.key_of e))
        (settings_of current.old).skipped (bucket_count current.old) target (flat_map shelf_entries old.old))))) }
    ensures { MovesTarget (λ e. hash_in H.hash_of current.old (E.key_of e)) target
        (length (destined_for (λ e. hash_in H.hash_of current.old (E.key_of e))
        (settings_of current.old).skipped (bucket_count current.old) target (flat_map shelf_entries old.old))) aside
        current.old old.old result current.new old.new }
{
    let before = old.len();
    let count = current.bucket_count();
    let (first, last) = sources(before, count, target);
    let whole = is_whole(before, count, target, waiting);
    let task = Relocation {
        target,
        count,
        first,
        last,
        whole,
    };
    let coming = task.count_coming(current.router(), old);
    task.move_in(current, old, coming, aside)
}
