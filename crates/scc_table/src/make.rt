//! Makes tables with a current array alone: empty ones, and clones.
ghost use Rattle.scc_buckets.specs.Making.{AreNewBuckets, MakesBuckets};
ghost use Rattle.scc_common.specs.Clones.{HasClones};
ghost use Rattle.scc_common.specs.Contents.{hash_in, lists_of, notes_of, settings_of, overflow_of, waiting_of, IsUniqueBy};
ghost use Rattle.std.specs.Arc.{arc_value};
ghost use Rattle.std.specs.Prelude.{◌≡◌, ◌≤◌, ◌<◌, [], false, IfOk};

use crate::Table;
use scc_array::Array;
use scc_buckets::Buckets;
use scc_common::{Hashes, Keyed, MakeError, Shared};
use scc_draining::{Draining, insert_clones_of};
use std::alloc::Global;
use std::hash::{BuildHasher, Hash};
use std::sync::Arc;

impl<E: Keyed, H: Hashes<E::Key>> Table<E, H>
where
    E::Key: Eq,
{
    /// Makes an empty table without an array, which skips `skipped` bits of each hash. No refused memory is noted, and
    /// no bucket waits. Allocates nothing.
    pub fn new(alloc: Global, skipped: u32, hasher: H) -> Table<E, H>
        requires { skipped ≤ 4 }
        ensures { AreNewBuckets E.key_of (hash_in H.hash_of) hasher skipped
            result }
    {
        Table::over(Buckets::new(alloc, skipped, hasher))
    }

    /// Makes an empty table with an array of the size for `slots`, whose slots are the slots asked for. If `slots` is
    /// 0, there is no array, and nothing is allocated. Fails if memory is refused.
    pub fn with_capacity(
        alloc: Global,
        skipped: u32,
        slots: usize,
        hasher: H,
    ) -> Result<Table<E, H>, MakeError>
    where
        H: Drop,
        requires { skipped ≤ 4 }
        ensures { MakesBuckets E.key_of (hash_in H.hash_of) hasher skipped slots
            result }
    {
        match Buckets::with_capacity(alloc, skipped, slots, hasher) {
            Ok(current) => Ok(Table::over(current)),
            Err(e) => Err(e),
        }
    }

    /// Makes a table of `current`, without an old array.
    pub(crate) fn over(current: Buckets<E, H>) -> Table<E, H>
        ensures lists { lists_of result ≡ lists_of current }
        ensures settings { settings_of result ≡ settings_of current }
        ensures noted { notes_of result ≡ notes_of current }
        ensures spilled { overflow_of result ≡ overflow_of current }
        ensures waiting { waiting_of result ≡ [] }
        ensures unique { IsUniqueBy E.Key.eq E.key_of result }
    {
        let alloc = current.allocator();
        Table {
            current,
            draining: Draining {
                array: Array::none(alloc),
                waiting: Vec::new(alloc),
                pending: 0,
                next: 0,
                left: 0,
                left_overflow: 0,
            },
        }
    }

    /// Returns the allocator of the table.
    pub fn allocator(&self) -> Global {
        self.current.allocator()
    }

    /// Makes a table with clones of all entries, under a clone of the hasher. The copy has the same number of buckets
    /// as `self`, and all its slots count as asked for. No bucket of it waits, and no refused memory is noted. Fails if
    /// memory is refused, if a clone fails, and if the clones of two keys are equal.
    pub fn try_clone(&self) -> Result<Table<E, H>, MakeError>
    where
        E: Clone,
        H: Clone,
        ensures clones { IfOk result (HasClones E.is_clone H.is_clone self.now) }
        ensures noted { IfOk result (λ t. notes_of t ≡ (false, false)) }
        ensures waiting { IfOk result (λ t. waiting_of t ≡ []) }
        ensures unique { IfOk result (IsUniqueBy E.Key.eq E.key_of) }
    {
        let mut copy = self.current.try_clone()?;
        insert_clones_of(&mut copy, &self.draining.array)?;
        Ok(Table::over(copy))
    }
}

impl<E: Keyed, H: BuildHasher> Table<E, Shared<H>>
where
    E::Key: Eq + Hash,
{
    /// As `with_capacity`, but makes a part, which hashes as every other part under `hasher`.
    pub fn part(
        alloc: Global,
        skipped: u32,
        slots: usize,
        hasher: Arc<H>,
    ) -> Result<Table<E, Shared<H>>, MakeError>
    where
        H: Drop,
        requires { skipped ≤ 4 }
        ensures { MakesBuckets E.key_of (hash_in ⟦<H as Hashes<E::Key>>⟧.hash_of) (arc_value hasher)
            skipped slots result }
    {
        Table::with_capacity(alloc, skipped, slots, Shared::new(hasher))
    }
}
