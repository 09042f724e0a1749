//! How an empty container is made.
ghost use Rattle.scc_common.specs.Contents.{settings_of};
ghost use Rattle.scc_table.specs.Making.{IsNew, MakesEmpty};
ghost use Rattle.std.specs.Arc.{arc_value};
ghost use Rattle.std.specs.Prelude.{◌≡◌, ◌≤◌};

use crate::Owned;
use scc_common::{Keyed, MakeError, Shared};
use scc_table::Table;
use std::alloc::Global;
use std::hash::{BuildHasher, BuildHasherDefault, Hash};
use std::sync::Arc;

impl<E: Keyed> Owned<E>
where
    E::Key: Eq + Hash,
{
    /// Returns an empty container without an array. Allocates nothing.
    pub fn new(alloc: Global) -> Self
        ensures { IsNew (settings_of result).hasher result }
    {
        Owned::with_hasher(alloc, BuildHasherDefault::new())
    }

    /// Returns an empty container with an array for at least `capacity` pairs at one a slot, by the rules of
    /// `with_capacity_and_hasher`.
    pub fn with_capacity(alloc: Global, capacity: usize) -> Result<Self, MakeError>
        ensures { MakesEmpty (λ m. (settings_of m).hasher) 0 capacity result }
    {
        Owned::with_capacity_and_hasher(alloc, capacity, BuildHasherDefault::new())
    }
}

impl<E: Keyed, H: BuildHasher> Owned<E, Shared<H>>
where
    E::Key: Eq + Hash,
{
    /// Returns an empty container that skips `skipped` bits of each hash and shares `hasher` with the other parts.
    /// Otherwise as `with_capacity_and_hasher`.
    pub fn part(
        alloc: Global,
        skipped: u32,
        capacity: usize,
        hasher: Arc<H>,
    ) -> Result<Self, MakeError>
    where
        H: Drop,
        requires { skipped ≤ 4 }
        ensures { MakesEmpty (λ _. arc_value hasher) skipped capacity result }
    {
        Owned::skipping(alloc, skipped, capacity, Shared::new(hasher))
    }
}

impl<E: Keyed, H: BuildHasher> Owned<E, H>
where
    E::Key: Eq + Hash,
{
    /// Makes a container of a table.
    #[inline(always)]
    pub(crate) fn over(table: Table<E, H>) -> Self
        ensures table { result ≡ table }
    {
        Owned { table }
    }

    /// Returns an empty container without an array. Allocates nothing.
    pub fn with_hasher(alloc: Global, hasher: H) -> Self
        ensures { IsNew hasher result }
    {
        Owned::over(Table::new(alloc, 0, hasher))
    }

    /// Returns an empty container with an array of the least power of two of slots that is at least `capacity` and at least
    /// 64, or without an array if `capacity` is 0. These slots are the container's minimum. Fails if an array of that size
    /// can't be allocated.
    pub fn with_capacity_and_hasher(
        alloc: Global,
        capacity: usize,
        hasher: H,
    ) -> Result<Self, MakeError>
    where
        H: Drop,
        ensures { MakesEmpty (λ _. hasher) 0 capacity result }
    {
        match Table::with_capacity(alloc, 0, capacity, hasher) {
            Ok(table) => Ok(Owned::over(table)),
            Err(e) => Err(e),
        }
    }

    /// Makes what `with_capacity_and_hasher` makes, but skips `skipped` bits of each hash.
    pub fn skipping(
        alloc: Global,
        skipped: u32,
        capacity: usize,
        hasher: H,
    ) -> Result<Self, MakeError>
    where
        H: Drop,
        requires { skipped ≤ 4 }
        ensures { MakesEmpty (λ _. hasher) skipped capacity result }
    {
        match Table::with_capacity(alloc, skipped, capacity, hasher) {
            Ok(table) => Ok(Owned::over(table)),
            Err(e) => Err(e),
        }
    }
}
