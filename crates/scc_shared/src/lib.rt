//! A hash map and a hash index that threads share: a fixed number of stripes, each an owned container behind a lock.
//! What both have is generic in the entry of the table: a pair in a map, a version in an index. An entry may keep a rule:
//! then the container is one under that rule.
#![tactic(auto)]

ghost use Rattle.scc_shared.specs.Stripes.{hasher_of, stripes_of};
ghost use Rattle.scc_stripes.specs.Sizes.{IsBitsAsked};
ghost use Rattle.scc_stripes.specs.Stripes.{stripe_bits};
ghost use Rattle.std.specs.Prelude.{◌≡◌, IfOk};

mod all_stripes;
mod entries;
mod getting;
pub mod index;
pub mod map;
pub mod paired;
pub mod ruled_index;
pub mod ruled_map;
mod sizes;
mod unlocked;

pub use paired::Paired;
use scc_common::{Keyed, MakeError, Shared};
use scc_owned::Owned;
use scc_stripes::Striped;
pub use sizes::Reserve;
use std::alloc::Global;
use std::hash::{BuildHasher, BuildHasherDefault, FoldHasher, Hash};

/// A container of entries with keys that threads share by reference. Each of its stripes is an owned container behind a
/// lock, and a call takes the lock of the stripe of its key.
///
/// A thread that holds an entry and makes a call on the stripe of that entry waits for itself forever.
#[derive(Drop)]
pub struct HashContainer<E: Keyed, H: BuildHasher = BuildHasherDefault<FoldHasher>>
where
    E::Key: Eq + Hash,
{
    stripes: Striped<Owned<E, Shared<H>>, H>,
    alloc: Global,
}

impl<E: Keyed + Drop> HashContainer<E>
where
    E::Key: Eq + Hash,
{
    /// Returns an empty container of 16 stripes without arrays. Fails if memory is refused.
    pub fn new(alloc: Global) -> Result<Self, MakeError>
        ensures stripes { IfOk result (λ m. IsBitsAsked 0 1024 (stripe_bits (stripes_of m))) }
    {
        HashContainer::with_hasher(alloc, BuildHasherDefault::new())
    }

    /// Returns an empty container with at least `capacity` slots in all stripes together, as
    /// `with_capacity_and_hasher` does.
    pub fn with_capacity(alloc: Global, capacity: usize) -> Result<Self, MakeError>
        ensures stripes { IfOk result (λ m. IsBitsAsked capacity 1024 (stripe_bits (stripes_of m))) }
    {
        HashContainer::with_capacity_and_hasher(alloc, capacity, BuildHasherDefault::new())
    }
}

impl<E: Keyed + Drop, H: BuildHasher + Drop> HashContainer<E, H>
where
    E::Key: Eq + Hash,
{
    /// Returns an empty container of 16 stripes without arrays. Fails if memory is refused.
    pub fn with_hasher(alloc: Global, hasher: H) -> Result<Self, MakeError>
        ensures stripes { IfOk result (λ m. IsBitsAsked 0 1024 (stripe_bits (stripes_of m))) }
        ensures hasher { IfOk result (λ m. hasher_of m ≡ hasher) }
    {
        HashContainer::with_capacity_and_hasher(alloc, 0, hasher)
    }

    /// Returns an empty container with at least `capacity` slots in all stripes together. The slots are divided evenly
    /// among the stripes: the greatest number of stripes that gives each stripe 64 slots or more, at most 16. If
    /// `capacity` is 0, there are 16 stripes without arrays. Fails if memory is refused.
    pub fn with_capacity_and_hasher(
        alloc: Global,
        capacity: usize,
        hasher: H,
    ) -> Result<Self, MakeError>
        ensures stripes { IfOk result (λ m. IsBitsAsked capacity 1024 (stripe_bits (stripes_of m))) }
        ensures hasher { IfOk result (λ m. hasher_of m ≡ hasher) }
    {
        let stripes = Striped::with_capacity(alloc, capacity, hasher)?;
        Ok(HashContainer { stripes, alloc })
    }
}
