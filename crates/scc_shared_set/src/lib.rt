//! A hash set that threads share, over the hash map that threads share. What a set and a set under a rule of its keys have
//! in common is generic in the entry of the map.
#![tactic(auto)]

ghost use Rattle.scc_shared_set.specs.Stripes.{hasher_of, stripes_of};
ghost use Rattle.scc_stripes.specs.Sizes.{IsBitsAsked};
ghost use Rattle.scc_stripes.specs.Stripes.{stripe_bits};
ghost use Rattle.std.specs.Prelude.{◌≡◌, IfOk};

mod all_stripes;
mod calls;
mod entries;
pub mod ruled;
mod sizes;
mod walks;

pub use entries::{HeldKey, OccupiedEntry};
pub use ruled::RuledSet;
use scc_common::{Keyed, MakeError};
use scc_shared::HashContainer;
use std::alloc::Global;
use std::hash::{BuildHasher, BuildHasherDefault, FoldHasher, Hash};

/// Slots that are reserved in a set until this token is dropped. The drop waits for no lock.
pub type Reserve<'h, K, H = BuildHasherDefault<FoldHasher>> = scc_shared::map::Reserve<
    'h,
    K,
    (),
    H,
>;

/// A set of keys that threads share by reference. It is a map with unit values: each of its stripes is an owned map
/// behind a lock, and a call takes the lock of the stripe of its key. `E` is the entry of that map: a pair, or a pair that
/// keeps a rule.
///
/// A thread that holds an entry and makes a call on the stripe of that entry waits for itself forever.
#[derive(Drop)]
pub struct KeySet<E: Keyed, H: BuildHasher = BuildHasherDefault<FoldHasher>>
where
    E::Key: Eq + Hash,
{
    pub(crate) map: HashContainer<E, H>,
}

/// A set of keys that threads share by reference.
pub type HashSet<K, H = BuildHasherDefault<FoldHasher>> = KeySet<(K, ()), H>;

impl<E: Keyed + Drop> KeySet<E>
where
    E::Key: Eq + Hash,
{
    /// Returns an empty set of 16 stripes without arrays. Fails if memory is refused.
    pub fn new(alloc: Global) -> Result<Self, MakeError>
        ensures stripes { IfOk result (λ s. IsBitsAsked 0 1024 (stripe_bits (stripes_of s))) }
    {
        KeySet::with_hasher(alloc, BuildHasherDefault::new())
    }

    /// Returns an empty set with at least `capacity` slots in all stripes together, as `with_capacity_and_hasher`
    /// does.
    pub fn with_capacity(alloc: Global, capacity: usize) -> Result<Self, MakeError>
        ensures stripes { IfOk result (λ s. IsBitsAsked capacity 1024 (stripe_bits (stripes_of s))) }
    {
        KeySet::with_capacity_and_hasher(alloc, capacity, BuildHasherDefault::new())
    }
}

impl<E: Keyed + Drop, H: BuildHasher + Drop> KeySet<E, H>
where
    E::Key: Eq + Hash,
{
    /// Returns an empty set of 16 stripes without arrays. Fails if memory is refused.
    pub fn with_hasher(alloc: Global, hasher: H) -> Result<Self, MakeError>
        ensures stripes { IfOk result (λ s. IsBitsAsked 0 1024 (stripe_bits (stripes_of s))) }
        ensures hasher { IfOk result (λ s. hasher_of s ≡ hasher) }
    {
        match HashContainer::with_hasher(alloc, hasher) {
            Ok(map) => Ok(KeySet { map }),
            Err(e) => Err(e),
        }
    }

    /// Returns an empty set with at least `capacity` slots in all stripes together. The slots are divided evenly among
    /// the stripes: the greatest number of stripes that gives each stripe 64 slots or more, at most 16. If `capacity`
    /// is 0, there are 16 stripes without arrays. Fails if memory is refused.
    pub fn with_capacity_and_hasher(
        alloc: Global,
        capacity: usize,
        hasher: H,
    ) -> Result<Self, MakeError>
        ensures stripes { IfOk result (λ s. IsBitsAsked capacity 1024 (stripe_bits (stripes_of s))) }
        ensures hasher { IfOk result (λ s. hasher_of s ≡ hasher) }
    {
        match HashContainer::with_capacity_and_hasher(alloc, capacity, hasher) {
            Ok(map) => Ok(KeySet { map }),
            Err(e) => Err(e),
        }
    }
}
