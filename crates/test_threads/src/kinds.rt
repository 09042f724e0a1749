// The four shared containers and the four under a rule, called by one trait. A key is a number, and its value is the key.
pub(crate) mod bodies;
mod cache;
mod index;
mod map;
mod ruled_cache;
mod ruled_index;
mod ruled_map;
mod ruled_set;
mod set;

use scc_common::Anything;
use scc_shared::index::HashIndex;
use scc_shared::map::HashMap;
use scc_shared_cache::HashCache;
use scc_shared_set::HashSet;
use std::alloc::Global;
use std::sync::Wait;
use test_kit::masked::Masked;

pub type Map = HashMap<u64, u64, Masked>;

pub type Set = HashSet<u64, Masked>;

pub type Index = HashIndex<u64, u64, Masked>;

pub type Cache = HashCache<u64, u64, Masked>;

pub type RuledMap = scc_shared::ruled_map::RuledMap<u64, u64, Anything, Masked>;

pub type RuledSet = scc_shared_set::RuledSet<u64, Anything, Masked>;

pub type RuledIndex = scc_shared::ruled_index::RuledIndex<u64, u64, Anything, Masked>;

pub type RuledCache = scc_shared_cache::RuledCache<u64, u64, Anything, Masked>;

/// The least key of the upper half of all hashes.
pub const HALF: u64 = 1 << 63;

/// The maximum of a cache, and the limit of steps from entry to entry.
pub const MOST: usize = 4096;

/// Receives each key that a walk or an access comes to.
pub trait Visit {
    fn meet(&mut self, key: u64);
}

/// Does nothing at a key.
#[derive(Drop)]
pub struct Passing;

impl Visit for Passing {
    fn meet(&mut self, _key: u64) {}
}

/// A way over all keys. A kind without the way walks instead.
#[derive(Clone, Copy, Debug)]
pub enum Way {
    /// A walk that reads.
    Walk,
    /// A walk that keeps each pair.
    Keep,
    /// A walk that may take pairs out, and takes none.
    Take,
    /// A search whose condition no pair meets.
    Ask,
    /// Steps from entry to entry.
    Next,
    /// Steps from entry to entry that remove each entry.
    Remove,
    /// A walk over a clone.
    Copy,
    /// A snapshot.
    Snapshot,
}

/// A way of reading a container that has the keys 1 and `HALF`. A kind without the call reads a key instead.
#[derive(Clone, Copy, Debug)]
pub enum Look {
    /// Reads a key.
    Read,
    /// Asks whether a key is present.
    Contains,
    /// Walks over all keys.
    Walk,
    /// Counts the keys.
    Count,
    /// Asks whether there is no key.
    Empty,
    /// Compares the container with itself.
    Compare,
    /// Asks for the bucket of a key.
    Bucket,
    /// Asks whether the bucket of a key has room.
    Room,
    /// Takes a version along.
    Peek,
    /// Reads a version in its place.
    PeekWith,
    /// Takes a snapshot.
    Snapshot,
}

/// A shared container.
pub trait Threaded: Sized {
    /// Makes an empty container for `slots` slots, or returns `None` if memory is refused.
    fn make(alloc: Global, slots: usize) -> Option<Self>;

    /// Adds a missing key, and returns whether it was added.
    fn add<R: Wait>(&self, rt: &R, key: u64) -> bool;

    /// Writes `value` to a key, and returns whether the key was present.
    fn rewrite<R: Wait>(&self, rt: &R, key: u64, value: u64) -> bool;

    /// Removes a key, and returns whether it was present.
    fn take<R: Wait>(&self, rt: &R, key: u64) -> bool;

    /// Goes over all keys by `way`, and returns whether it came to their end.
    fn go_over<R: Wait, V: Visit>(&self, rt: &R, alloc: Global, way: Way, visit: &mut V) -> bool;

    /// Holds the entry of a key while `visit` meets the key, and returns whether the key was present.
    fn at_entry<R: Wait, V: Visit>(&self, rt: &R, key: u64, visit: &mut V) -> bool;

    /// Reads a key while `visit` meets the key, and returns whether the key was present.
    fn at_read<R: Wait, V: Visit>(&self, rt: &R, key: u64, visit: &mut V) -> bool;

    /// Reads by `look`, and returns whether the answer is right.
    fn look<R: Wait>(&self, rt: &R, alloc: Global, look: Look) -> bool;

    /// Returns the capacity, the least and the greatest capacity.
    fn slots<R: Wait>(&self, rt: &R) -> [usize; 3];

    /// Returns the number of keys.
    fn count<R: Wait>(&self, rt: &R) -> usize;

    /// Returns whether it has exactly what `other` has.
    fn equals<R: Wait>(&self, rt: &R, other: &Self) -> bool;

    /// Returns a clone, or `None` if memory is refused or the kind has no clones.
    fn copied<R: Wait>(&self, rt: &R) -> Option<Self>;

    /// Makes a container of pairs, or returns `None` if it fails.
    fn collected<R: Wait>(rt: &R, alloc: Global, pairs: [(u64, u64); 3]) -> Option<Self>;
}

/// A container that tells the bucket of a key.
pub trait Bucketed: Threaded {
    /// Returns the bucket of a key.
    fn bucket<R: Wait>(&self, rt: &R, key: u64) -> usize;
}
