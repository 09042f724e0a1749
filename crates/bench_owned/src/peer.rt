//! The calls that the benchmark makes on a map, and the maps that it measures. A set and an index have these calls
//! too.
use bench_kit::arguments::out_of_memory;
use bench_kit::streams::value as value_of;
use scc_owned::map::Owned;
use std::alloc::Global;
use std::collections::HashMap;
use std::io;

/// An owned map of numbers.
pub trait Peer: Drop {
    /// Returns an empty map that asks for no room.
    fn make(alloc: Global) -> Self;

    fn insert(&mut self, key: u64, value: u64) -> io::Result<()>;

    fn get(&self, key: u64) -> Option<u64>;

    /// Adds 1 to the value of a key, and returns whether the key was present.
    fn bump(&mut self, key: u64) -> bool;

    fn remove(&mut self, key: u64) -> bool;

    /// Returns the sum of all values.
    fn sum(&self) -> u64;
}

impl Peer for Owned<u64, u64> {
    fn make(alloc: Global) -> Self {
        Owned::new(alloc)
    }

    #[inline(always)]
    fn insert(&mut self, key: u64, value: u64) -> io::Result<()> {
        match self.insert_sync(key, value) {
            Ok(()) => Ok(()),
            Err(_) => Err(out_of_memory()),
        }
    }

    #[inline(always)]
    fn get(&self, key: u64) -> Option<u64> {
        self.read_sync(&key, |_, value| *value)
    }

    #[inline(always)]
    fn bump(&mut self, key: u64) -> bool {
        self.update_sync(&key, |_, value| *value = value.wrapping_add(1))
            .is_some()
    }

    #[inline(always)]
    fn remove(&mut self, key: u64) -> bool {
        self.remove_sync(&key).is_some()
    }

    fn sum(&self) -> u64 {
        let mut total = 0u64;
        self.iter_sync(|_, value| {
            total = total.wrapping_add(*value);
            true
        });
        total
    }
}

impl Peer for HashMap<u64, u64> {
    fn make(alloc: Global) -> Self {
        HashMap::new(alloc)
    }

    #[inline(always)]
    fn insert(&mut self, key: u64, value: u64) -> io::Result<()> {
        match HashMap::insert(self, key, value) {
            Ok(_) => Ok(()),
            Err(_) => Err(out_of_memory()),
        }
    }

    #[inline(always)]
    fn get(&self, key: u64) -> Option<u64> {
        HashMap::get(self, &key).copied()
    }

    #[inline(always)]
    fn bump(&mut self, key: u64) -> bool {
        match self.get_mut(&key) {
            Some(value) => {
                *value = value.wrapping_add(1);
                true
            }
            None => false,
        }
    }

    #[inline(always)]
    fn remove(&mut self, key: u64) -> bool {
        HashMap::remove(self, &key).is_some()
    }

    fn sum(&self) -> u64 {
        let mut total = 0u64;
        for (_, value) in self.iter() {
            total = total.wrapping_add(*value);
        }
        total
    }
}

/// A set stands for a map in which each key has the value of the streams. A write replaces the key.
impl Peer for scc_owned_set::Owned<u64> {
    fn make(alloc: Global) -> Self {
        scc_owned_set::Owned::new(alloc)
    }

    #[inline(always)]
    fn insert(&mut self, key: u64, _value: u64) -> io::Result<()> {
        match self.insert_sync(key) {
            Ok(()) => Ok(()),
            Err(_) => Err(out_of_memory()),
        }
    }

    #[inline(always)]
    fn get(&self, key: u64) -> Option<u64> {
        self.read_sync(&key, |found| value_of(*found))
    }

    #[inline(always)]
    fn bump(&mut self, key: u64) -> bool {
        match self.replace_sync(key) {
            Ok(old) => old.is_some(),
            Err(_) => false,
        }
    }

    #[inline(always)]
    fn remove(&mut self, key: u64) -> bool {
        self.remove_sync(&key).is_some()
    }

    fn sum(&self) -> u64 {
        let mut total = 0u64;
        self.iter_sync(|key| {
            total = total.wrapping_add(value_of(*key));
            true
        });
        total
    }
}

/// A look-up peeks, and a write publishes a new version.
impl Peer for scc_owned::index::Owned<u64, u64> {
    fn make(alloc: Global) -> Self {
        scc_owned::index::Owned::new(alloc)
    }

    #[inline(always)]
    fn insert(&mut self, key: u64, value: u64) -> io::Result<()> {
        match self.insert_sync(key, value) {
            Ok(()) => Ok(()),
            Err(_) => Err(out_of_memory()),
        }
    }

    #[inline(always)]
    fn get(&self, key: u64) -> Option<u64> {
        self.peek_with(&key, |_, value| *value)
    }

    #[inline(always)]
    fn bump(&mut self, key: u64) -> bool {
        match self.get_sync(&key) {
            Some(mut entry) => {
                let next = entry.get().wrapping_add(1);
                entry.update(next).is_ok()
            }
            None => false,
        }
    }

    #[inline(always)]
    fn remove(&mut self, key: u64) -> bool {
        self.remove_sync(&key)
    }

    fn sum(&self) -> u64 {
        let mut total = 0u64;
        self.iter_sync(|_, value| {
            total = total.wrapping_add(*value);
            true
        });
        total
    }
}
