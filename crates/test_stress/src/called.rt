//! The calls that threads make on each kind of container, and what a tally notes of them.

use crate::counted::{Counted, Counts};
use crate::tally::Tally;
use scc_common::{InsertError, KeyError};
use scc_owned_cache::EvictedEntry;
use scc_shared::index::HashIndex;
use scc_shared::map::HashMap;
use scc_shared_cache::HashCache;
use scc_shared_set::HashSet;
use std::alloc::Global;
use std::sync::{Arc, Wait};

pub type Map = HashMap<u64, Counted>;

pub type Set = HashSet<u64>;

pub type Index = HashIndex<u64, Counted>;

pub type Cache = HashCache<u64, Counted>;

/// A container that threads call.
pub trait Called: Sized {
    /// Returns an empty container, or `None` if memory is refused.
    fn make(alloc: Global) -> Option<Self>;

    /// Makes the call of `kind`, one of eight, on `key`, and notes in `tally` what went in and out.
    fn call<R: Wait>(&self, rt: &R, counts: &Arc<Counts>, kind: u64, key: u64, tally: &mut Tally);

    /// Subtracts every key of the container from `tally`.
    fn settle<R: Wait>(&self, rt: &R, tally: &mut Tally);
}

/// Notes the result of an insertion of `key`.
pub(crate) fn note_pair(
    inserted: Result<(), InsertError<u64, Counted>>,
    key: u64,
    tally: &mut Tally,
) {
    match inserted {
        Ok(()) => tally.add(key),
        Err(InsertError::Exists(_)) => {}
        Err(InsertError::Memory(_)) => tally.refuse(),
    }
}

/// Notes the result of an insertion of `key` into a set.
pub(crate) fn note_key(inserted: Result<(), KeyError<u64>>, key: u64, tally: &mut Tally) {
    match inserted {
        Ok(()) => tally.add(key),
        Err(KeyError::Exists(_)) => {}
        Err(KeyError::Memory(_)) => tally.refuse(),
    }
}

/// Notes that `key` went in, and that another key may have been evicted.
pub(crate) fn note_put(evicted: EvictedEntry<u64, Counted>, key: u64, tally: &mut Tally) {
    tally.add(key);
    if let Some((old, _value)) = evicted {
        tally.subtract(old);
    }
}

/// Inserts the key through its entry, if the entry is vacant.
fn insert_vacant<R: Wait>(rt: &R, map: &Map, counts: &Arc<Counts>, key: u64, tally: &mut Tally) {
    if let scc_owned::map::locked::Entry::Vacant(entry) = map.entry_sync(rt, key) {
        match entry.insert_entry(Counted::new(counts)) {
            Ok(_entry) => tally.add(key),
            Err(_) => tally.refuse(),
        }
    }
}

/// Upserts the key.
fn upsert<R: Wait>(rt: &R, map: &Map, counts: &Arc<Counts>, key: u64, tally: &mut Tally) {
    match map.upsert_sync(rt, key, Counted::new(counts)) {
        Ok(None) => tally.add(key),
        Ok(Some(_)) => {}
        Err(_) => tally.refuse(),
    }
}

/// Removes the key through its entry.
fn remove_occupied<R: Wait>(rt: &R, map: &Map, key: u64, tally: &mut Tally) {
    if let Some(entry) = map.get_sync(rt, &key) {
        let _value = entry.remove();
        tally.subtract(key);
    }
}

impl Called for Map {
    fn make(alloc: Global) -> Option<Map> {
        HashMap::new(alloc).ok()
    }

    fn call<R: Wait>(&self, rt: &R, counts: &Arc<Counts>, kind: u64, key: u64, tally: &mut Tally) {
        match kind {
            0 | 1 => note_pair(self.insert_sync(rt, key, Counted::new(counts)), key, tally),
            2 => upsert(rt, self, counts, key, tally),
            3 => insert_vacant(rt, self, counts, key, tally),
            4 | 5 => {
                if self.remove_sync(rt, &key).is_some() {
                    tally.subtract(key);
                }
            }
            6 => remove_occupied(rt, self, key, tally),
            _ => {
                let _there = self.contains_sync(rt, &key);
            }
        }
    }

    fn settle<R: Wait>(&self, rt: &R, tally: &mut Tally) {
        self.iter_sync(rt, |key, _| {
            tally.subtract(*key);
            true
        });
    }
}

/// Replaces an equal key by `key`, or inserts `key`.
fn replace<R: Wait>(rt: &R, set: &Set, key: u64, tally: &mut Tally) {
    match set.replace_sync(rt, key) {
        Ok(None) => tally.add(key),
        Ok(Some(_)) => {}
        Err(_) => tally.refuse(),
    }
}

impl Called for Set {
    fn make(alloc: Global) -> Option<Set> {
        HashSet::new(alloc).ok()
    }

    fn call<R: Wait>(&self, rt: &R, _counts: &Arc<Counts>, kind: u64, key: u64, tally: &mut Tally) {
        match kind {
            0 | 1 | 2 => note_key(self.insert_sync(rt, key), key, tally),
            3 => replace(rt, self, key, tally),
            4 | 5 | 6 => {
                if self.remove_sync(rt, &key).is_some() {
                    tally.subtract(key);
                }
            }
            _ => {
                let _there = self.contains_sync(rt, &key);
            }
        }
    }

    fn settle<R: Wait>(&self, rt: &R, tally: &mut Tally) {
        self.iter_sync(rt, |key| {
            tally.subtract(*key);
            true
        });
    }
}

/// Inserts the key through its entry, or makes a new version.
fn publish<R: Wait>(rt: &R, index: &Index, counts: &Arc<Counts>, key: u64, tally: &mut Tally) {
    match index.entry_sync(rt, key) {
        scc_owned::index::locked::Entry::Occupied(mut entry) => {
            if entry.update(Counted::new(counts)).is_err() {
                tally.refuse();
            }
        }
        scc_owned::index::locked::Entry::Vacant(entry) => match entry.insert_entry(Counted::new(
            counts,
        )) {
            Ok(_entry) => tally.add(key),
            Err(_) => tally.refuse(),
        },
    }
}

/// Gets the version of the key, and drops it.
fn peek<R: Wait>(rt: &R, index: &Index, key: u64, tally: &mut Tally) {
    match index.peek(rt, &key) {
        Ok(_version) => {}
        Err(_) => tally.refuse(),
    }
}

impl Called for Index {
    fn make(alloc: Global) -> Option<Index> {
        HashIndex::new(alloc).ok()
    }

    fn call<R: Wait>(&self, rt: &R, counts: &Arc<Counts>, kind: u64, key: u64, tally: &mut Tally) {
        match kind {
            0 | 1 => note_pair(self.insert_sync(rt, key, Counted::new(counts)), key, tally),
            2 | 3 => publish(rt, self, counts, key, tally),
            4 | 5 | 6 => {
                if self.remove_sync(rt, &key) {
                    tally.subtract(key);
                }
            }
            _ => peek(rt, self, key, tally),
        }
    }

    fn settle<R: Wait>(&self, rt: &R, tally: &mut Tally) {
        self.iter_sync(rt, |key, _| {
            tally.subtract(*key);
            true
        });
    }
}

/// Puts the key.
fn put<R: Wait>(rt: &R, cache: &Cache, counts: &Arc<Counts>, key: u64, tally: &mut Tally) {
    match cache.put_sync(rt, key, Counted::new(counts)) {
        Ok(evicted) => note_put(evicted, key, tally),
        Err(InsertError::Exists(_)) => {}
        Err(InsertError::Memory(_)) => tally.refuse(),
    }
}

/// Puts the key through its entry, if the entry is vacant.
fn put_vacant<R: Wait>(rt: &R, cache: &Cache, counts: &Arc<Counts>, key: u64, tally: &mut Tally) {
    if let scc_owned_cache::locked::Entry::Vacant(entry) = cache.entry_sync(rt, key) {
        match entry.put_entry(Counted::new(counts)) {
            Ok((evicted, _entry)) => note_put(evicted, key, tally),
            Err(_) => tally.refuse(),
        }
    }
}

impl Called for Cache {
    fn make(alloc: Global) -> Option<Cache> {
        HashCache::new(alloc).ok()
    }

    fn call<R: Wait>(&self, rt: &R, counts: &Arc<Counts>, kind: u64, key: u64, tally: &mut Tally) {
        match kind {
            0 | 1 | 2 => put(rt, self, counts, key, tally),
            3 | 4 => put_vacant(rt, self, counts, key, tally),
            5 | 6 => {
                if self.remove_sync(rt, &key).is_some() {
                    tally.subtract(key);
                }
            }
            _ => {
                let _there = self.contains_sync(rt, &key);
            }
        }
    }

    fn settle<R: Wait>(&self, rt: &R, tally: &mut Tally) {
        self.iter_sync(rt, |key, _| {
            tally.subtract(*key);
            true
        });
    }
}
