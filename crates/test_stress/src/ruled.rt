//! The calls that threads make on each kind of container under a rule.

use crate::called::{Called, note_key, note_pair, note_put};
use crate::counted::{Counted, Counts};
use crate::tally::Tally;
use scc_common::{Anything, InsertError};
use scc_owned::ruled_index::locked::Entry as IndexEntry;
use scc_owned::ruled_map::locked::Entry as MapEntry;
use scc_shared::ruled_index::RuledIndex;
use scc_shared::ruled_map::RuledMap;
use scc_shared_cache::RuledCache;
use scc_shared_cache::ruled::Entry as CacheEntry;
use scc_shared_set::RuledSet;
use std::alloc::Global;
use std::sync::{Arc, Wait};

pub type Map = RuledMap<u64, Counted, Anything>;

pub type Set = RuledSet<u64, Anything>;

pub type Index = RuledIndex<u64, Counted, Anything>;

pub type Cache = RuledCache<u64, Counted, Anything>;

/// Inserts the key through its entry, if the entry is vacant.
fn insert_vacant<R: Wait>(rt: &R, map: &Map, counts: &Arc<Counts>, key: u64, tally: &mut Tally) {
    if let MapEntry::Vacant(entry) = map.entry_sync(rt, key) {
        match entry.insert_entry(Counted::new(counts)) {
            Ok(_entry) => tally.add(key),
            Err(_) => tally.refuse(),
        }
    }
}

/// Upserts the key.
fn upsert<R: Wait>(rt: &R, map: &Map, counts: &Arc<Counts>, key: u64, tally: &mut Tally) {
    match map.upsert_sync(rt, key, Counted::new(counts)) {
        Ok(None) => tally.add(key),
        Ok(Some(_)) => {}
        Err(_) => tally.refuse(),
    }
}

/// Removes the key through its entry.
fn remove_occupied<R: Wait>(rt: &R, map: &Map, key: u64, tally: &mut Tally) {
    if let Some(entry) = map.get_sync(rt, &key) {
        let _value = entry.remove();
        tally.subtract(key);
    }
}

impl Called for Map {
    fn make(alloc: Global) -> Option<Map> {
        RuledMap::new(alloc).ok()
    }

    fn call<R: Wait>(&self, rt: &R, counts: &Arc<Counts>, kind: u64, key: u64, tally: &mut Tally) {
        match kind {
            0 | 1 => note_pair(self.insert_sync(rt, key, Counted::new(counts)), key, tally),
            2 => upsert(rt, self, counts, key, tally),
            3 => insert_vacant(rt, self, counts, key, tally),
            4 | 5 => {
                if self.remove_sync(rt, &key).is_some() {
                    tally.subtract(key);
                }
            }
            6 => remove_occupied(rt, self, key, tally),
            _ => {
                let _there = self.contains_sync(rt, &key);
            }
        }
    }

    fn settle<R: Wait>(&self, rt: &R, tally: &mut Tally) {
        self.iter_sync(rt, |key, _| {
            tally.subtract(*key);
            true
        });
    }
}

/// Replaces an equal key by `key`, or inserts `key`.
fn replace<R: Wait>(rt: &R, set: &Set, key: u64, tally: &mut Tally) {
    match set.replace_sync(rt, key) {
        Ok(None) => tally.add(key),
        Ok(Some(_)) => {}
        Err(_) => tally.refuse(),
    }
}

impl Called for Set {
    fn make(alloc: Global) -> Option<Set> {
        RuledSet::new(alloc).ok()
    }

    fn call<R: Wait>(&self, rt: &R, _counts: &Arc<Counts>, kind: u64, key: u64, tally: &mut Tally) {
        match kind {
            0 | 1 | 2 => note_key(self.insert_sync(rt, key), key, tally),
            3 => replace(rt, self, key, tally),
            4 | 5 | 6 => {
                if self.remove_sync(rt, &key).is_some() {
                    tally.subtract(key);
                }
            }
            _ => {
                let _there = self.contains_sync(rt, &key);
            }
        }
    }

    fn settle<R: Wait>(&self, rt: &R, tally: &mut Tally) {
        self.iter_sync(rt, |key| {
            tally.subtract(*key);
            true
        });
    }
}

/// Inserts the key through its entry, or makes a new version.
fn publish<R: Wait>(rt: &R, index: &Index, counts: &Arc<Counts>, key: u64, tally: &mut Tally) {
    match index.entry_sync(rt, key) {
        IndexEntry::Occupied(mut entry) => {
            if entry.update(Counted::new(counts)).is_err() {
                tally.refuse();
            }
        }
        IndexEntry::Vacant(entry) => match entry.insert_entry(Counted::new(counts)) {
            Ok(_entry) => tally.add(key),
            Err(_) => tally.refuse(),
        },
    }
}

/// Gets the version of the key, and drops it.
fn peek<R: Wait>(rt: &R, index: &Index, key: u64, tally: &mut Tally) {
    match index.peek(rt, &key) {
        Ok(_version) => {}
        Err(_) => tally.refuse(),
    }
}

impl Called for Index {
    fn make(alloc: Global) -> Option<Index> {
        RuledIndex::new(alloc).ok()
    }

    fn call<R: Wait>(&self, rt: &R, counts: &Arc<Counts>, kind: u64, key: u64, tally: &mut Tally) {
        match kind {
            0 | 1 => note_pair(self.insert_sync(rt, key, Counted::new(counts)), key, tally),
            2 | 3 => publish(rt, self, counts, key, tally),
            4 | 5 | 6 => {
                if self.remove_sync(rt, &key) {
                    tally.subtract(key);
                }
            }
            _ => peek(rt, self, key, tally),
        }
    }

    fn settle<R: Wait>(&self, rt: &R, tally: &mut Tally) {
        self.iter_sync(rt, |key, _| {
            tally.subtract(*key);
            true
        });
    }
}

/// Puts the key.
fn put<R: Wait>(rt: &R, cache: &Cache, counts: &Arc<Counts>, key: u64, tally: &mut Tally) {
    match cache.put_sync(rt, key, Counted::new(counts)) {
        Ok(evicted) => note_put(evicted, key, tally),
        Err(InsertError::Exists(_)) => {}
        Err(InsertError::Memory(_)) => tally.refuse(),
    }
}

/// Puts the key through its entry, if the entry is vacant.
fn put_vacant<R: Wait>(rt: &R, cache: &Cache, counts: &Arc<Counts>, key: u64, tally: &mut Tally) {
    if let CacheEntry::Vacant(entry) = cache.entry_sync(rt, key) {
        match entry.put_entry(Counted::new(counts)) {
            Ok((evicted, _entry)) => note_put(evicted, key, tally),
            Err(_) => tally.refuse(),
        }
    }
}

impl Called for Cache {
    fn make(alloc: Global) -> Option<Cache> {
        RuledCache::new(alloc).ok()
    }

    fn call<R: Wait>(&self, rt: &R, counts: &Arc<Counts>, kind: u64, key: u64, tally: &mut Tally) {
        match kind {
            0 | 1 | 2 => put(rt, self, counts, key, tally),
            3 | 4 => put_vacant(rt, self, counts, key, tally),
            5 | 6 => {
                if self.remove_sync(rt, &key).is_some() {
                    tally.subtract(key);
                }
            }
            _ => {
                let _there = self.contains_sync(rt, &key);
            }
        }
    }

    fn settle<R: Wait>(&self, rt: &R, tally: &mut Tally) {
        self.iter_sync(rt, |key, _| {
            tally.subtract(*key);
            true
        });
    }
}
