// The map.
use super::bodies::{
    asks_all, enters, goes_over, keeps_all, looks, removes_on, steps_on, takes_none,
};
use super::{Bucketed, Look, MOST, Map, Passing, Threaded, Visit, Way};
use scc_common::Verdict;
use std::alloc::Global;
use std::sync::Wait;
use test_kit::masked::SAME;

/// Goes from entry to entry.
fn step_on<R: Wait, V: Visit>(rt: &R, map: &Map, visit: &mut V) -> bool {
    steps_on!(map, rt, visit, key)
}

/// Goes from entry to entry, and removes each.
fn remove_on<R: Wait, V: Visit>(rt: &R, map: &Map, visit: &mut V) -> bool {
    removes_on!(map, rt, visit, key, 1)
}

fn walk<R: Wait, V: Visit>(rt: &R, map: &Map, visit: &mut V) -> bool {
    map.iter_sync(rt, |key, _| {
        visit.meet(*key);
        true
    })
}

fn keep<R: Wait, V: Visit>(rt: &R, map: &Map, visit: &mut V) -> bool {
    keeps_all!(map, rt, visit, _)
}

fn take<R: Wait, V: Visit>(rt: &R, alloc: Global, map: &Map, visit: &mut V) -> bool {
    takes_none!(map, rt, visit, Vec::<(u64, u64)>::new(alloc), _)
}

fn ask<R: Wait, V: Visit>(rt: &R, map: &Map, visit: &mut V) -> bool {
    asks_all!(map, rt, visit, _)
}

impl Threaded for Map {
    fn make(alloc: Global, slots: usize) -> Option<Map> {
        Map::with_capacity_and_hasher(alloc, slots, SAME).ok()
    }

    fn add<R: Wait>(&self, rt: &R, key: u64) -> bool {
        self.insert_sync(rt, key, key).is_ok()
    }

    fn rewrite<R: Wait>(&self, rt: &R, key: u64, value: u64) -> bool {
        self.update_sync(rt, &key, |_, old| *old = value).is_some()
    }

    fn take<R: Wait>(&self, rt: &R, key: u64) -> bool {
        self.remove_sync(rt, &key).is_some()
    }

    fn go_over<R: Wait, V: Visit>(&self, rt: &R, alloc: Global, way: Way, visit: &mut V) -> bool {
        goes_over!(self, rt, alloc, way, visit)
    }

    fn at_entry<R: Wait, V: Visit>(&self, rt: &R, key: u64, visit: &mut V) -> bool {
        enters!(self.get_sync(rt, &key), visit, key)
    }

    fn at_read<R: Wait, V: Visit>(&self, rt: &R, key: u64, visit: &mut V) -> bool {
        self.read_sync(rt, &key, |key, _| visit.meet(*key))
            .is_some()
    }

    fn look<R: Wait>(&self, rt: &R, alloc: Global, look: Look) -> bool {
        looks!(self, rt, alloc, look)
    }

    fn slots<R: Wait>(&self, rt: &R) -> [usize; 3] {
        let range = self.capacity_range();
        [self.capacity(rt), *range.start(), *range.end()]
    }

    fn count<R: Wait>(&self, rt: &R) -> usize {
        self.len(rt)
    }

    fn equals<R: Wait>(&self, rt: &R, other: &Map) -> bool {
        self.eq_sync(rt, other)
    }

    fn copied<R: Wait>(&self, rt: &R) -> Option<Map> {
        self.try_clone(rt).ok()
    }

    fn collected<R: Wait>(rt: &R, alloc: Global, pairs: [(u64, u64); 3]) -> Option<Map> {
        Map::try_from_iter(rt, alloc, pairs).ok()
    }
}

impl Bucketed for Map {
    fn bucket<R: Wait>(&self, rt: &R, key: u64) -> usize {
        self.bucket_index(rt, &key)
    }
}
