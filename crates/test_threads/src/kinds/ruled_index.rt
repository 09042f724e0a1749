// The index under a rule.
use super::bodies::{
    asks_all, enters, goes_over_versions, keeps_all, looks_at_versions, removes_on, snaps, steps_on,
};
use super::{Bucketed, Look, MOST, Passing, RuledIndex, Threaded, Visit, Way};
use std::alloc::Global;
use std::sync::Wait;
use test_kit::masked::SAME;

/// Goes from entry to entry.
fn step_on<R: Wait, V: Visit>(rt: &R, index: &RuledIndex, visit: &mut V) -> bool {
    steps_on!(index, rt, visit, key)
}

/// Goes from entry to entry, and removes each.
fn remove_on<R: Wait, V: Visit>(rt: &R, index: &RuledIndex, visit: &mut V) -> bool {
    removes_on!(index, rt, visit, key)
}

fn walk<R: Wait, V: Visit>(rt: &R, index: &RuledIndex, visit: &mut V) -> bool {
    index.iter_sync(rt, |key, _| {
        visit.meet(*key);
        true
    })
}

fn keep<R: Wait, V: Visit>(rt: &R, index: &RuledIndex, visit: &mut V) -> bool {
    keeps_all!(index, rt, visit, _)
}

fn ask<R: Wait, V: Visit>(rt: &R, index: &RuledIndex, visit: &mut V) -> bool {
    asks_all!(index, rt, visit, _)
}

fn snapshot<R: Wait, V: Visit>(rt: &R, index: &RuledIndex, visit: &mut V) -> bool {
    snaps!(index, rt, visit)
}

impl Threaded for RuledIndex {
    fn make(alloc: Global, slots: usize) -> Option<RuledIndex> {
        RuledIndex::with_capacity_and_hasher(alloc, slots, SAME).ok()
    }

    fn add<R: Wait>(&self, rt: &R, key: u64) -> bool {
        self.insert_sync(rt, key, key).is_ok()
    }

    fn rewrite<R: Wait>(&self, rt: &R, key: u64, value: u64) -> bool {
        match self.get_sync(rt, &key) {
            Some(mut entry) => entry.update(value).is_ok(),
            None => false,
        }
    }

    fn take<R: Wait>(&self, rt: &R, key: u64) -> bool {
        self.remove_sync(rt, &key)
    }

    fn go_over<R: Wait, V: Visit>(&self, rt: &R, _alloc: Global, way: Way, visit: &mut V) -> bool {
        goes_over_versions!(self, rt, way, visit)
    }

    fn at_entry<R: Wait, V: Visit>(&self, rt: &R, key: u64, visit: &mut V) -> bool {
        enters!(self.get_sync(rt, &key), visit, key)
    }

    fn at_read<R: Wait, V: Visit>(&self, rt: &R, key: u64, visit: &mut V) -> bool {
        self.read_sync(rt, &key, |key, _| visit.meet(*key))
            .is_some()
    }

    fn look<R: Wait>(&self, rt: &R, alloc: Global, look: Look) -> bool {
        looks_at_versions!(self, rt, alloc, look)
    }

    fn slots<R: Wait>(&self, rt: &R) -> [usize; 3] {
        let range = self.capacity_range();
        [self.capacity(rt), *range.start(), *range.end()]
    }

    fn count<R: Wait>(&self, rt: &R) -> usize {
        self.len(rt)
    }

    fn equals<R: Wait>(&self, rt: &R, other: &RuledIndex) -> bool {
        self.eq_sync(rt, other)
    }

    fn copied<R: Wait>(&self, rt: &R) -> Option<RuledIndex> {
        self.try_clone(rt).ok()
    }

    fn collected<R: Wait>(rt: &R, alloc: Global, pairs: [(u64, u64); 3]) -> Option<RuledIndex> {
        RuledIndex::try_from_iter(rt, alloc, pairs).ok()
    }
}

impl Bucketed for RuledIndex {
    fn bucket<R: Wait>(&self, rt: &R, key: u64) -> usize {
        self.bucket_index(rt, &key)
    }
}
