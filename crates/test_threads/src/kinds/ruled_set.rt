// The set under a rule.
use super::bodies::{
    asks_all, enters, goes_over, keeps_all, looks, removes_on, steps_on, takes_none,
};
use super::{Bucketed, Look, MOST, Passing, RuledSet, Threaded, Visit, Way};
use scc_common::Verdict;
use std::alloc::Global;
use std::sync::Wait;
use test_kit::masked::SAME;

/// Goes from entry to entry.
fn step_on<R: Wait, V: Visit>(rt: &R, set: &RuledSet, visit: &mut V) -> bool {
    steps_on!(set, rt, visit, get)
}

/// Goes from entry to entry, and removes each.
fn remove_on<R: Wait, V: Visit>(rt: &R, set: &RuledSet, visit: &mut V) -> bool {
    removes_on!(set, rt, visit, get, 1)
}

fn walk<R: Wait, V: Visit>(rt: &R, set: &RuledSet, visit: &mut V) -> bool {
    set.iter_sync(rt, |key| {
        visit.meet(*key);
        true
    })
}

fn keep<R: Wait, V: Visit>(rt: &R, set: &RuledSet, visit: &mut V) -> bool {
    keeps_all!(set, rt, visit)
}

fn take<R: Wait, V: Visit>(rt: &R, alloc: Global, set: &RuledSet, visit: &mut V) -> bool {
    takes_none!(set, rt, visit, Vec::<u64>::new(alloc))
}

fn ask<R: Wait, V: Visit>(rt: &R, set: &RuledSet, visit: &mut V) -> bool {
    asks_all!(set, rt, visit)
}

impl Threaded for RuledSet {
    fn make(alloc: Global, slots: usize) -> Option<RuledSet> {
        RuledSet::with_capacity_and_hasher(alloc, slots, SAME).ok()
    }

    fn add<R: Wait>(&self, rt: &R, key: u64) -> bool {
        self.insert_sync(rt, key).is_ok()
    }

    fn rewrite<R: Wait>(&self, rt: &R, key: u64, _value: u64) -> bool {
        matches!(self.replace_sync(rt, key), Ok(Some(_)))
    }

    fn take<R: Wait>(&self, rt: &R, key: u64) -> bool {
        self.remove_sync(rt, &key).is_some()
    }

    fn go_over<R: Wait, V: Visit>(&self, rt: &R, alloc: Global, way: Way, visit: &mut V) -> bool {
        goes_over!(self, rt, alloc, way, visit)
    }

    fn at_entry<R: Wait, V: Visit>(&self, rt: &R, key: u64, visit: &mut V) -> bool {
        enters!(self.any_sync(rt, |other| *other == key), visit, get)
    }

    fn at_read<R: Wait, V: Visit>(&self, rt: &R, key: u64, visit: &mut V) -> bool {
        self.read_sync(rt, &key, |key| visit.meet(*key)).is_some()
    }

    fn look<R: Wait>(&self, rt: &R, alloc: Global, look: Look) -> bool {
        looks!(self, rt, alloc, look)
    }

    fn slots<R: Wait>(&self, rt: &R) -> [usize; 3] {
        let range = self.capacity_range();
        [self.capacity(rt), *range.start(), *range.end()]
    }

    fn count<R: Wait>(&self, rt: &R) -> usize {
        self.len(rt)
    }

    fn equals<R: Wait>(&self, rt: &R, other: &RuledSet) -> bool {
        self.eq_sync(rt, other)
    }

    fn copied<R: Wait>(&self, rt: &R) -> Option<RuledSet> {
        self.try_clone(rt).ok()
    }

    fn collected<R: Wait>(rt: &R, alloc: Global, pairs: [(u64, u64); 3]) -> Option<RuledSet> {
        RuledSet::try_from_iter(rt, alloc, [pairs[0].0, pairs[1].0, pairs[2].0]).ok()
    }
}

impl Bucketed for RuledSet {
    fn bucket<R: Wait>(&self, rt: &R, key: u64) -> usize {
        self.bucket_index(rt, &key)
    }
}
