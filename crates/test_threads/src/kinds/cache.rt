// The cache.
use super::bodies::{enters, keeps_all, looks_in_cache, takes_none};
use super::{Cache, Look, MOST, Passing, Threaded, Visit, Way};
use scc_common::Verdict;
use std::alloc::Global;
use std::sync::Wait;
use test_kit::masked::SAME;

fn walk<R: Wait, V: Visit>(rt: &R, cache: &Cache, visit: &mut V) -> bool {
    cache.iter_sync(rt, |key, _| {
        visit.meet(*key);
        true
    })
}

fn keep<R: Wait, V: Visit>(rt: &R, cache: &Cache, visit: &mut V) -> bool {
    keeps_all!(cache, rt, visit, _)
}

fn take<R: Wait, V: Visit>(rt: &R, alloc: Global, cache: &Cache, visit: &mut V) -> bool {
    takes_none!(cache, rt, visit, Vec::<(u64, u64)>::new(alloc), _)
}

impl Threaded for Cache {
    fn make(alloc: Global, slots: usize) -> Option<Cache> {
        Cache::with_capacity_and_hasher(alloc, slots, MOST, SAME).ok()
    }

    fn add<R: Wait>(&self, rt: &R, key: u64) -> bool {
        matches!(self.put_sync(rt, key, key), Ok(None))
    }

    fn rewrite<R: Wait>(&self, rt: &R, key: u64, value: u64) -> bool {
        match self.get_sync(rt, &key) {
            Some(mut entry) => {
                let _old = entry.put(value);
                true
            }
            None => false,
        }
    }

    fn take<R: Wait>(&self, rt: &R, key: u64) -> bool {
        self.remove_sync(rt, &key).is_some()
    }

    fn go_over<R: Wait, V: Visit>(&self, rt: &R, alloc: Global, way: Way, visit: &mut V) -> bool {
        match way {
            Way::Keep => keep(rt, self, visit),
            Way::Take => take(rt, alloc, self, visit),
            _ => walk(rt, self, visit),
        }
    }

    fn at_entry<R: Wait, V: Visit>(&self, rt: &R, key: u64, visit: &mut V) -> bool {
        enters!(self.get_sync(rt, &key), visit, key)
    }

    fn at_read<R: Wait, V: Visit>(&self, rt: &R, key: u64, visit: &mut V) -> bool {
        self.read_sync(rt, &key, |key, _| visit.meet(*key))
            .is_some()
    }

    fn look<R: Wait>(&self, rt: &R, alloc: Global, look: Look) -> bool {
        looks_in_cache!(self, rt, alloc, look)
    }

    fn slots<R: Wait>(&self, rt: &R) -> [usize; 3] {
        let range = self.capacity_range();
        [self.capacity(rt), *range.start(), *range.end()]
    }

    fn count<R: Wait>(&self, rt: &R) -> usize {
        self.len(rt)
    }

    fn equals<R: Wait>(&self, rt: &R, other: &Cache) -> bool {
        self.eq_sync(rt, other)
    }

    fn copied<R: Wait>(&self, _rt: &R) -> Option<Cache> {
        None
    }

    fn collected<R: Wait>(rt: &R, alloc: Global, pairs: [(u64, u64); 3]) -> Option<Cache> {
        Cache::try_from_iter(rt, alloc, pairs).ok()
    }
}
