//! A cache as one of several parts. Its minimum is what was asked for at making, and none can reserve more.
ghost use Rattle.scc_owned_cache.specs.Making.{MakesEmptyCache};
ghost use Rattle.std.specs.Arc.{arc_value};
ghost use Rattle.std.specs.Prelude.{◌≤◌, IfOk, Ok};

use crate::Owned;
use scc_common::{MakeError, Rule, Shared};
use scc_stripes::{Follow, Part};
use std::alloc::Global;
use std::hash::{BuildHasher, Hash};
use std::sync::Arc;

impl<K: Eq + Hash, V, H: BuildHasher, R: Rule<K, V>> Follow for Owned<K, V, H, R> {
    fn count(&self) -> usize {
        self.len()
    }

    fn slots(&self) -> usize {
        self.capacity()
    }

    fn follow(&mut self, _share: usize) {}
}

impl<K: Eq + Hash, V, R: Rule<K, V>, H: BuildHasher> Part<H> for Owned<K, V, Shared<H>, R> {
    ghost is_made = { λ skipped slots maximum hasher part. MakesEmptyCache {X = Unit {0}} (λ _. hasher) skipped slots maximum
        (Ok part) };

    fn make_part(
        alloc: Global,
        skipped: u32,
        slots: usize,
        maximum: usize,
        owner: Arc<H>,
    ) -> Result<Self, MakeError>
    where
        H: Drop,
        requires { skipped ≤ 4 }
        ensures { IfOk result (λ part. MakesEmptyCache {X = Unit {0}} (λ _. arc_value owner) skipped slots maximum
            (Ok part)) }
    {
        Owned::part(alloc, skipped, slots, maximum, owner)
    }
}
