// Replacements of a key that a set lacks, by two threads at once: each finds the key or inserts it, under one lock.
use crate::expect::expect_eq;
use crate::kinds::{RuledSet, Set, Threaded};
use std::alloc::Global;
use std::process::Abort;
use std::sync::Wait;
use std::thread::{Threads, join};
use test_kit::flags::{Flags, raise, sees};

/// The number of keys.
const KEYS: u64 = 20_000;

/// Keys are multiples of it, so that they spread over all buckets.
const SPREAD: u64 = 0x9E37_79B9_7F4A_7C15;

// A container that replaces a key or inserts it.
trait Replacing: Threaded {
    /// Replaces a key, and returns whether it was missing, or `None` if the call fails.
    fn replace<R: Wait>(&self, rt: &R, key: u64) -> Option<bool>;
}

impl Replacing for Set {
    fn replace<R: Wait>(&self, rt: &R, key: u64) -> Option<bool> {
        let old = self.replace_sync(rt, key).ok()?;
        Some(old.is_none())
    }
}

impl Replacing for RuledSet {
    fn replace<R: Wait>(&self, rt: &R, key: u64) -> Option<bool> {
        let old = self.replace_sync(rt, key).ok()?;
        Some(old.is_none())
    }
}

/// Replaces each key. Returns how many were missing, or `None` if a call fails.
fn replaces<C: Replacing, R: Wait>(rt: &R, set: &C) -> Option<u64> {
    let mut missing = 0u64;
    for key in 0..KEYS {
        if set.replace(rt, key.wrapping_mul(SPREAD))? {
            missing = missing.wrapping_add(1);
        }
    }
    Some(missing)
}

/// Two threads replace each key, and begin together. Returns how many keys were missing, or `None` if a call fails.
fn replaced_by_two<C: Replacing + Drop + Sync, R: Threads + Wait + Sync>(
    rt: &R,
    alloc: Global,
) -> Option<u64> {
    let set = C::make(alloc, 64)?;
    let flags = Flags::new();
    let (one, other) = join(
        rt,
        || {
            raise(&flags.first);
            if sees(&flags.second) {
                replaces(rt, &set)
            } else {
                None
            }
        },
        || {
            raise(&flags.second);
            if sees(&flags.first) {
                replaces(rt, &set)
            } else {
                None
            }
        },
    );
    Some(one?.wrapping_add(other?))
}

#[test]
fn a_missing_key_is_replaced_once(rt: HostRuntime) {
    let found = [
        replaced_by_two::<Set, _>(&rt, rt.alloc()),
        replaced_by_two::<RuledSet, _>(&rt, rt.alloc()),
    ];
    expect_eq(&rt, found, [Some(KEYS); 2]);
}
