// Which calls of a cache under a rule refresh a pair.
use crate::expect::expect_eq;
use scc_common::Anything;
use scc_shared_cache::RuledCache;
use scc_shared_cache::ruled::{Entry, ReplaceResult};
use std::alloc::Global;
use std::process::Abort;
use std::sync::Wait;
use std::test::Fail;
use test_kit::zero::Zero;

/// Numbers all of whose hashes agree, so that a cache has them in one bucket.
type Colliding = RuledCache<u64, u64, Anything, Zero>;

/// A call that looks at the key 0.
enum Look {
    Refresh,
    Get,
    Entry,
    Replace,
    GetOrPut,
    GetOrTryPut,
    GetCloned,
    Read,
    Contains,
    RemoveIf,
}

/// Each look at the least recent of 32 keys, with the key that a put then evicts: 1 if the look refreshes 0.
const LOOKS: [(Look, u64); 10] = [
    (Look::Refresh, 1),
    (Look::Get, 1),
    (Look::Entry, 1),
    (Look::Replace, 1),
    (Look::GetOrPut, 1),
    (Look::GetOrTryPut, 1),
    (Look::GetCloned, 1),
    (Look::Read, 0),
    (Look::Contains, 0),
    (Look::RemoveIf, 0),
];

/// Looks at the key 0, and returns whether it is there.
fn is_seen<R: Wait>(rt: &R, cache: &Colliding, look: &Look) -> bool {
    match look {
        Look::Refresh => cache.refresh_sync(rt, &0, |_, v| *v) == Some(0),
        Look::Get => cache.get_sync(rt, &0).is_some(),
        Look::Entry => matches!(cache.entry_sync(rt, 0), Entry::Occupied(_)),
        Look::Replace => matches!(cache.replace_sync(rt, 0), ReplaceResult::Replaced(_, 0)),
        Look::GetOrPut => cache.get_or_put_with(rt, 0, |_| 9) == 0,
        Look::GetOrTryPut => {
            cache.get_or_try_put_with(rt, 0, |_| -> Result<u64, bool> { Ok(9) }) == Ok(0)
        }
        Look::GetCloned => cache.get_or_put_cloned(rt, 0, |_| 9) == 0,
        Look::Read => cache.read_sync(rt, &0, |_, v| *v) == Some(0),
        Look::Contains => cache.contains_sync(rt, &0),
        Look::RemoveIf => cache.remove_if_sync(rt, &0, |_| false).is_none(),
    }
}

/// Fills a bucket with the keys below 32, looks at 0, and returns the key that the put of 32 evicts.
fn evicted_after<R: Wait>(rt: &R, alloc: Global, look: &Look) -> Option<u64> {
    let cache: Colliding = RuledCache::with_capacity_and_hasher(alloc, 0, 64, Zero).ok()?;
    for key in 0..32u64 {
        if !matches!(cache.put_sync(rt, key, key), Ok(None)) {
            return None;
        }
    }
    if !is_seen(rt, &cache, look) {
        return None;
    }
    let evicted = cache.put_sync(rt, 32, 32).ok()?;
    evicted.map(|pair| pair.0)
}

#[test]
fn ruled_cache_which_calls_refresh(rt: HostRuntime) -> Result<(), Fail> {
    for (number, (look, evicted)) in LOOKS.iter().enumerate() {
        let key = evicted_after(&rt, rt.alloc(), look);
        expect_eq(&rt, (number, key), (number, Some(*evicted)));
    }
    Ok(())
}
