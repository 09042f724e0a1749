//! A map that is made with room and is filled within it.
ghost use Rattle.std.specs.Prelude.{◌≡◌, ◌<◌, ◌≤◌, IfSome};
ghost use Rattle.scc_common.specs.Contents.{bucket_count, pending_of};

use scc_owned::map::Owned;
use std::alloc::Global;

/// Inserts `key` with itself as value, if the map lacks `key` and has room for it.
fn add_within(map: &mut Owned<u64, u64>, key: u64)
    requires array { 0 < bucket_count map.old }
    ensures buckets { bucket_count map.new ≡ bucket_count map.old }
    ensures pending { pending_of map.new ≤ pending_of map.old }
{
    if !map.contains_sync(&key) && map.has_room(&key) {
        let _answer = map.insert_sync(key, key);
    }
}

/// Returns a map with an array for 64 pairs, in which each of `keys` was inserted for which there was room. No bucket
/// waits for its pairs. Returns `None` if memory is refused.
pub fn filled(alloc: Global, keys: &[u64]) -> Option<Owned<u64, u64>>
    ensures { IfSome result (λ m. pending_of m ≡ 0) }
{
    let Ok(mut map) = Owned::with_capacity(alloc, 64) else {
        return None;
    };
    for key in keys {
        add_within(&mut map, *key);
    }
    Some(map)
}
