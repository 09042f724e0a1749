// The default value of an entry may be one that an allocator makes, as an empty list or an empty text.
use crate::expect::expect;
use scc::{HashCache, HashIndex, HashMap};

#[test]
fn shared_entries_insert_empty_lists(rt: HostRuntime) {
    let map: HashMap<u64, Vec<u64>> = HashMap::new(rt.alloc()).expect(&rt, "a map");
    match map.entry_sync(&rt, 1).or_default() {
        Ok(entry) => expect(&rt, entry.get().is_empty()),
        Err(_) => expect(&rt, false),
    }
    let index: HashIndex<u64, Vec<u64>> = HashIndex::new(rt.alloc()).expect(&rt, "an index");
    match index.entry_sync(&rt, 1).or_default() {
        Ok(entry) => expect(&rt, entry.get().is_empty()),
        Err(_) => expect(&rt, false),
    }
}

#[test]
fn shared_cache_entry_puts_an_empty_list(rt: HostRuntime) {
    let cache: HashCache<u64, Vec<u64>> = HashCache::new(rt.alloc()).expect(&rt, "a cache");
    match cache.entry_sync(&rt, 1).or_default() {
        Ok((_, entry)) => expect(&rt, entry.get().is_empty()),
        Err(_) => expect(&rt, false),
    }
}
