// Values that are made for missing keys of maps and indexes, which need no rule for that.
use crate::expect::expect_eq;
use scc_common::Anything;
use scc_shared::index::HashIndex;
use scc_shared::map::HashMap;
use scc_shared::ruled_index::RuledIndex;
use std::test::Fail;

/// Keys, each with a value that is made for it, and the value that the key has then.
const MADE: [(u64, u64, u64); 4] = [(4, 40, 40), (4, 41, 40), (5, 50, 50), (4, 42, 40)];

#[test]
fn maps_and_indexes_make_a_missing_value(rt: HostRuntime) -> Result<(), Fail> {
    let map: HashMap<u64, u64> = HashMap::new(rt.alloc())?;
    let index: HashIndex<u64, u64> = HashIndex::new(rt.alloc())?;
    let ruled: RuledIndex<u64, u64, Anything> = RuledIndex::new(rt.alloc())?;
    for (number, (key, value, wanted)) in MADE.iter().enumerate() {
        let found = map.get_or_insert_with(&rt, *key, |_| *value);
        expect_eq(&rt, (number, found), (number, *wanted));
        let found = index.get_or_insert_cloned(&rt, *key, |_| *value)?;
        expect_eq(&rt, (number, found), (number, *wanted));
        let found = ruled
            .get_or_try_insert_with(&rt, *key, |_| Ok::<u64, usize>(*value))
            .ok();
        expect_eq(&rt, (number, found), (number, Some(*wanted)));
    }
    expect_eq(&rt, (map.len(&rt), index.len(&rt)), (2, 2));
    Ok(())
}
