// The hash of a script's keys.
use crate::expect::expect_eq;
use scc_script::same::Same;
use std::hash::{BuildHasher, Hasher};

#[test]
fn same_hashes_a_key_to_itself(rt: HostRuntime) {
    expect_eq(&rt, Same.hash_one(0u64), 0);
    expect_eq(
        &rt,
        Same.hash_one(9_223_372_036_854_775_809u64),
        9_223_372_036_854_775_809,
    );
    let mut hasher = Same.build_hasher();
    expect_eq(&rt, hasher.finish(), 0);
    hasher.write_u64(7);
    hasher.write_u32(9);
    expect_eq(&rt, hasher.finish(), 7);
}
