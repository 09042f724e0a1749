// Tests of the search of 32 tags at once.
use crate::expect::expect_eq;
use scc::hash_table::tags::tag_mask;

#[test]
fn tag_mask_ends_and_zeros(rt: HostRuntime) {
    let mut tags = [0u8; 32];
    tags[0] = 0x85;
    tags[31] = 0x85;
    for (tag, mask) in [(0x85, 0x8000_0001), (0, 0x7fff_fffe), (0x86, 0)] {
        expect_eq(&rt, tag_mask(&tags, tag), mask);
    }
}

#[test]
fn tag_mask_all_lanes(rt: HostRuntime) {
    expect_eq(&rt, tag_mask(&[0xff; 32], 0xff), 0xffff_ffff);
}
