//! `Place`, and the bucket and the tag of a hash.
ghost use Rattle.scc_common.specs.Routing.{bucket_number, tag_of};
ghost use Rattle.std.specs.Prelude.{◌≡◌, ◌<◌};

/// The number of a bucket, and the slot of an entry in the bucket. A place is valid until the container that returned
/// it changes.
#[derive(Clone, Copy, Debug, PartialEq)]
pub struct Place {
    pub bucket: usize,
    pub slot: usize,
}

/// Returns the bucket of `hash`: the number that its first bits after the skipped bits write.
#[inline(always)]
pub fn bucket_index(hash: u64, skipped: u32, buckets: usize) -> usize
    requires { skipped < 64 }
    ensures value { result ≡ bucket_number skipped buckets hash }
    ensures within { 0 < buckets → result < buckets }
{
    let rest = hash << skipped;
    ((rest as u128 * buckets as u128) >> 64) as usize
}

/// Returns the tag of an entry with the hash `hash`, which is never 0.
#[inline(always)]
pub fn tag(hash: u64) -> u8
    ensures { result ≡ tag_of hash }
{
    128 + (hash % 128) as u8
}
