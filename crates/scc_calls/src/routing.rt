//! The part to which a key is routed.
ghost use Rattle.std.specs.Prelude.{◌≡◌, ◌<◌};
ghost use Rattle.scc_common.specs.Routing.{stripe_of};

use crate::Calls;
use scc_buckets::place::bucket_index;
use std::hash::BuildHasher;

/// Returns the number of the part of `key` among `parts` parts: the number that the first bits of its hash write.
pub fn route<C: Calls>(hasher: &C::Hasher, parts: usize, key: &C::Key) -> usize
    requires { 0 < parts }
    ensures value { result ≡ stripe_of C.Hasher.BuildHasher C.Hasher.Hasher.Hasher C.Key.Hash.hash_input hasher.now
        parts key.now }
    ensures within { result < parts }
{
    bucket_index(hasher.hash_one(key), 0, parts)
}
