//! `Router`: the bucket of a key.
ghost use Rattle.scc_common.specs.Routing.{bucket_number};
ghost use Rattle.std.specs.Prelude.{◌≡◌, ◌≤◌, ◌<◌, IfOk};

use crate::place::bucket_index;
use scc_common::{Hashes, MakeError};
use std::marker::Model;

/// The hasher, and the number of first bits of each hash that are skipped. It says where a key belongs in an array, and
/// is the only thing that does.
#[derive(Drop)]
pub struct Router<H> {
    hasher: H,
    skipped: u32,
}

impl<H> Model for Router<H> {
    ghost use Rattle.std.specs.Prelude.{◌≤◌};
    ghost use Rattle.scc_buckets.specs.Routes.{Route, route_code};

    ghost Value = { Route H };

    ghost coded = { route_code H.code };

    ghost view = { λ r. record { hasher = r.hasher; skipped = r.skipped } };

    ghost invariant = { λ r. r.skipped ≤ 4 };
}

impl<H> Router<H> {
    /// Makes a router that skips the first `skipped` bits of each hash.
    #[inline(always)]
    pub(crate) fn new(skipped: u32, hasher: H) -> Router<H>
        requires { skipped ≤ 4 }
        ensures { result ≡ record { hasher = hasher; skipped = skipped } }
    {
        Router { hasher, skipped }
    }

    /// Makes a router with a clone of the hasher, which skips as many bits. Fails if the clone fails.
    pub(crate) fn try_clone(&self) -> Result<Router<H>, MakeError>
    where
        H: Clone,
        ensures hasher { IfOk result (λ r. H.is_clone self.now.hasher r.hasher) }
        ensures skipped { IfOk result (λ r. r.skipped ≡ self.now.skipped) }
    {
        match self.hasher.clone() {
            Ok(hasher) => Ok(Router {
                hasher,
                skipped: self.skipped,
            }),
            Err(_) => Err(MakeError),
        }
    }

    /// Returns the bucket of `hash` in an array of `count` buckets, 0 if there are none.
    #[inline(always)]
    pub fn bucket(&self, hash: u64, count: usize) -> usize
        ensures value { result ≡ bucket_number self.now.skipped count hash }
        ensures within { 0 < count → result < count }
    {
        bucket_index(hash, self.skipped, count)
    }
}

impl<H> Router<H> {
    /// Returns the hash of `key`.
    #[inline(always)]
    pub fn hash<K: Eq>(&self, key: &K) -> u64
    where
        H: Hashes<K>,
        ensures { result ≡ H.hash_of self.now.hasher key.now }
    {
        self.hasher.hash(key)
    }
}
