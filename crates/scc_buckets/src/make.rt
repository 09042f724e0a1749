//! Making buckets and their array, and replacing the array by another.
ghost use Rattle.scc_array.specs.Shelf.{shelf_entries};
ghost use Rattle.scc_buckets.specs.Making.{AreNewBuckets, MakesBuckets, InstallsFirstArray, InstallsBuckets};
ghost use Rattle.scc_buckets.specs.Tables.{AllEmpty, IsBuckets};
ghost use Rattle.scc_common.specs.Contents.{entries, bucket_count, settings_of, hash_in, overflow_of, notes_of, IsRouted, IsUniqueBy};
ghost use Rattle.std.specs.List.{flat_map, IsDistinct};
ghost use Rattle.std.specs.Prelude.{◌≡◌, ◌<◌, ◌≤◌, ◌+◌, ◌*◌, ◌^◌, [], false, length, IfOk, map};

use crate::sizes::buckets_for;
use crate::{Buckets, Router};
use scc_array::Array;
use scc_common::{Hashes, Keyed, MakeError};
use std::alloc::{AllocError, Global};

impl<E: Keyed, H: Hashes<E::Key>> Buckets<E, H>
where
    E::Key: Eq,
{
    /// Returns the allocator of the buckets.
    pub fn allocator(&self) -> Global
        ensures few { overflow_of self.now < 2 ^ 62 }
        ensures routed { IsRouted (λ e. hash_in H.hash_of self.now (E.key_of e))
            self.now }
        ensures unique { IsUniqueBy E.Key.eq E.key_of self.now }
    {
        self.buckets.allocator()
    }

    /// Makes buckets without an array, which skip `skipped` bits of each hash. No refused memory is noted, and no
    /// bucket waits. Allocates nothing.
    pub fn new(alloc: Global, skipped: u32, hasher: H) -> Buckets<E, H>
        requires { skipped ≤ 4 }
        ensures { AreNewBuckets E.key_of (hash_in H.hash_of)
            hasher skipped result }
    {
        Buckets::bare(alloc, Router::new(skipped, hasher))
    }

    /// Makes buckets without an array, as `new` does, with `router`.
    pub(crate) fn bare(alloc: Global, router: Router<H>) -> Buckets<E, H>
        ensures { AreNewBuckets E.key_of (hash_in H.hash_of)
            router.hasher router.skipped result }
    {
        Buckets {
            router,
            buckets: Array::none(alloc),
            length: 0,
            overflowing: 0,
            asked: 0,
            reserved: 0,
            refused: false,
            marked: false,
        }
    }

    /// Makes empty buckets with an array of the size for `slots`, whose slots are the slots asked for. If `slots` is 0,
    /// there is no array, and nothing is allocated. Fails if memory is refused.
    pub fn with_capacity(
        alloc: Global,
        skipped: u32,
        slots: usize,
        hasher: H,
    ) -> Result<Buckets<E, H>, MakeError>
    where
        H: Drop,
        requires { skipped ≤ 4 }
        ensures { MakesBuckets E.key_of (hash_in H.hash_of)
            hasher skipped slots result }
    {
        if slots == 0 {
            return Ok(Buckets::new(alloc, skipped, hasher));
        }
        let count = buckets_for(slots);
        match fresh_buckets(alloc, count) {
            Ok(buckets) => Ok(Buckets {
                buckets,
                length: 0,
                overflowing: 0,
                asked: 32 * count,
                reserved: 0,
                router: Router::new(skipped, hasher),
                refused: false,
                marked: false,
            }),
            Err(_) => Err(MakeError),
        }
    }

    /// Makes the first array, with the size of the minimum.
    pub fn install_first(&mut self) -> Result<(), AllocError>
        requires { bucket_count self.old ≡ 0 }
        ensures { InstallsFirstArray (λ e. hash_in H.hash_of self.old (E.key_of e))
            self.old result self.new }
    {
        let count = buckets_for(self.asked + self.reserved);
        let alloc = self.buckets.allocator();
        let buckets = fresh_buckets(alloc, count)?;
        let old = std::mem::replace(&mut self.buckets, buckets);
        old.destroy_empty();
        Ok(())
    }

    /// Releases the array, which must hold no entry.
    pub(crate) fn drop_array(&mut self)
        requires { entries self.old ≡ [] }
        ensures still { entries self.new ≡ [] }
        ensures buckets { bucket_count self.new ≡ 0 }
        ensures settings { settings_of self.new ≡ settings_of self.old }
        ensures noted { notes_of self.new ≡ notes_of self.old }
        ensures few { overflow_of self.new < 2 ^ 62 }
    {
        self.length = 0;
        self.overflowing = 0;
        let none = Array::none(self.buckets.allocator());
        let old = std::mem::replace(&mut self.buckets, none);
        old.destroy_empty();
    }

    /// Replaces the array by `buckets`, which must hold `count` entries, `overflowing` of them in overflow lists.
    /// Returns the replaced array with its two numbers. Reads no entry.
    pub fn install(
        &mut self,
        buckets: Array<E>,
        count: usize,
        overflowing: usize,
    ) -> (Array<E>, usize, usize)
        requires table { IsBuckets (λ e. hash_in H.hash_of self.old
            (E.key_of e)) (settings_of self.old).skipped buckets count overflowing }
        requires unique { IsDistinct E.Key.eq (map E.key_of (flat_map shelf_entries buckets)) }
        ensures { InstallsBuckets (λ e. hash_in H.hash_of self.old (E.key_of e))
            self.old buckets overflowing result self.new }
    {
        let own_count = self.length;
        let own_overflowing = self.overflowing;
        self.length = count;
        self.overflowing = overflowing;
        let own = std::mem::replace(&mut self.buckets, buckets);
        (own, own_count, own_overflowing)
    }
}

/// Makes an array of `count` empty buckets.
pub(crate) fn fresh_buckets<E>(alloc: Global, count: usize) -> Result<Array<E>, AllocError>
    requires { count ≤ 2 ^ 58 }
    ensures count { IfOk result (λ a. length a ≡ count) }
    ensures empty { IfOk result (λ a. AllEmpty a) }
{
    Array::with_buckets(alloc, count)
}
