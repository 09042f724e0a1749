//! `OpenStripes`: the containers that will be stripes, before they have locks.
ghost use Rattle.scc_common.specs.Routing.{stripe_of};
ghost use Rattle.std.specs.Arc.{arc_value};
ghost use Rattle.std.specs.Fn.{FnOnceReturnsAtMut};
ghost use Rattle.std.specs.Prelude.{◌≡◌, ◌≤◌, ◌<◌, ◌^◌, IfOk, Some, slice_get, slice_set, vec_len};

use crate::shares::{ReserveBook, SLOTS_OF_MOST_STRIPES, share, sizes_for};
use crate::{Part, Striped};
use scc_buckets::place::bucket_index;
use scc_common::MakeError;
use std::alloc::Global;
use std::hash::{BuildHasher, Hash};
use std::sync::{Arc, RwLock};

/// A power of two of containers under one hasher, without locks. Their owner can fill them without waiting.
#[derive(Drop)]
pub struct OpenStripes<O, H> {
    parts: Vec<O>,
    hasher: Arc<H>,
    bits: u32,
    slots: usize,
    pub ghost few: { bits ≤ 4 },
    pub ghost number: { vec_len parts ≡ 2 ^ bits },
}

impl<O, H> OpenStripes<O, H> {
    ghost use Rattle.scc_stripes.specs.Parts.{AreMade, part_bits, part_count, part_slots, parts_hasher, parts_of, parts_owner};
    ghost use Rattle.scc_stripes.specs.Sizes.{IsBitsAsked, IsSlotsAsked};
    ghost use Rattle.scc_stripes.specs.Stripes.{stripe_bits, stripe_slots, stripes_hasher};

    /// Makes 2^`bits` empty containers, each with its share of `slots` and of `maximum`.
    pub fn make(
        alloc: Global,
        bits: u32,
        slots: usize,
        maximum: usize,
        hasher: Arc<H>,
    ) -> Result<Self, MakeError>
    where
        O: Part<H> + Drop,
        H: Drop,
        requires few { bits ≤ 4 }
        requires slots { slots ≤ 2 ^ 63 }
        requires maximum { maximum ≤ 2 ^ 63 }
        ensures bits { IfOk result (λ p. part_bits p ≡ bits) }
        ensures slots { IfOk result (λ p. part_slots p ≡ slots) }
        ensures hasher { IfOk result (λ p. parts_hasher p ≡ arc_value hasher) }
        ensures parts { IfOk result (AreMade O.is_made maximum) }
    {
        let count = 1usize << bits;
        let mut parts = Vec::new(alloc);
        for made in 0..count {
            prove!(parts.len() == made);
            let Ok(owner) = Arc::try_clone(&hasher) else {
                return Err(MakeError);
            };
            let part = O::make_part(alloc, bits, share(bits, slots), share(bits, maximum), owner)?;
            if parts.push(part).is_err() {
                return Err(MakeError);
            }
        }
        Ok(OpenStripes {
            parts,
            hasher,
            bits,
            slots,
        })
    }

    /// Makes empty containers under the hasher of `stripes`, as many and of the sizes that `Striped::with_capacity`
    /// makes for `capacity`. Fails if memory is refused.
    pub fn alike(alloc: Global, stripes: &Striped<O, H>, capacity: usize) -> Result<Self, MakeError>
    where
        O: Part<H> + Drop,
        H: Drop,
        ensures bits { IfOk result (λ p. IsBitsAsked capacity 1024 (part_bits p)) }
        ensures slots { IfOk result (λ p. IsSlotsAsked capacity (part_slots p)) }
        ensures hasher { IfOk result (λ p. parts_hasher p ≡ stripes_hasher stripes.now) }
        ensures parts { IfOk result (AreMade O.is_made 0) }
    {
        let owner = stripes.owner()?;
        let (bits, slots) = sizes_for(capacity, SLOTS_OF_MOST_STRIPES);
        OpenStripes::make(alloc, bits, slots, 0, owner)
    }

    /// Returns the number of the part of the key `k`, which will be the number of its stripe.
    pub fn route<K: Hash>(&self, k: &K) -> usize
    where
        H: BuildHasher,
        ensures value { result ≡ stripe_of H.BuildHasher H.Hasher.Hasher K.hash_input (parts_hasher self.now)
            (part_count self.now) k.now }
        ensures within { result < part_count self.now }
    {
        bucket_index(self.hasher.hash_one(k), 0, self.parts.len())
    }

    /// Calls `f` with the part of the number `part`, and returns the result of `f`.
    pub fn change<R, F: FnOnce(&mut O) -> R>(&mut self, part: usize, f: F) -> R
        requires part { part < part_count self.old }
        requires callable { F.IsAlwaysCallable f }
        ensures hasher { parts_owner self.new ≡ parts_owner self.old }
        ensures slots { part_slots self.new ≡ part_slots self.old }
        ensures change { (old : O) × (new : O) × (slice_get (parts_of self.old) part ≡ Some old)
            × FnOnceReturnsAtMut F.FnOnce f old result new
            × (parts_of self.new ≡ slice_set (parts_of self.old) part new) }
    {
        f(&mut self.parts[part])
    }

    /// Puts a lock around each part.
    pub fn lock(self, alloc: Global) -> Result<Striped<O, H>, MakeError>
    where
        O: Drop,
        H: Drop,
        ensures bits { IfOk result (λ s. stripe_bits s ≡ part_bits self) }
        ensures slots { IfOk result (λ s. stripe_slots s ≡ part_slots self) }
        ensures hasher { IfOk result (λ s. stripes_hasher s ≡ parts_hasher self) }
    {
        let OpenStripes {
            parts,
            hasher,
            bits,
            slots,
        } = self;
        let mut locks = Vec::new(alloc);
        for part in parts {
            if locks.push(RwLock::new(part)).is_err() {
                return Err(MakeError);
            }
        }
        Ok(Striped {
            locks,
            hasher,
            bits,
            book: ReserveBook::new(slots),
        })
    }
}
