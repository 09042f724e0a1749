//! `Striped`: what the four containers that threads share have in common. Stripes behind locks, the stripe of a key,
//! and the book of reserved slots.
#![tactic(auto)]

ghost use Rattle.scc_common.specs.Hashing.{hash_of};
ghost use Rattle.scc_common.specs.Routing.{stripe_number, stripe_of};
ghost use Rattle.std.specs.Arc.{arc_value};
ghost use Rattle.std.specs.Prelude.{◌≡◌, ◌≤◌, ◌<◌, ◌^◌, ℕ, IfOk, IfSome, vec_len};

pub mod parts;
pub mod seats;
pub mod shares;
pub mod workers;

use crate::shares::{SLOTS_OF_MOST_STRIPES, share, sizes_for};
pub use parts::OpenStripes;
use scc_buckets::place::bucket_index;
use scc_common::MakeError;
pub use seats::Seat;
pub use shares::{BookReservation, ReserveBook};
use std::alloc::Global;
use std::hash::{BuildHasher, Hash};
use std::hint::spin_loop;
use std::sync::{Arc, RwLock, RwLockReadGuard, RwLockWriteGuard, Wait};

/// A container that keeps its share of the minimum of all stripes.
pub trait Follow {
    /// Returns the number of elements.
    fn count(&self) -> usize;

    /// Returns the number of slots of the array, 0 without an array.
    fn slots(&self) -> usize;

    /// Makes `share` the minimum of the container, unless more slots were asked for when it was made. A cache ignores
    /// it.
    fn follow(&mut self, share: usize)
        requires { share ≤ 2 ^ 63 };
}

/// A container that can be made as one of several parts.
pub trait Part<H>: Sized {
    /// What a new part holds: `is_made skipped slots maximum hasher part` holds of an empty part with the hasher
    /// `hasher` that skips `skipped` bits of each hash and is for `slots` slots, at most `maximum` in a cache.
    ghost is_made: { ℕ → ℕ → ℕ → H → Self → Type 0 };

    /// Makes an empty container for `slots` slots, which skips `skipped` bits of each hash, and hashes as every other
    /// part of the hasher of `owner`. Only a cache uses `maximum`.
    fn make_part(
        alloc: Global,
        skipped: u32,
        slots: usize,
        maximum: usize,
        owner: Arc<H>,
    ) -> Result<Self, MakeError>
    where
        H: Drop,
        requires { skipped ≤ 4 }
        ensures { IfOk result (is_made skipped slots maximum (arc_value owner)) };
}

/// How often a call tries a taken lock again before it waits.
const LOOKS: u32 = 200;

/// A fixed number of containers, each behind a lock, under one hasher, and the book of their minimum. Threads share it
/// by reference.
#[derive(Drop)]
pub struct Striped<O, H> {
    pub(crate) locks: Vec<RwLock<O>>,
    pub(crate) hasher: Arc<H>,
    pub(crate) bits: u32,
    pub(crate) book: ReserveBook,
    pub ghost few: { bits ≤ 4 },
    pub ghost number: { vec_len locks ≡ 2 ^ bits },
}

impl<O, H> Striped<O, H> {
    ghost use Rattle.scc_stripes.specs.Sizes.{IsBitsAsked, IsSlotsAsked};
    ghost use Rattle.scc_stripes.specs.Stripes.{reservation_slots, stripe_bits, stripe_count, stripe_slots, stripes_hasher};

    /// Makes empty containers for at least `capacity` slots together, divided evenly among them, and locks around
    /// them. There are as many as get 64 slots or more each, at most 16, and 16 without arrays if `capacity` is 0.
    /// Fails if memory is refused.
    pub fn with_capacity(alloc: Global, capacity: usize, hasher: H) -> Result<Self, MakeError>
    where
        O: Part<H> + Drop,
        H: Drop,
        ensures bits { IfOk result (λ s. IsBitsAsked capacity 1024 (stripe_bits s)) }
        ensures slots { IfOk result (λ s. IsSlotsAsked capacity (stripe_slots s)) }
        ensures hasher { IfOk result (λ s. stripes_hasher s ≡ hasher) }
    {
        let (bits, slots) = sizes_for(capacity, SLOTS_OF_MOST_STRIPES);
        Striped::make(alloc, bits, slots, 0, hasher)
    }

    /// Makes 2^`bits` empty containers, each with its share of `slots` and of `maximum`, and locks around them. Fails
    /// if memory is refused.
    pub fn make(
        alloc: Global,
        bits: u32,
        slots: usize,
        maximum: usize,
        hasher: H,
    ) -> Result<Self, MakeError>
    where
        O: Part<H> + Drop,
        H: Drop,
        requires few { bits ≤ 4 }
        requires slots { slots ≤ 2 ^ 63 }
        requires maximum { maximum ≤ 2 ^ 63 }
        ensures bits { IfOk result (λ s. stripe_bits s ≡ bits) }
        ensures slots { IfOk result (λ s. stripe_slots s ≡ slots) }
        ensures hasher { IfOk result (λ s. stripes_hasher s ≡ hasher) }
    {
        let Ok(owner) = Arc::new(alloc, hasher) else {
            return Err(MakeError);
        };
        OpenStripes::make(alloc, bits, slots, maximum, owner)?.lock(alloc)
    }

    /// Returns one more owner of the hasher.
    pub fn owner(&self) -> Result<Arc<H>, MakeError>
        ensures { IfOk result (λ h. arc_value h ≡ stripes_hasher self.now) }
    {
        match Arc::try_clone(&self.hasher) {
            Ok(owner) => Ok(owner),
            Err(_) => Err(MakeError),
        }
    }

    /// Returns the number of stripes.
    pub fn stripes(&self) -> usize
        ensures { result ≡ stripe_count self.now }
    {
        self.locks.len()
    }

    /// Returns how many first bits of a hash name the stripe.
    pub fn bits(&self) -> u32
        ensures value { result ≡ stripe_bits self.now }
        ensures few { result ≤ 4 }
    {
        self.bits
    }

    /// Returns the number of the stripe of the key `k`.
    #[inline(always)]
    pub fn route<K: Hash>(&self, k: &K) -> usize
    where
        H: BuildHasher,
        ensures value { result ≡ stripe_of H.BuildHasher H.Hasher.Hasher K.hash_input (stripes_hasher self.now)
            (stripe_count self.now) k.now }
        ensures within { result < stripe_count self.now }
    {
        bucket_index(self.hasher.hash_one(k), 0, self.locks.len())
    }

    /// Returns the hash of the key `k`.
    #[inline(always)]
    pub fn hash<K: Hash>(&self, k: &K) -> u64
    where
        H: BuildHasher,
        ensures { result ≡ hash_of H.BuildHasher H.Hasher.Hasher (stripes_hasher self.now) (K.hash_input k.now) }
    {
        self.hasher.hash_one(k)
    }

    /// Returns the number of the stripe of `hash`.
    #[inline(always)]
    pub fn route_hash(&self, hash: u64) -> usize
        ensures value { result ≡ stripe_number (stripe_count self.now) hash }
        ensures within { result < stripe_count self.now }
    {
        bucket_index(hash, 0, self.locks.len())
    }

    /// Locks the stripe for reading. Waits until no caller writes to it.
    #[inline(always)]
    pub fn read(&self, rt: &impl Wait, stripe: usize) -> RwLockReadGuard<'_, O>
        requires { stripe < stripe_count self.now }
    {
        let lock = &self.locks[stripe];
        match lock.try_read() {
            Some(guard) => guard,
            None => wait_to_read(rt, lock),
        }
    }

    /// Locks the stripe for reading, without waiting. Returns `None` if a writer has the lock or waits for it.
    pub fn try_read(&self, stripe: usize) -> Option<RwLockReadGuard<'_, O>>
        requires { stripe < stripe_count self.now }
    {
        self.locks[stripe].try_read()
    }

    /// Locks the stripe for writing. Waits until no other caller has the lock.
    #[inline(always)]
    pub fn write(&self, rt: &impl Wait, stripe: usize) -> RwLockWriteGuard<'_, O>
        requires { stripe < stripe_count self.now }
    {
        let lock = &self.locks[stripe];
        match lock.try_write() {
            Some(guard) => guard,
            None => wait_to_write(rt, lock),
        }
    }

    /// As `write`, for a call that may insert: first gives a stripe without an array its share of the minimum.
    #[inline(always)]
    pub fn write_to_insert(&self, rt: &impl Wait, stripe: usize) -> RwLockWriteGuard<'_, O>
    where
        O: Follow,
        requires { stripe < stripe_count self.now }
    {
        let mut guard = self.write(rt, stripe);
        if guard.slots() == 0 {
            self.follow(&mut *guard);
        }
        guard
    }

    /// Gives `container` its share of the current minimum.
    #[inline(always)]
    pub fn follow(&self, container: &mut O)
    where
        O: Follow,
    {
        container.follow(self.share());
    }

    /// Returns the share of one stripe of the current minimum, rounded up.
    pub fn share(&self) -> usize
        ensures { result ≤ 2 ^ 63 }
    {
        share(self.bits, self.book.minimum())
    }

    /// Returns the current minimum, or the greatest capacity if that is less.
    pub fn minimum(&self) -> usize
        ensures { result ≤ 2 ^ 63 }
    {
        self.book.minimum()
    }

    /// Returns the number of elements of all stripes, or the greatest `usize` if that is less. Locks one stripe after
    /// another.
    pub fn count(&self, rt: &impl Wait) -> usize
    where
        O: Follow,
    {
        let mut sum = 0usize;
        for stripe in 0..self.locks.len() {
            sum = sum.saturating_add(self.read(rt, stripe).count());
        }
        sum
    }

    /// Returns whether no stripe had an element when it was locked. Locks one stripe after another.
    pub fn is_empty(&self, rt: &impl Wait) -> bool
    where
        O: Follow,
    {
        for stripe in 0..self.locks.len() {
            if self.read(rt, stripe).count() > 0 {
                return false;
            }
        }
        true
    }

    /// Returns the number of slots of all stripes, or the greatest `usize` if that is less. Locks one stripe after
    /// another, and first gives each its share of the current minimum.
    pub fn slots(&self, rt: &impl Wait) -> usize
    where
        O: Follow,
    {
        let mut sum = 0usize;
        for stripe in 0..self.locks.len() {
            let mut guard = self.write(rt, stripe);
            self.follow(&mut *guard);
            sum = sum.saturating_add(guard.slots());
        }
        sum
    }

    /// Adds `additional` slots to the minimum, and gives one stripe after another its share. Returns `None` if
    /// `additional` is 0, or if the minimum would exceed the greatest capacity.
    pub fn reserve(&self, rt: &impl Wait, additional: usize) -> Option<BookReservation<'_>>
    where
        O: Follow,
        ensures { IfSome result (λ r. (reservation_slots r ≡ additional) × (0 < additional) × (additional ≤ 2 ^ 63)) }
    {
        let added = self.book.add(rt, additional)?;
        for stripe in 0..self.locks.len() {
            let mut guard = self.write(rt, stripe);
            self.follow(&mut *guard);
        }
        Some(added)
    }
}

/// Tries a taken lock `LOOKS` times, and then waits until no caller writes. It isn't in line: if the first try gets the
/// lock, the address of the guard is then known beforehand, and loads through it needn't wait for the atomic exchange.
#[cold]
fn wait_to_read<'a, O>(rt: &impl Wait, lock: &'a RwLock<O>) -> RwLockReadGuard<'a, O> {
    for _ in 0..LOOKS {
        spin_loop();
        if let Some(guard) = lock.try_read() {
            return guard;
        }
    }
    lock.read(rt)
}

/// As `wait_to_read`, but waits until no caller has the lock.
#[cold]
fn wait_to_write<'a, O>(rt: &impl Wait, lock: &'a RwLock<O>) -> RwLockWriteGuard<'a, O> {
    for _ in 0..LOOKS {
        spin_loop();
        if let Some(guard) = lock.try_write() {
            return guard;
        }
    }
    lock.write(rt)
}
