//! The shares of the stripes, and the slots that callers of a shared container have reserved.
ghost use Rattle.scc_stripes.specs.Sizes.{IsBitsAsked, IsBitsFor, IsSlotsAsked};
ghost use Rattle.scc_stripes.specs.Stripes.{book_slots, reservation_slots, share_of};
ghost use Rattle.std.specs.Prelude.{◌≡◌, ◌≤◌, ◌<◌, ◌^◌, IfSome};

use scc_buckets::sizes::{GREATEST_CAPACITY, slots_for};
use std::sync::atomic::{AtomicU64, Ordering};
use std::sync::{Mutex, Wait};

/// The fewest slots that are divided among 16 stripes, the most.
pub(crate) const SLOTS_OF_MOST_STRIPES: usize = 1024;

/// Returns how many first bits of a hash name a stripe, if all stripes together have `slots` slots: the greatest number
/// of bits, at most 4, that leaves each stripe 64 slots, or 0.
fn bits_for(slots: usize) -> u32
    ensures { IsBitsFor slots result }
{
    if slots < 128 {
        0
    } else if slots < 256 {
        1
    } else if slots < 512 {
        2
    } else if slots < 1024 {
        3
    } else {
        4
    }
}

/// Returns the bits that name a stripe and the slots of all stripes together, for at least `capacity` slots. The slots
/// are those of one array for `capacity`, or 0 if `capacity` is 0. There are as many stripes as get 64 slots or more
/// each, at most 16. If `capacity` is 0, the slots of one array for `instead` count for that.
pub fn sizes_for(capacity: usize, instead: usize) -> (u32, usize)
    ensures bits { IsBitsAsked capacity instead result.0 }
    ensures slots { IsSlotsAsked capacity result.1 }
    ensures few { result.0 ≤ 4 }
    ensures most { result.1 ≤ 2 ^ 63 }
{
    if capacity == 0 {
        return (bits_for(slots_for(instead)), 0);
    }
    let slots = slots_for(capacity);
    (bits_for(slots), slots)
}

/// Returns the share of one of 2^`bits` stripes, rounded up.
pub fn share(bits: u32, slots: usize) -> usize
    requires bits { bits ≤ 4 }
    requires most { slots ≤ 2 ^ 63 }
    ensures value { result ≡ share_of bits slots }
    ensures most { result ≤ 2 ^ 63 }
{
    let stripes = 1usize << bits;
    (slots + (stripes - 1)) / stripes
}

/// The minimum of all stripes together: the slots asked for at making, and the slots reserved, which any thread may
/// load.
#[derive(Drop)]
pub struct ReserveBook {
    asked: usize,
    reserved: AtomicU64,
    adding: Mutex<()>,
}

impl ReserveBook {
    /// Makes a book in which nothing is reserved.
    pub fn new(asked: usize) -> ReserveBook
        ensures { book_slots result ≡ asked }
    {
        ReserveBook {
            asked,
            reserved: AtomicU64::new(0),
            adding: Mutex::new(()),
        }
    }

    /// Returns the minimum, or the greatest capacity if that is less.
    pub fn minimum(&self) -> usize
        ensures { result ≤ 2 ^ 63 }
    {
        let reserved = self.reserved.load(Ordering::SeqCst) as usize;
        self.asked.saturating_add(reserved).min(GREATEST_CAPACITY)
    }

    /// Adds `additional` slots to the minimum, and returns a reservation of them. Returns `None` if `additional` is 0,
    /// or if the minimum would exceed the greatest capacity. One caller adds at a time.
    pub fn add(&self, rt: &impl Wait, additional: usize) -> Option<BookReservation<'_>>
        ensures { IfSome result (λ r. (reservation_slots r ≡ additional) × (0 < additional) × (additional ≤ 2 ^ 63)) }
    {
        let _turn = self.adding.lock(rt);
        if additional == 0 || additional > GREATEST_CAPACITY - self.minimum() {
            return None;
        }
        self.reserved.fetch_add(additional as u64, Ordering::SeqCst);
        Some(BookReservation {
            book: self,
            additional,
        })
    }
}

/// A reservation of slots in a book. A drop gives the slots back, and waits for no other caller.
pub struct BookReservation<'h> {
    book: &'h ReserveBook,
    additional: usize,
}

impl<'h> BookReservation<'h> {
    /// Returns the number of slots reserved.
    pub fn additional_capacity(&self) -> usize
        ensures { result ≡ reservation_slots self.now }
    {
        self.additional
    }
}

impl<'h> Drop for BookReservation<'h> {
    fn drop(self) {
        let BookReservation { book, additional } = self;
        book.reserved.fetch_sub(additional as u64, Ordering::SeqCst);
    }
}
