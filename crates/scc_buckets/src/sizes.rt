//! The sizes of an array, the minimum, and the note and the mark of a resize whose memory was refused.
ghost use Rattle.scc_buckets.specs.Making.{SetsReservedSlots};
ghost use Rattle.scc_common.specs.Contents.{settings_of, notes_of, minimum_of, lists_of, overflow_of, IsUniqueBy, mark_of};
ghost use Rattle.scc_common.specs.Sizes.{IsBucketCount, IsArraySize};
ghost use Rattle.scc_common.specs.Steps.{IsUnchanged};
ghost use Rattle.std.specs.Prelude.{◌≡◌, ◌*◌, ◌≤◌, ◌<◌, ◌+◌, ◌-◌, ◌^◌, false};

use crate::Buckets;
use scc_common::{Hashes, Keyed};

/// The greatest capacity, in slots.
pub const GREATEST_CAPACITY: usize = 1 << 63;

/// The greatest number of buckets, of 32 slots each.
pub const MOST_BUCKETS: usize = 1 << 58;

/// Returns the size of an array for `slots`: the least power of two that is at least `slots` and at least 64, or the
/// greatest capacity if that is less.
pub fn slots_for(slots: usize) -> usize
    ensures { IsArraySize slots result }
{
    if slots >= GREATEST_CAPACITY {
        GREATEST_CAPACITY
    } else if slots <= 64 {
        64
    } else {
        slots.next_power_of_two()
    }
}

/// Returns the number of buckets, of 32 slots each, of an array for `slots`.
pub fn buckets_for(slots: usize) -> usize
    ensures array { IsBucketCount result }
    ensures size { IsArraySize slots (32 * result) }
{
    slots_for(slots) / 32
}

impl<E: Keyed, H: Hashes<E::Key>> Buckets<E, H>
where
    E::Key: Eq,
{
    /// Returns the minimum: the slots asked for at making, and the slots reserved.
    #[inline(always)]
    pub fn minimum(&self) -> usize
        ensures value { result ≡ minimum_of self.now }
        ensures most { result ≤ 2 ^ 63 }
        ensures unique { IsUniqueBy E.Key.eq E.key_of self.now }
    {
        self.asked + self.reserved
    }

    /// Returns the number of slots that are reserved.
    #[inline(always)]
    pub fn reserved(&self) -> usize
        ensures value { result ≡ (settings_of self.now).reserved }
        ensures most { minimum_of self.now ≤ 2 ^ 63 }
        ensures unique { IsUniqueBy E.Key.eq E.key_of self.now }
    {
        self.reserved
    }

    /// Sets the note of refused memory to `refused`, and takes the mark away.
    pub fn note(&mut self, refused: bool)
        ensures unchanged { IsUnchanged self.old self.new }
        ensures lists { lists_of self.new ≡ lists_of self.old }
        ensures settings { settings_of self.new ≡ settings_of self.old }
        ensures spilled { overflow_of self.new ≡ overflow_of self.old }
        ensures noted { notes_of self.new ≡ (refused, false) }
    {
        self.refused = refused;
        self.marked = false;
    }

    /// Returns whether the growth is marked: memory for it was refused just before, and the next insertion doesn't try
    /// it.
    #[inline(always)]
    pub fn is_marked(&self) -> bool
        ensures { result ≡ mark_of self.now }
    {
        self.marked
    }

    /// Sets the note of refused memory, and the mark, which says that the next insertion doesn't try the growth.
    pub fn mark(&mut self, refused: bool, marked: bool)
        ensures unchanged { IsUnchanged self.old self.new }
        ensures lists { lists_of self.new ≡ lists_of self.old }
        ensures settings { settings_of self.new ≡ settings_of self.old }
        ensures spilled { overflow_of self.new ≡ overflow_of self.old }
        ensures noted { notes_of self.new ≡ (refused, marked) }
    {
        self.refused = refused;
        self.marked = marked;
    }

    /// Sets the number of reserved slots.
    pub fn set_reserved(&mut self, reserved: usize)
        requires { (settings_of self.old).asked + reserved ≤ 2 ^ 63 }
        ensures { SetsReservedSlots reserved self.old self.new }
    {
        self.reserved = reserved;
    }
}
