//! The minimum of a table of two arrays, and the tokens of reserved slots.
ghost use Rattle.scc_common.specs.Contents.{bucket_count, settings_of};
ghost use Rattle.scc_table.specs.Minimums.{GrowsToMinimum, LowersMinimum, RaisesMinimum, ReservesSlots};
ghost use Rattle.scc_table.specs.Installations.{SetsReserved};
ghost use Rattle.std.specs.Prelude.{◌≡◌, ◌≤◌, ◌<◌, ◌+◌, ◌^◌};

use crate::Table;
use scc_buckets::sizes::{GREATEST_CAPACITY, buckets_for};
use scc_common::{Hashes, Keyed};
use std::marker::Model;

/// A token for slots reserved in a container. `release` of this container gives the slots back. A token that is dropped
/// gives nothing back. Only `reserve` makes tokens.
#[derive(Debug, Drop, PartialEq)]
pub struct Reservation {
    additional: usize,
}

impl Model for Reservation {
    ghost use Rattle.std.specs.Prelude.{ℕ};

    ghost Value = { ℕ };

    ghost view = { λ r. r.additional };

    ghost inverse = { λ n. record { additional = n } };
}

impl Reservation {
    /// Returns the number of slots that the token stands for.
    pub fn additional_capacity(&self) -> usize
        ensures { result ≡ self.now }
    {
        self.additional
    }
}

impl<E: Keyed, H: Hashes<E::Key>> Table<E, H>
where
    E::Key: Eq,
{
    /// Raises the minimum by `additional` slots, as `raise_minimum` does, and returns a token for them, or `None` if
    /// the minimum can't be raised.
    pub fn reserve(&mut self, additional: usize) -> Option<Reservation>
        ensures { ReservesSlots E.Key.eq E.key_of additional self.old result self.new }
    {
        if self.raise_minimum(additional) {
            Some(Reservation { additional })
        } else {
            None
        }
    }

    /// Raises the minimum by `additional` slots. An array with fewer slots than the minimum grows, unless memory is
    /// refused; then every bucket of the new array waits. Returns false, and changes nothing, if `additional` is 0 or
    /// the minimum would exceed the greatest capacity.
    pub fn raise_minimum(&mut self, additional: usize) -> bool
        ensures { RaisesMinimum E.Key.eq E.key_of additional self.old result self.new }
    {
        let minimum = self.minimum();
        if additional == 0 || additional > GREATEST_CAPACITY - minimum {
            return false;
        }
        let reserved = self.current.reserved() + additional;
        self.set_reserved(reserved);
        self.grow_to_minimum();
        true
    }

    /// Lowers the minimum by `additional` reserved slots, and tries to shrink the array. Returns false, and changes
    /// nothing, if fewer slots are reserved.
    pub fn lower_minimum(&mut self, additional: usize) -> bool
        ensures { LowersMinimum E.Key.eq E.key_of additional self.old result self.new }
    {
        let reserved = self.current.reserved();
        if additional > reserved {
            return false;
        }
        self.set_reserved(reserved - additional);
        self.shrink();
        true
    }

    /// Sets the number of reserved slots.
    fn set_reserved(&mut self, reserved: usize)
        requires { (settings_of self.old).asked + reserved ≤ 2 ^ 63 }
        ensures { SetsReserved reserved self.old self.new }
    {
        self.current.set_reserved(reserved);
    }

    /// Grows the array if it has fewer slots than the minimum, unless memory is refused.
    fn grow_to_minimum(&mut self)
        ensures { GrowsToMinimum E.Key.eq E.key_of self.old self.new }
    {
        let count = self.bucket_count();
        let wanted = buckets_for(self.minimum());
        if count == 0 || count >= wanted {
            return;
        }
        match self.resize_to(wanted) {
            Ok(()) => {}
            Err(_) => {}
        }
    }
}
