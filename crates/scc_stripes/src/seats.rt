//! `Seat`: the stripe that an entry has locked. A seat is made only together with the guard of its stripe.
ghost use Rattle.scc_stripes.specs.Seats.{seat_stripe, seat_stripes, IsNextSeat, IsSeatIn};
ghost use Rattle.scc_stripes.specs.Stripes.{stripe_count};
ghost use Rattle.std.specs.Prelude.{◌≡◌, ◌≤◌, ◌<◌, suc, IfNone, IfSome};

use crate::{Follow, Striped};
use std::sync::{RwLockWriteGuard, Wait};

impl<O, H> Striped<O, H> {
    /// Locks the stripe as `write` does, and returns its guard and its seat.
    pub fn hold(&self, rt: &impl Wait, stripe: usize) -> (RwLockWriteGuard<'_, O>, Seat<'_, O, H>)
        requires { stripe < stripe_count self.now }
        ensures seat { IsSeatIn self.now stripe result.1 }
    {
        let stripes = self;
        (self.write(rt, stripe), Seat { stripes, stripe })
    }

    /// Locks the stripe as `write_to_insert` does, and returns its guard and its seat.
    pub fn hold_to_insert(
        &self,
        rt: &impl Wait,
        stripe: usize,
    ) -> (RwLockWriteGuard<'_, O>, Seat<'_, O, H>)
    where
        O: Follow,
        requires { stripe < stripe_count self.now }
        ensures seat { IsSeatIn self.now stripe result.1 }
    {
        let stripes = self;
        (self.write_to_insert(rt, stripe), Seat { stripes, stripe })
    }
}

/// The number of a locked stripe, with the way to the later stripes.
#[derive(Drop)]
pub struct Seat<'a, O, H> {
    stripes: &'a Striped<O, H>,
    stripe: usize,
}

impl<'a, O, H> Seat<'a, O, H> {
    /// Locks the next stripe for writing, and returns its guard and its seat, or `None` if this stripe is the last.
    pub fn later(self, rt: &impl Wait) -> Option<(RwLockWriteGuard<'a, O>, Self)>
        ensures next { IfSome result (λ r. IsNextSeat self.entry r.1) }
        ensures last { IfNone result (stripe_count (seat_stripes self.entry) ≤ suc (seat_stripe self.entry)) }
    {
        let Seat { stripes, stripe } = self;
        if stripe >= stripes.locks.len() || stripes.locks.len() - stripe < 2 {
            return None;
        }
        Some(stripes.hold(rt, stripe + 1))
    }

    /// Returns the number of the locked stripe.
    pub fn stripe(&self) -> usize
        ensures { result ≡ seat_stripe self.now }
    {
        self.stripe
    }

    /// Gives `container`, that of the locked stripe, its share of the current minimum.
    pub fn follow(&self, container: &mut O)
    where
        O: Follow,
    {
        self.stripes.follow(container);
    }
}
