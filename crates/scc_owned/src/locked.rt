//! The entries of a locked stripe. An entry holds the lock of its stripe as long as the entry lives.

mod from_guard;
mod insertions;
mod methods;
pub mod walk;

use crate::Owned;
use crate::held::{HeldEntry, HeldOccupied, HeldVacant};
use scc_common::{Keyed, Shared};
use scc_stripes::Seat;
use std::sync::RwLockWriteGuard;
pub use walk::first_later;

/// What an entry holds of its stripe: the guard of its lock.
pub type Lock<'a, E, H> = RwLockWriteGuard<'a, Owned<E, Shared<H>>>;

/// The seat of a stripe.
pub type StripeSeat<'a, E, H> = Seat<'a, Owned<E, Shared<H>>, H>;

/// The entry of a key. It holds the lock of its stripe.
pub type Entry<'a, E, H> = HeldEntry<Lock<'a, E, H>, StripeSeat<'a, E, H>, E, Shared<H>>;

/// An occupied entry. It holds the lock of its stripe.
pub type OccupiedEntry<'a, E, H> = HeldOccupied<Lock<'a, E, H>, StripeSeat<'a, E, H>, E, Shared<H>>;

/// A vacant entry: a key that its stripe lacks. It holds the lock of the stripe.
pub type VacantEntry<'a, E, H> = HeldVacant<
    Lock<'a, E, H>,
    StripeSeat<'a, E, H>,
    E,
    Shared<H>,
    <E as Keyed>::Key,
>;
