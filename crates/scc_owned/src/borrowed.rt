//! The entries of a borrowed container.

mod insertions;
mod methods;
mod walk;

use crate::Owned;
use crate::held::{HeldEntry, HeldOccupied, HeldVacant};
use scc_common::Keyed;

/// The entry of a key. It borrows the container.
pub type Entry<'a, E, H> = HeldEntry<&'a mut Owned<E, H>, (), E, H>;

/// An occupied entry: the place of a pair of the container.
pub type OccupiedEntry<'a, E, H> = HeldOccupied<&'a mut Owned<E, H>, (), E, H>;

/// A vacant entry: a key that the container lacks, with its hash.
pub type VacantEntry<'a, E, H> = HeldVacant<&'a mut Owned<E, H>, (), E, H, <E as Keyed>::Key>;
