//! What a set under a rule of its keys has of its own. What its calls insert must keep the rule, and what they hand out
//! keeps it.

mod calls;
mod entries;
mod make;
mod walks;

use crate::{HeldKey, KeySet};
use scc_common::Ruled;
use scc_owned::ruled_map::locked;
use std::hash::{BuildHasherDefault, FoldHasher};

/// A set of keys that threads share by reference, each of which keeps the rule `R`: what a call inserts keeps it, and so
/// does what a call hands out.
pub type RuledSet<K, R, H = BuildHasherDefault<FoldHasher>> = KeySet<Ruled<K, (), R>, H>;

/// Slots that are reserved in a set under a rule until this token is dropped. The drop waits for no lock.
pub type Reserve<'h, K, R, H = BuildHasherDefault<FoldHasher>> = scc_shared::ruled_map::Reserve<
    'h,
    K,
    (),
    R,
    H,
>;

/// A stored key whose stripe is locked.
pub type OccupiedEntry<'a, K, R, H = BuildHasherDefault<FoldHasher>> = HeldKey<
    locked::OccupiedEntry<'a, K, (), R, H>,
>;
