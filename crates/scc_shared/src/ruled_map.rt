//! What a map under a rule has of its own: the calls that store, write and take out pairs. What they store must keep the
//! rule, and what they hand out keeps it.

mod calls;
mod make;
mod walks;

use crate::HashContainer;
use scc_common::Ruled;
use std::hash::{BuildHasherDefault, FoldHasher};

/// A map from keys to values that threads share by reference, each of whose pairs keeps the rule `R`: what a call stores
/// keeps it, and so does what a call hands out. A rule is a kind of entry: this is the container of `HashMap` at another
/// entry.
pub type RuledMap<K, V, R, H = BuildHasherDefault<FoldHasher>> = HashContainer<Ruled<K, V, R>, H>;

/// Slots that are reserved in a map under a rule until this token is dropped. The drop waits for no lock.
pub type Reserve<'h, K, V, R, H = BuildHasherDefault<FoldHasher>> = crate::Reserve<
    'h,
    Ruled<K, V, R>,
    H,
>;
