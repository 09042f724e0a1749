//! A shared container with the runtime by which its calls wait. All calls are made by one thread.
//!
//! A call that holds an entry stands in a function of its own, because the check doesn't follow an entry of a
//! container that stands beside the runtime in one struct.

mod cache;
mod index;
mod map;
mod set;

/// A shared container, and the runtime by which its calls wait.
#[derive(Drop)]
pub struct Held<'a, R, C> {
    rt: &'a R,
    shared: C,
    is_one: bool,
}

impl<'a, R, C> Held<'a, R, C> {
    /// Returns `shared` with its runtime, for several stripes.
    pub fn new(rt: &'a R, shared: C) -> Self {
        Held {
            rt,
            shared,
            is_one: false,
        }
    }

    /// Returns `shared` with its runtime. `is_one` says whether it has one stripe.
    pub fn of_stripes(rt: &'a R, shared: C, is_one: bool) -> Self {
        Held { rt, shared, is_one }
    }
}
