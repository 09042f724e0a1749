//! A routing table that threads share, over a shared index. A reader keeps a route while other threads offer better
//! routes.
ghost use Rattle.std.specs.Prelude.{◌≡◌, ◌≤◌, IfOk, IfErr, IfSome, length};
ghost use Rattle.std.specs.Arc.{arc_value};
ghost use Rattle.scc_owned.specs.Entries.{Memory};

use crate::routing::Route;
use scc_common::{InsertError, MakeError, Version};
use scc_owned::index::locked::Entry;
use scc_shared::index::HashIndex;
use std::alloc::Global;
use std::sync::{Arc, Wait};
use std::thread::{Threads, join};

/// The routes, by destination. Threads offer, look up and withdraw by reference.
#[derive(Drop)]
pub struct SharedRoutes {
    routes: HashIndex<u32, Route>,
}

impl SharedRoutes {
    /// Returns a table without routes. Fails if memory is refused.
    pub fn new(alloc: Global) -> Result<Self, MakeError> {
        match HashIndex::new(alloc) {
            Ok(routes) => Ok(SharedRoutes { routes }),
            Err(e) => Err(e),
        }
    }

    /// Takes `route` if there is no route to `destination` or if the metric of `route` is lower than that of the
    /// stored route. Returns whether it took `route`. If memory is refused, `destination` and `route` come back.
    pub fn offer(
        &self,
        rt: &impl Wait,
        destination: u32,
        route: Route,
    ) -> Result<bool, InsertError<u32, Route>>
        ensures refused { IfErr result (λ e. e ≡ Memory (destination, route)) }
    {
        match self.routes.entry_sync(rt, destination) {
            Entry::Occupied(there) => {
                let mut there = there;
                if route.metric >= there.get().metric {
                    return Ok(false);
                }
                match there.update(route) {
                    Ok(()) => Ok(true),
                    Err(back) => Err(InsertError::Memory((destination, back))),
                }
            }
            Entry::Vacant(free) => match free.insert_entry(route) {
                Ok(_entry) => Ok(true),
                Err(e) => Err(e),
            },
        }
    }

    /// Returns the route to `destination`, or `None` if there is none. The returned route stays what it is, whatever
    /// is offered and withdrawn meanwhile.
    pub fn look_up(
        &self,
        rt: &impl Wait,
        destination: u32,
    ) -> Result<Option<Arc<Version<u32, Route>>>, MakeError>
        ensures to { IfOk result (λ o. IfSome o (λ a. (arc_value a).0 ≡ destination)) }
    {
        self.routes.peek(rt, &destination)
    }

    /// Removes all routes by `next_hop`. Whoever keeps a removed route still has it.
    pub fn withdraw(&self, rt: &impl Wait, next_hop: u32) {
        self.routes
            .retain_sync(rt, |_, route| route.next_hop != next_hop);
    }

    /// Offers the routes one after another, and returns how many were taken. Stops at the first offer that is refused.
    pub fn offer_all(
        &self,
        rt: &impl Wait,
        offers: &[(u32, Route)],
    ) -> Result<usize, InsertError<u32, Route>>
        ensures most { IfOk result (λ n. n ≤ length offers.now) }
    {
        let mut taken = 0usize;
        for i in 0..offers.len() {
            let (destination, route) = offers[i];
            match self.offer(rt, destination, route) {
                Ok(true) => taken += 1,
                Ok(false) => {}
                Err(e) => return Err(e),
            }
        }
        Ok(taken)
    }

    /// Offers two lists of routes by two threads. Returns how many routes of each list were taken.
    pub fn offer_both<R: Threads + Wait + Sync>(
        &self,
        rt: &R,
        first: &[(u32, Route)],
        second: &[(u32, Route)],
    ) -> (
        Result<usize, InsertError<u32, Route>>,
        Result<usize, InsertError<u32, Route>>,
    )
        ensures first { IfOk result.0 (λ n. n ≤ length first.now) }
        ensures second { IfOk result.1 (λ n. n ≤ length second.now) }
    {
        join(
            rt,
            || self.offer_all(rt, first),
            || self.offer_all(rt, second),
        )
    }
}
