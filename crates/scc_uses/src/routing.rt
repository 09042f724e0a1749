//! A routing table: the best route to each destination.
ghost use Rattle.std.specs.Prelude.{ℕ, ◌≡◌, None, OnOk, OnErr, IfOk};

use scc_common::InsertError;
use scc_owned::map::Owned;
use scc_owned::map::borrowed::Entry;
use std::alloc::Global;
use std::marker::Model;

/// The next hop of a route, and its cost.
#[derive(Clone, Copy, Debug, PartialEq)]
pub struct Route {
    pub next_hop: u32,
    pub metric: u32,
}

/// The routes, by destination. A contract sees the route to each destination as `route_to t destination`.
#[derive(Drop)]
pub struct Routes {
    routes: Owned<u32, Route>,
}

impl Model for Routes {
    ghost use Rattle.std.specs.Prelude.{ℕ};
    ghost use Rattle.std.specs.declared.hash.BuildHasherDefault.{BuildHasherDefault};
    ghost use Rattle.std.specs.declared.hash.FoldHasher.{FoldHasher};
    ghost use Rattle.scc_common.specs.Contents.{Contents};
    ghost use Rattle.scc_uses.specs.declared.routing.Route.{Route};

    ghost Value = { Contents (ℕ × Route) (BuildHasherDefault FoldHasher) };

    ghost view = { λ s. s.routes };
}

impl Routes {
    ghost use Rattle.scc_uses.specs.Routing.{route_to, Offers, IsAsBefore, not_by};

    /// Returns a table without routes.
    pub fn new(alloc: Global) -> Self
        ensures { (d : ℕ) → route_to result d ≡ None }
    {
        Routes {
            routes: Owned::new(alloc),
        }
    }

    /// Takes `route` if there is no route to `destination` or if the metric of `route` is lower than that of the
    /// stored route. Returns whether it took `route`.
    pub fn offer(&mut self, destination: u32, route: Route) -> Result<bool, InsertError<u32, Route>>
        ensures offered { IfOk result (Offers (route_to self.old destination) self.old destination route self.new) }
        ensures refused { OnErr result (IsAsBefore self.old self.new) }
        ensures vacant { OnErr result (route_to self.old destination ≡ None) }
    {
        match self.routes.entry_sync(destination) {
            Entry::Occupied(mut there) => {
                if route.metric < there.get().metric {
                    there.insert(route);
                    Ok(true)
                } else {
                    Ok(false)
                }
            }
            Entry::Vacant(free) => {
                let _entry = free.insert_entry(route)?;
                Ok(true)
            }
        }
    }

    /// Removes all routes by `next_hop`.
    pub fn withdraw(&mut self, next_hop: u32)
        ensures { (d : ℕ) → route_to self.new d ≡ not_by next_hop (route_to self.old d) }
    {
        self.routes
            .retain_sync(|_, route| route.next_hop != next_hop);
    }

    /// Returns the route to `destination`, or `None` if there is none.
    pub fn look_up(&self, destination: u32) -> Option<Route>
        ensures { result ≡ route_to self.now destination }
    {
        self.routes.read_sync(&destination, |_, route| *route)
    }
}
