//! Routes that workers share.
ghost use Rattle.std.specs.Arc.{arc_value};
ghost use Rattle.std.specs.Prelude.{◌≡◌, IfOk, IfSome};

use scc::HashIndex;
use scc::hash_index::{Entry, Version};
use std::alloc::AllocError;
use std::io;
use std::sync::{Arc, Wait};

/// The next hops, by their destinations.
pub type Routes = HashIndex<u64, u64>;

/// A route that a reader keeps.
pub type Kept = Arc<Version<u64, u64>>;

/// Publishes `hop` for `destination`, and returns the route that was there before, which its reader may keep. It is a
/// route to `destination`, and it stays what it was.
pub fn publish<R: Wait>(
    rt: &R,
    routes: &Routes,
    destination: u64,
    hop: u64,
) -> io::Result<Option<Kept>>
    ensures { IfOk result (λ old. IfSome old (λ a. (arc_value a).0 ≡ destination)) }
{
    let old = routes.peek(rt, &destination)?;
    match routes.entry_sync(rt, destination) {
        Entry::Occupied(mut entry) => entry.update(hop).map_err(|_| AllocError)?,
        Entry::Vacant(entry) => {
            entry.insert_entry(hop)?;
        }
    }
    Ok(old)
}
