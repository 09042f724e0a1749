//! A store of sessions that workers share, each session with the time at which it ends.
ghost use Rattle.std.specs.Prelude.{◌≡◌, ◌≤◌, ◌⊎◌, IfErr, IfSome};
ghost use Rattle.scc_owned.specs.Entries.{Exists, Memory};

use scc_common::{InsertError, MakeError};
use scc_shared::map::HashMap;
use std::alloc::Global;
use std::sync::Wait;

/// The sessions, by their numbers. Workers share the store by reference. A call takes the lock of one stripe, and
/// never two.
#[derive(Drop)]
pub struct SessionStore {
    ends: HashMap<u64, u64>,
}

impl SessionStore {
    /// Returns a store without sessions. Fails if memory is refused.
    pub fn new(alloc: Global) -> Result<Self, MakeError> {
        let ends = HashMap::new(alloc)?;
        Ok(SessionStore { ends })
    }

    /// Begins a session. Fails if there is a session with the number `id`, or if memory is refused; then `id` and
    /// `end` come back.
    pub fn begin(&self, rt: &impl Wait, id: u64, end: u64) -> Result<(), InsertError<u64, u64>>
        ensures { IfErr result (λ e. (e ≡ Exists (id, end)) ⊎ (e ≡ Memory (id, end))) }
    {
        self.ends.insert_sync(rt, id, end)
    }

    /// Lets session `id` end at `end` or later, and returns when it ends. Returns `None` if there is no such session.
    pub fn renew(&self, rt: &impl Wait, id: u64, end: u64) -> Option<u64>
        ensures { IfSome result (λ left. end ≤ left) }
    {
        self.ends.update_sync(rt, &id, |_, old| later(old, end))
    }

    /// Removes session `id` if it has ended by `now`, and returns it with its end. Returns `None` if there is no such
    /// session or if it hasn't ended.
    pub fn expire(&self, rt: &impl Wait, id: u64, now: u64) -> Option<(u64, u64)>
        ensures { IfSome result (λ session. (session.0 ≡ id) × (session.1 ≤ now)) }
    {
        self.ends.remove_if_sync(rt, &id, |end| *end <= now)
    }
}

/// Raises `end` to `to` unless `end` is later, and returns the new end.
fn later(end: &mut u64, to: u64) -> u64
    ensures { to ≤ result }
{
    if *end < to {
        *end = to;
    }
    *end
}
