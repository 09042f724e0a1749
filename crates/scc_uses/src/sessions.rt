//! A table of sessions, each with the time at which it ends.
ghost use Rattle.std.specs.Prelude.{ℕ, ◌≡◌, Some, None, OnOk, OnErr};
ghost use Rattle.scc_uses.specs.Sessions.{end_of, Sets, IsAsBefore, Renews, Expires};

use scc_common::InsertError;
use scc_owned::map::Owned;
use std::alloc::Global;
use std::hash::{BuildHasherDefault, FoldHasher};
use std::marker::Model;

/// The sessions, by their numbers. A contract sees the end of each session as `end_of s id`.
pub struct Sessions {
    ends: Owned<u64, u64>,
}

impl Model for Sessions {
    ghost use Rattle.std.specs.Prelude.{ℕ};
    ghost use Rattle.std.specs.declared.hash.BuildHasherDefault.{BuildHasherDefault};
    ghost use Rattle.std.specs.declared.hash.FoldHasher.{FoldHasher};
    ghost use Rattle.scc_common.specs.Contents.{Contents};

    ghost Value = { Contents (ℕ × ℕ) (BuildHasherDefault FoldHasher) };

    ghost view = { λ s. s.ends };
}

impl Sessions {
    /// Returns a table without sessions.
    pub fn new(alloc: Global) -> Self
        ensures { (id : ℕ) → end_of result id ≡ None }
    {
        Sessions {
            ends: Owned::new(alloc),
        }
    }

    /// Begins a session. Fails if there is a session with the number `id`, or if memory is refused.
    pub fn begin(&mut self, id: u64, end: u64) -> Result<(), InsertError<u64, u64>>
        ensures begun { OnOk result ((end_of self.old id ≡ None) × Sets self.old id (Some end) self.new) }
        ensures refused { OnErr result (IsAsBefore self.old self.new) }
    {
        self.ends.insert_sync(id, end)
    }

    /// Lets session `id` end at `end` unless it ends later, and returns whether there is such a session.
    pub fn renew(&mut self, id: u64, end: u64) -> bool
        ensures { Renews (end_of self.old id) self.old id end result self.new }
    {
        self.ends
            .update_sync(&id, |_, old| {
                if *old < end {
                    *old = end;
                }
            })
            .is_some()
    }

    /// Removes session `id` if it has ended by `now`, and returns whether it did.
    pub fn expire(&mut self, id: u64, now: u64) -> bool
        ensures { Expires (end_of self.old id) self.old id now result self.new }
    {
        self.ends.remove_if_sync(&id, |end| *end <= now).is_some()
    }
}
