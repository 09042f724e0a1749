//! Requests counted by user, in windows of time.
ghost use Rattle.std.specs.Prelude.{ℕ, ◌≡◌, List, ◌++◌, [], All, Some, OnOk, OnErr, IfOk, nat_eq, None};
ghost use Rattle.std.specs.List.Sorted.{IsPermutation};
ghost use Rattle.scc_common.specs.Contents.{entries};
ghost use Rattle.scc_common.specs.Pairs.{find, FindsInstead};

use scc_common::{InsertError, Verdict, WalkError};
use scc_owned::map::Owned;
use std::alloc::Global;

/// The time at which a window began, and the number of requests in it.
#[derive(Clone, Copy, Debug, PartialEq)]
pub struct Window {
    pub since: u64,
    pub hits: u64,
}

/// The windows of the users, each of the same width.
#[derive(Drop)]
pub struct Requests {
    pub windows: Owned<u64, Window>,
    pub width: u64,
}

impl Requests {
    ghost use Rattle.scc_uses.specs.Windows.{after_hit, IsExpired, IsLive, live_at};

    /// Returns a table without users, for windows of `width`.
    pub fn new(alloc: Global, width: u64) -> Self
        ensures width { result.width ≡ width }
        ensures none { (q : ℕ) → find nat_eq (entries result.windows) q ≡ None }
    {
        Requests {
            windows: Owned::new(alloc),
            width,
        }
    }

    /// Counts a request of `user`, in a new window if the old one has expired, and returns the number of requests in
    /// the window.
    pub fn hit(&mut self, user: u64, now: u64) -> Result<u64, InsertError<u64, Window>>
        ensures width { self.new.width ≡ self.old.width }
        ensures answer { IfOk result (λ n. n ≡ (after_hit self.old.width now
            (find nat_eq (entries self.old.windows) user)).hits) }
        ensures hit { OnOk result (FindsInstead nat_eq (entries self.old.windows) user
            (Some (user, after_hit self.old.width now (find nat_eq (entries self.old.windows) user)))
            (entries self.new.windows)) }
        ensures refused { OnErr result ((q : ℕ) → find nat_eq (entries self.new.windows) q
            ≡ find nat_eq (entries self.old.windows) q) }
    {
        let width = self.width;
        let counted = self.windows.update_sync(&user, |_, window| {
            if now.saturating_sub(window.since) >= width {
                *window = Window {
                    since: now,
                    hits: 1,
                };
            } else {
                window.hits = window.hits.saturating_add(1);
            }
            window.hits
        });
        if let Some(hits) = counted {
            return Ok(hits);
        }
        self.windows.insert_sync(
            user,
            Window {
                since: now,
                hits: 1,
            },
        )?;
        Ok(1)
    }

    /// Removes the users whose windows have expired, and adds them to `taken`. If memory is refused, some of these
    /// users stay.
    pub fn sweep(&mut self, now: u64, taken: &mut Vec<(u64, Window)>) -> Result<(), WalkError>
        ensures width { self.new.width ≡ self.old.width }
        ensures taken { (more : List (ℕ × Window)) × (taken.new.items ≡ taken.old.items ++ more)
            × All (IsExpired self.old.width now) more
            × IsPermutation (entries self.old.windows) (entries self.new.windows ++ more) }
        ensures live { OnOk result (All (IsLive self.old.width now) (entries self.new.windows)) }
        ensures finds { OnOk result ((q : ℕ) → find nat_eq (entries self.new.windows) q
            ≡ live_at self.old.width now (find nat_eq (entries self.old.windows) q)) }
    {
        let width = self.width;
        self.windows.iter_mut_sync(
            |_, window| {
                if now.saturating_sub(window.since) >= width {
                    Verdict::Take
                } else {
                    Verdict::Keep
                }
            },
            taken,
        )?;
        Ok(())
    }
}
