//! Relocations: waiting buckets get their entries out of the old array.
ghost use Rattle.scc_buckets.specs.Bounded.{IsBounded, IsListed};
ghost use Rattle.scc_common.specs.Contents.{entries, hash_in, list_of, pending_of, waiting_of, IsRouted, IsUniqueBy};
ghost use Rattle.scc_table.specs.Relocates.{AreShort};
ghost use Rattle.scc_table.specs.Relocations.{RelocatesUpTo, RelocatesAll, TriesSecond};
ghost use Rattle.scc_table.specs.TwoArrays.{IsWaiting, IsFirstWaiting, IsLoneWaiting, IsRelocated, IsSecondWaiting, pending_targets, waits_at};
ghost use Rattle.std.specs.List.{filter};
ghost use Rattle.std.specs.Prelude.{◌≡◌, ◌==◌, ◌<◌, ◌+◌, false, not, ◌≤◌, ℕ, length, IfNone, IfSome, OnOk, OnErr};

use crate::Table;
use scc_common::{Hashes, Keyed};
use std::alloc::AllocError;

impl<E: Keyed, H: Hashes<E::Key>> Table<E, H>
where
    E::Key: Eq,
{
    /// Relocates the first waiting buckets, `most` of them, which is at most two. A bucket whose memory is refused
    /// counts, and still waits.
    #[inline(always)]
    pub(crate) fn relocate_some(&mut self, most: usize)
        requires { most ≤ 2 }
        ensures { RelocatesUpTo most self.old self.new }
    {
        for done in 0..most {
            if self.draining.pending == 0 {
                return;
            }
            match self.relocate_next() {
                Ok(()) => {}
                Err(_) => {
                    if done + 1 < most {
                        self.relocate_second();
                    }
                    return;
                }
            }
        }
    }

    /// Relocates the second waiting bucket, if there is one and its memory isn't refused.
    #[cold]
    fn relocate_second(&mut self)
        requires { 0 < pending_of self.old }
        ensures { TriesSecond self.old self.new }
    {
        match self.draining.second_waiting() {
            Some(bucket) => match self.relocate(bucket) {
                Ok(()) => {}
                Err(_) => {}
            },
            None => {}
        }
    }

    /// Relocates the waiting bucket `bucket`: moves its entries into it, in their order. Allocates only if they are
    /// more than 32. Fails if memory is refused; then nothing changes. Releases the old array with the last waiting
    /// bucket. Takes time proportional to the number of entries in the old buckets that hold those of `bucket`.
    pub fn relocate(&mut self, bucket: usize) -> Result<(), AllocError>
        requires { IsWaiting self.old bucket }
        ensures ok { OnOk result (IsRelocated bucket self.old self.new) }
        ensures err { OnErr result (self.new ≡ self.old) }
        ensures refused { OnErr result (32 < length (list_of self.old bucket)) }
        ensures bounded { IsBounded self.old → length (list_of self.old bucket) ≤ 32 → IsBounded self.new }
        ensures listed { IsListed (λ e. hash_in H.hash_of self.old (E.key_of e)) self.old
            → IsListed (λ e. hash_in H.hash_of self.new (E.key_of e)) self.new }
        ensures not_waiting { OnOk result (waits_at (waiting_of self.new) bucket ≡ false) }
        ensures targets { OnOk result
            (pending_targets self.new ≡ filter (λ t. not (t == bucket)) (pending_targets self.old)) }
        ensures routed { IsRouted (λ e. hash_in H.hash_of self.old (E.key_of e))
            self.old }
        ensures unique { IsUniqueBy E.Key.eq E.key_of self.new }
    {
        self.draining.relocate(&mut self.current, bucket)
    }

    /// Relocates the first waiting bucket, as `relocate` does. Later calls don't visit the buckets before it.
    pub(crate) fn relocate_next(&mut self) -> Result<(), AllocError>
        requires { 0 < pending_of self.old }
        ensures ok { OnOk result ((i : ℕ) × (IsFirstWaiting self.old i) × (IsRelocated i self.old self.new)) }
        ensures err { OnErr result (self.new ≡ self.old) }
        ensures refused { OnErr result ((i : ℕ) × (IsFirstWaiting self.old i) × (32 < length (list_of self.old i))) }
        ensures bounded { IsBounded self.old → AreShort self.old → IsBounded self.new }
    {
        let bucket = self.draining.advance();
        self.relocate(bucket)
    }

    /// Relocates all waiting buckets, in their order. Fails if memory for a bucket is refused; then this bucket and
    /// those after it still wait.
    pub fn finish(&mut self) -> Result<(), AllocError>
        ensures { RelocatesAll self.old result self.new }
    {
        for _ in 0..self.draining.pending {
            self.relocate_next()?;
        }
        Ok(())
    }
}
