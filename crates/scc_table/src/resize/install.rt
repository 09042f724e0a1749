//! Installs a new array in the place of the current one, which becomes the old array.
ghost use Rattle.scc_array.specs.Shelf.{empty_shelf};
ghost use Rattle.scc_common.specs.Contents.{bucket_count, hash_in, pending_of};
ghost use Rattle.scc_common.specs.Sizes.{IsBucketCount};
ghost use Rattle.scc_table.specs.Installations.{Installs, Notes, ResizesArray, InstallsFresh, InstallsRelocating};
ghost use Rattle.std.specs.Prelude.{◌≡◌, ◌≢◌, ◌<◌, true, false, replicate};

use crate::Table;
use scc_array::Array;
use scc_common::{Hashes, Keyed};
use scc_draining::{fresh_waiting, move_target};
use std::alloc::AllocError;

impl<E: Keyed, H: Hashes<E::Key>> Table<E, H>
where
    E::Key: Eq,
{
    /// Moves the table to an array of `count` buckets: relocates all waiting buckets, and installs the new array, whose
    /// buckets all wait. Fails if memory is refused; then each list stays, and the buckets that were relocated stay
    /// relocated. Notes whether memory was refused.
    pub(crate) fn resize_to(&mut self, count: usize) -> Result<(), AllocError>
        requires array { IsBucketCount count }
        requires some { 0 < bucket_count self.old }
        requires other { count ≢ bucket_count self.old }
        ensures { ResizesArray E.Key.eq E.key_of
            (λ e. hash_in H.hash_of self.old (E.key_of e)) count
            self.old result self.new }
    {
        match self.finish() {
            Ok(()) => self.install_fresh(count),
            Err(e) => {
                self.note(true);
                Err(e)
            }
        }
    }

    /// Moves the table to an array of `count` buckets, as `resize_to` does, if no bucket waits. On failure, no bucket
    /// waits either.
    pub(crate) fn install_fresh(&mut self, count: usize) -> Result<(), AllocError>
        requires not_waiting { pending_of self.old ≡ 0 }
        requires array { IsBucketCount count }
        requires some { 0 < bucket_count self.old }
        requires other { count ≢ bucket_count self.old }
        ensures { InstallsFresh E.Key.eq E.key_of
            (λ e. hash_in H.hash_of self.old (E.key_of e)) count
            self.old result self.new }
    {
        match fresh_waiting(self.current.allocator(), count) {
            Ok((fresh, flags)) => {
                self.install(count, fresh, flags);
                self.note(false);
                Ok(())
            }
            Err(e) => {
                self.note(true);
                Err(e)
            }
        }
    }

    /// Sets the note of refused memory to `refused`, and takes the mark away.
    pub(crate) fn note(&mut self, refused: bool)
        ensures { Notes E.Key.eq E.key_of (refused, false) self.old self.new }
    {
        self.current.note(refused);
    }

    /// Sets the note of refused memory, and the mark, which says that the next insertion doesn't try the growth.
    pub(crate) fn mark(&mut self, refused: bool, marked: bool)
        ensures { Notes E.Key.eq E.key_of (refused, marked) self.old self.new }
    {
        self.current.mark(refused, marked);
    }

    /// Installs `fresh`, an array of `count` empty buckets. Every bucket of it waits, as `flags` must say.
    pub(crate) fn install(&mut self, count: usize, fresh: Array<E>, flags: Vec<bool>)
        requires not_waiting { pending_of self.old ≡ 0 }
        requires array { IsBucketCount count }
        requires some { 0 < bucket_count self.old }
        requires other { count ≢ bucket_count self.old }
        requires empty { fresh ≡ replicate count empty_shelf }
        requires flags { flags.items ≡ replicate count true }
        ensures { Installs (λ e. hash_in H.hash_of self.old (E.key_of e))
            count self.old self.new }
    {
        let (old, left, left_overflow) = self.current.install(fresh, 0, 0);
        self.draining.begin(old, flags, count, left, left_overflow);
    }

    /// Installs `fresh`, an array of `count` empty buckets, and relocates `bucket` at once. Every other bucket waits,
    /// as `flags` must say. No bucket may wait before. Fails if memory for `bucket` is refused; then all stays.
    pub(crate) fn install_relocating(
        &mut self,
        count: usize,
        fresh: Array<E>,
        mut flags: Vec<bool>,
        bucket: usize,
    ) -> Result<(), AllocError>
        requires not_waiting { pending_of self.old ≡ 0 }
        requires array { IsBucketCount count }
        requires some { 0 < bucket_count self.old }
        requires other { count ≢ bucket_count self.old }
        requires within { bucket < count }
        requires empty { fresh ≡ replicate count empty_shelf }
        requires flags { flags.items ≡ replicate count true }
        ensures { InstallsRelocating E.Key.eq E.key_of
            (λ e. hash_in H.hash_of self.old (E.key_of e)) count
            bucket self.old result self.new }
    {
        let (mut old, left, overflow) = self.current.install(fresh, 0, 0);
        match move_target(
            &mut self.current,
            &mut old,
            bucket,
            overflow,
            flags.as_slice(),
        ) {
            Ok(moved) => {
                flags[bucket] = false;
                self.draining
                    .begin(old, flags, count - 1, left - moved, overflow);
                Ok(())
            }
            Err(e) => {
                let (bare, _, _) = self.current.install(old, left, overflow);
                bare.destroy_empty();
                Err(e)
            }
        }
    }
}
