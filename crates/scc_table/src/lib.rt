//! `Table`: the table of the hash containers, whose resizes are spread over insertions. The entries of an old array
//! stay there until their bucket of the current array is relocated.
#![tactic(auto)]

ghost use Rattle.scc_common.specs.Contents.{bucket_count, hash_in, pending_of, IsRouted, IsUniqueBy, mark_of, note_of};
ghost use Rattle.scc_common.specs.Sizes.{IsLawful};
ghost use Rattle.scc_table.specs.TwoArrays.{IsWaiting};
ghost use Rattle.std.specs.Prelude.{◌≡◌, ◌<◌, ◌≤◌, ◌^◌, ◌↔◌, IsTrue};

mod bounded;
mod insert;
mod insert_made;
mod lookup;
mod make;
mod remove;
mod resize;
mod walk;

pub use lookup::hinted::Hinted;
pub use resize::reserve::Reservation;
use scc_buckets::Buckets;
use scc_common::{Hashes, Keyed};
use scc_draining::Draining;
use std::marker::Model;

/// Entries with distinct keys, in the buckets of the current array, or in the old array if their bucket waits. A
/// contract sees one list for each bucket, whichever array holds its entries.
#[derive(Drop)]
pub struct Table<E: Keyed, H: Hashes<E::Key>>
where
    E::Key: Eq,
{
    draining: Draining<E>,
    current: Buckets<E, H>,
}

impl<E: Keyed, H: Hashes<E::Key>> Model for Table<E, H>
where
    E::Key: Eq,
{
    ghost use Rattle.scc_common.specs.Contents.{Contents, contents_code, hash_in};
    ghost use Rattle.scc_draining.specs.Drainings.{draining_of};
    ghost use Rattle.scc_table.specs.TwoArrays.{together, IsTable};

    ghost Value = { Contents E H };

    ghost coded = { contents_code E.code H.code };

    ghost view = { λ t. together (λ e. hash_in H.hash_of t.current (E.key_of e))
        t.current t.draining.waiting.items t.draining.array };

    ghost invariant = { λ t. IsTable E.Key.eq E.key_of (hash_in H.hash_of
        t.current) t.current (draining_of t.draining) };
}

impl<E: Keyed, H: Hashes<E::Key>> Table<E, H>
where
    E::Key: Eq,
{
    /// Returns the number of buckets, 0 if there is no array.
    #[inline(always)]
    pub fn bucket_count(&self) -> usize
        ensures count { result ≡ bucket_count self.now }
        ensures most { result ≤ 2 ^ 58 }
        ensures lawful { IsLawful result }
        ensures routed { IsRouted (λ e. hash_in H.hash_of self.now (E.key_of e))
            self.now }
        ensures unique { IsUniqueBy E.Key.eq E.key_of self.now }
    {
        self.current.bucket_count()
    }

    /// Returns the number of waiting buckets.
    #[inline(always)]
    pub fn pending(&self) -> usize
        ensures { result ≡ pending_of self.now }
    {
        self.draining.pending
    }

    /// Returns whether memory was refused for the last resize that was due.
    #[inline(always)]
    pub fn is_resize_refused(&self) -> bool
        ensures { result ≡ note_of self.now }
    {
        self.current.is_resize_refused()
    }

    /// Returns whether the growth is marked: memory for it was refused just before, and the next insertion doesn't try
    /// it.
    #[inline(always)]
    pub fn is_marked(&self) -> bool
        ensures { result ≡ mark_of self.now }
    {
        self.current.is_marked()
    }

    /// Returns whether `bucket` waits.
    #[inline(always)]
    pub fn is_waiting(&self, bucket: usize) -> bool
        requires { bucket < bucket_count self.now }
        ensures { IsTrue result ↔ IsWaiting self.now bucket }
    {
        if self.draining.pending == 0 {
            return false;
        }
        self.draining.is_waiting(bucket)
    }
}
