//! A bucket that a closure fills.
ghost use Rattle.scc_array.specs.Shelf.{Shelf};
ghost use Rattle.scc_buckets.specs.Filling.{CalledOnArrays, FillsByCall, IsArrayOf, IsFilledArray, TakesArrays};
ghost use Rattle.scc_buckets.specs.Routes.{route_of};
ghost use Rattle.scc_common.specs.Contents.{hash_in};
ghost use Rattle.std.specs.Prelude.{ℕ, List};

use crate::{Buckets, Router};
use scc_array::Array;
use scc_common::{Hashes, Keyed};

impl<E: Keyed, H: Hashes<E::Key>> Buckets<E, H>
where
    E::Key: Eq,
{
    /// Calls `f` with the router, the array and `old`. `f` may fill `bucket`, which must hold no entry, and must leave
    /// the other buckets. Returns what `f` returned, and the number of entries of `bucket` then.
    #[inline(always)]
    pub fn fill_by<R, F: FnOnce(&Router<H>, &mut Array<E>, &mut Array<E>) -> R>(
        &mut self,
        bucket: usize,
        old: &mut Array<E>,
        f: F,
    ) -> (R, usize)
        requires takes { (bs : List (Shelf E)) (n m : ℕ)
            → IsArrayOf E.Key.eq E.key_of (λ e. hash_in H.hash_of self.old (E.key_of e)) self.old bs n m
            → TakesArrays F.FnOnce f (route_of self.old) bs old.old }
        requires keeps { (bs filled news : List (Shelf E)) (n m : ℕ) (r : R)
            → IsArrayOf E.Key.eq E.key_of (λ e. hash_in H.hash_of self.old (E.key_of e)) self.old bs n m
            → CalledOnArrays F.FnOnce f (route_of self.old) bs old.old r filled news
            → IsFilledArray E.Key.eq E.key_of (λ e. hash_in H.hash_of self.old (E.key_of e)) self.old bucket n m filled }
        ensures { FillsByCall E.Key.eq E.key_of (λ e. hash_in H.hash_of self.old (E.key_of e)) F.FnOnce f bucket
            self.old old.old result self.new old.new }
    {
        let result = f(&self.router, &mut self.buckets, old);
        let moved = self.buckets.bucket_len(bucket);
        self.length += moved;
        self.overflowing += self.buckets.overflow_len(bucket);
        (result, moved)
    }
}
