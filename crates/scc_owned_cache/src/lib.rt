//! A hash cache for one owner, over the table of `scc_table`.
#![tactic(auto)]

ghost use Rattle.scc_owned_cache.specs.CacheSteps.{AnswersOn, IsAbsent, IsPresent};
ghost use Rattle.scc_owned_cache.specs.Caches.{IsCacheState};
ghost use Rattle.scc_owned_cache.specs.Evictions.{IsEvictedFor};
ghost use Rattle.scc_owned_cache.specs.KeyCalls.{PutsByRule, RemovesByRule, RemovesIfByRule};
ghost use Rattle.scc_common.specs.Contents.{entries, bucket_count, minimum_of, note_of, pending_of, key_hash, hash_in};
ghost use Rattle.scc_common.specs.Rules.{IsKeptAt, ReadsKept, RemovesKept};
ghost use Rattle.std.specs.Borrow.{Bor};
ghost use Rattle.std.specs.Fn.{FnOnceReturnsAtMut, FnOnceTakesAtMut};
ghost use Rattle.std.specs.Prelude.{◌≡◌, ◌≤◌, ◌*◌, ◌↔◌, Bool, [], length, IfOk, IfSome, IsTrue, MatchOption};

pub mod borrowed;
mod clone_and_eq;
mod getting;
pub mod held;
mod hinted;
mod lent;
pub mod locked;
mod make;
mod part;
mod places;
mod prepare;
mod walk;

pub use borrowed::{Entry, OccupiedEntry, ReplaceResult, VacantEntry};
use scc_common::{Anything, Hashes, InsertError, Rule, Ruled};
use scc_table::Table;
use std::alloc::Global;
use std::hash::{BuildHasher, BuildHasherDefault, FoldHasher, Hash};
use std::marker::Model;
use std::ops::RangeInclusive;

/// The pair that a put evicted, if it evicted one.
pub type EvictedEntry<K, V> = Option<(K, V)>;

/// The maximum of a cache that is made without one.
pub const DEFAULT_MAXIMUM_CAPACITY: usize = 256;

/// A cache from keys to values, in which no two keys are equal. A contract sees the lists of its buckets, each from
/// the least to the most recent pair, its settings, and its maximum of slots as `c.maximum`.
///
/// Each pair keeps the rule `R`. A call asks of what it stores that it keeps the rule, and says of what it reads or
/// hands out that it does. Under `Anything`, what it asks proves itself.
///
/// The default hasher has a fixed seed. For keys that an attacker chooses, use `Owned::with_hasher(alloc,
/// RandomState::new(&rt)?)`.
#[derive(Drop)]
pub struct Owned<
    K: Eq + Hash,
    V,
    H: BuildHasher = BuildHasherDefault<FoldHasher>,
    R: Rule<K, V> = Anything,
> {
    pub(crate) table: Table<Ruled<K, V, R>, H>,
    pub(crate) maximum: usize,
}

impl<K: Eq + Hash, V, H: BuildHasher, R: Rule<K, V>> Model for Owned<K, V, H, R> {
    ghost use Rattle.std.specs.Coded.{coded×};
    ghost use Rattle.scc_common.specs.Contents.{key_hash};
    ghost use Rattle.scc_owned_cache.specs.Caches.{Cached, cached_code, IsCacheState};

    ghost Value = { Cached (K × V) H };

    ghost coded = { cached_code (coded× K.code V.code) H.code };

    ghost view = { λ c. record { contents = c.table; maximum = c.maximum } };

    ghost invariant = { λ c. IsCacheState K.eq (key_hash H.BuildHasher H.Hasher.Hasher K.hash_input c.table)
        (record { contents = c.table; maximum = c.maximum }) };
}

impl<K: Eq + Hash, V, H: BuildHasher, R: Rule<K, V>> Owned<K, V, H, R> {
    /// Returns the allocator of the cache.
    pub fn allocator(&self) -> Global {
        self.table.allocator()
    }

    /// Returns the number of pairs.
    #[inline(always)]
    pub fn len(&self) -> usize
        ensures len { result ≡ length (entries self.now.contents) }
        ensures most { result ≤ 32 * bucket_count self.now.contents }
        ensures state { IsCacheState K.eq (hash_in ⟦<H as Hashes<K>>⟧.hash_of self.now.contents) self.now }
    {
        self.table.len()
    }

    /// Returns whether there is no pair.
    #[inline(always)]
    pub fn is_empty(&self) -> bool
        ensures { IsTrue result ↔ (entries self.now.contents ≡ []) }
    {
        self.table.len() == 0
    }

    /// Returns whether memory was refused for the last resize that was due. The next resize that is made clears this
    /// note. If the result is false after a call that had to resize, the cache has the size that the rules ask for.
    #[inline(always)]
    pub fn is_resize_refused(&self) -> bool
        ensures { result ≡ note_of self.now.contents }
    {
        self.table.is_resize_refused()
    }

    /// Returns the number of slots of the array, 32 a bucket, or 0 without an array. There are never more pairs than
    /// slots.
    #[inline(always)]
    pub fn capacity(&self) -> usize
        ensures size { result ≡ 32 * bucket_count self.now.contents }
        ensures within { result ≤ self.now.maximum }
    {
        32 * self.table.bucket_count()
    }

    /// Returns the range of slots that the array may have: from the minimum to the most that it may grow to.
    pub fn capacity_range(&self) -> RangeInclusive<usize>
        ensures low { result.start ≡ minimum_of self.now.contents }
        ensures high { result.end ≡ self.now.maximum }
        ensures order { minimum_of self.now.contents ≤ self.now.maximum }
    {
        self.table.minimum()..=self.maximum
    }

    /// Returns how many buckets wait for their pairs from an old array.
    pub fn pending(&self) -> usize
        ensures { result ≡ pending_of self.now.contents }
    {
        self.table.pending()
    }

    /// Returns whether a key equals `k`. The order of the pairs stays.
    #[inline(always)]
    pub fn contains_sync(&self, k: &K) -> bool
        ensures yes { IsTrue result → (p : K × V)
            × IsPresent (hash_in ⟦<H as Hashes<K>>⟧.hash_of self.now.contents) K.eq self.now.contents k.now p }
        ensures no { (IsTrue result → ⊥) → IsAbsent (hash_in ⟦<H as Hashes<K>>⟧.hash_of self.now.contents) K.eq
            self.now.contents k.now }
    {
        let hash = self.table.hash(k);
        match self.place_of(hash, k) {
            Some(_) => true,
            None => false,
        }
    }

    /// Returns the result of `f` on the pair of `k`. If no key equals `k`, returns `None` and doesn't call `f`. The
    /// order of the pairs stays.
    #[inline(always)]
    pub fn read_sync<A, F: FnOnce(&K, &V) -> A>(&self, k: &K, f: F) -> Option<A>
        requires { (a : Bor K) (b : Bor V) → IsPresent (hash_in ⟦<H as Hashes<K>>⟧.hash_of self.now.contents) K.eq
            self.now.contents k.now (a.now, b.now) → R.holds a.now b.now → F.pre f a b }
        ensures answer { MatchOption result (IsAbsent (hash_in ⟦<H as Hashes<K>>⟧.hash_of self.now.contents) K.eq
            self.now.contents k.now) (AnswersOn (hash_in ⟦<H as Hashes<K>>⟧.hash_of self.now.contents) K.eq F.FnOnce f
            self.now.contents k.now) }
        ensures kept { IfSome result (ReadsKept K.eq R.holds F.FnOnce f k.now) }
    {
        let hash = self.table.hash(k);
        match self.place_of(hash, k) {
            Some(place) => {
                let (key, value) = self.pair_at(place);
                Some(f(key, value))
            }
            None => None,
        }
    }

    /// Puts in the pair as the most recent of its bucket if no key equals `k`. If the bucket holds 32 pairs, at least
    /// half the slots are in use, no bucket waits and the array is below the maximum, the array is doubled first. If
    /// the bucket of `k` then holds 32 pairs, the least recent of them is evicted and returned. If a key equals `k`,
    /// nothing changes and the supplied pair comes back. The pair also comes back if there is no array and memory for
    /// one is refused; with an array no refused memory makes a put fail. If buckets wait, the bucket of `k` is
    /// relocated first and then the first ones that wait, two in all; after a doubling all other buckets wait. If
    /// `make_room` was called for `k` just before, no array is made or doubled. A put that succeeds takes the mark of a
    /// refused doubling away.
    #[inline(always)]
    pub fn put_sync(&mut self, k: K, v: V) -> Result<EvictedEntry<K, V>, InsertError<K, V>>
        requires { R.holds k v }
        ensures puts { PutsByRule K.eq ⟦<H as Hashes<K>>⟧.hash_of self.old (k, v) result self.new }
        ensures evicted { IfOk result (IsEvictedFor K.eq R.holds k) }
    {
        let hash = self.table.hash(&k);
        match self.place_of(hash, &k) {
            Some(_) => Err(InsertError::Exists((k, v))),
            None => match self.put_new(hash, k, v) {
                Ok((evicted, _)) => Ok(evicted),
                Err(pair) => Err(InsertError::Memory(pair)),
            },
        }
    }

    /// Removes the pair whose key equals `k` and returns it, or returns `None` if there is none. If few pairs are
    /// left, the array may shrink, and then every bucket of the new array waits.
    #[inline(always)]
    pub fn remove_sync(&mut self, k: &K) -> Option<(K, V)>
        ensures removes { RemovesByRule K.eq ⟦<H as Hashes<K>>⟧.hash_of self.old k.now result self.new }
        ensures kept { IfSome result (IsKeptAt K.eq R.holds k.now) }
    {
        let hash = self.table.hash(k);
        match self.place_of(hash, k) {
            Some(place) => Some(self.remove_at(place)),
            None => None,
        }
    }

    /// Calls `f` on the value of `k`. If `f` returns true, removes the pair, with what `f` wrote, and returns it. If
    /// `f` returns false, what it wrote stays, the result is `None`, and the order of the pairs stays. If no key
    /// equals `k`, `f` isn't called and the result is `None`. What `f` leaves must keep the rule in both cases.
    /// If few pairs are left after a removal, the array may shrink.
    #[inline(always)]
    pub fn remove_if_sync<F: FnOnce(&mut V) -> bool>(&mut self, k: &K, f: F) -> Option<(K, V)>
        requires callable { (p : K × V) → IsPresent (hash_in ⟦<H as Hashes<K>>⟧.hash_of self.old.contents) K.eq
            self.old.contents k.now p → R.holds p.0 p.1 → FnOnceTakesAtMut F.FnOnce f p.1 }
        requires keeps { (p : K × V) (b : Bool) (w : V)
            → IsPresent (hash_in ⟦<H as Hashes<K>>⟧.hash_of self.old.contents) K.eq self.old.contents k.now p
            → R.holds p.0 p.1 → FnOnceReturnsAtMut F.FnOnce f p.1 b w → R.holds p.0 w }
        ensures removes { RemovesIfByRule K.eq ⟦<H as Hashes<K>>⟧.hash_of F.FnOnce f self.old k.now result self.new }
        ensures kept { IfSome result (IsKeptAt K.eq R.holds k.now) }
        ensures tested { IfSome result (RemovesKept R.holds F.FnOnce f k.now) }
    {
        let hash = self.table.hash(k);
        let place = self.place_of(hash, k)?;
        if self.modify_at(place, f) {
            Some(self.remove_at(place))
        } else {
            None
        }
    }
}
