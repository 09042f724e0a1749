//! How an entry is made from the guard of a cache. The pair of the key first becomes the most recent of its bucket. The
//! guard may be of any kind, but the owned form, whose contracts say more of a guard that goes, makes its entries
//! itself.
ghost use Rattle.scc_owned_cache.specs.CacheSteps.{IsAbsent};
ghost use Rattle.scc_owned_cache.specs.Caches.{IsCacheState};
ghost use Rattle.scc_owned_cache.specs.Entries.{entry_guard, occupied_cache, IsEntryOf, IsRefreshed, replaced_guard, Replaces, occupied_guard};
ghost use Rattle.scc_owned_cache.specs.Seats.{entry_rest, occupied_rest, replaced_rest};
ghost use Rattle.scc_common.specs.Contents.{hash_in};
ghost use Rattle.std.specs.Prelude.{◌≡◌, IfSome, IfNone};

use crate::Owned;
use crate::held::{HeldEntry, HeldOccupied, HeldReplace, HeldVacant};
use scc_common::{Guard, Hashes, Rule};
use std::hash::{BuildHasher, Hash};

impl<
    G: Guard<Inner = Owned<K, V, H, R>>,
    N,
    K: Eq + Hash,
    V,
    H: BuildHasher,
    R: Rule<K, V>,
> HeldEntry<G, N, K, V, H, R> {
    /// Returns the entry of `k` in the cache of `guard`: occupied at the stored pair, which becomes the most recent of
    /// its bucket, or vacant with `k`. Allocates nothing and makes no array.
    pub fn of(guard: G, k: K, rest: N) -> Self
    where
        K: Drop,
        ensures same_guard { entry_guard result ≡ G.with_inner guard (G.inner (entry_guard result)) }
        ensures rest { entry_rest result ≡ rest }
        ensures entry { IsEntryOf K.eq (G.inner guard) k result }
        ensures state { IsCacheState K.eq (hash_in ⟦<H as Hashes<K>>⟧.hash_of (G.inner (entry_guard result)).contents)
            (G.inner (entry_guard result)) }
    {
        let mut guard = guard;
        let hash = guard.look().hash_of(&k);
        match guard.lend().refresh(hash, &k) {
            Some(place) => HeldEntry::Occupied(HeldOccupied::at(guard, place, rest)),
            None => HeldEntry::Vacant(HeldVacant::of_key(guard, k, hash, rest)),
        }
    }
}

impl<
    G: Guard<Inner = Owned<K, V, H, R>>,
    N,
    K: Eq + Hash,
    V,
    H: BuildHasher,
    R: Rule<K, V>,
> HeldOccupied<G, N, K, V, H, R> {
    /// Returns the occupied entry of `k` in the cache of `guard`, whose pair becomes the most recent of its bucket. If
    /// no key equals `k`, changes nothing, drops the guard and returns `None`.
    pub fn of(guard: G, k: &K, rest: N) -> Option<Self>
    where
        G: Drop,
        N: Drop,
        ensures same_guard { IfSome result (λ o. occupied_guard o ≡ G.with_inner guard (occupied_cache o)) }
        ensures rest { IfSome result (λ o. occupied_rest o ≡ rest) }
        ensures entry { IfSome result (IsRefreshed K.eq (G.inner guard) k.now) }
        ensures missing { IfNone result (IsAbsent (hash_in ⟦<H as Hashes<K>>⟧.hash_of (G.inner guard).contents) K.eq
            (G.inner guard).contents k.now) }
        ensures state { IfSome result (λ o. IsCacheState K.eq
            (hash_in ⟦<H as Hashes<K>>⟧.hash_of (occupied_cache o).contents) (occupied_cache o)) }
    {
        let mut guard = guard;
        let hash = guard.look().hash_of(k);
        match guard.lend().refresh(hash, k) {
            Some(place) => Some(HeldOccupied::at(guard, place, rest)),
            None => None,
        }
    }
}

impl<
    G: Guard<Inner = Owned<K, V, H, R>>,
    N,
    K: Eq + Hash,
    V,
    H: BuildHasher,
    R: Rule<K, V>,
> HeldReplace<G, N, K, V, H, R> {
    /// Puts `k` in the place of the key that equals it, makes the pair the most recent of its bucket, and returns the
    /// entry with the old key. If no key equals `k`, returns the vacant entry of `k`.
    pub fn of(guard: G, k: K, rest: N) -> Self
        ensures rest { replaced_rest result ≡ rest }
        ensures step { Replaces K.eq (G.inner guard) k result }
        ensures state { IsCacheState K.eq (hash_in ⟦<H as Hashes<K>>⟧.hash_of
            (G.inner (replaced_guard result)).contents) (G.inner (replaced_guard result)) }
    {
        let mut guard = guard;
        let hash = guard.look().hash_of(&k);
        match guard.lend().refresh(hash, &k) {
            Some(place) => {
                let old = guard.lend().replace_key_at(place, k);
                HeldReplace::Replaced(HeldOccupied::at(guard, place, rest), old)
            }
            None => HeldReplace::NotReplaced(HeldVacant::of_key(guard, k, hash, rest)),
        }
    }
}
