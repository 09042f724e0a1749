//! The calls that return an entry. An entry holds the lock of its stripe. Each of these calls refreshes the pair that
//! it finds.
ghost use Rattle.std.specs.Prelude.{◌≡◌, true, IfSome};
ghost use Rattle.std.specs.Sync.RwLock.{write_guard_value};
ghost use Rattle.scc_common.specs.Contents.{hash_in};
ghost use Rattle.scc_owned_cache.specs.Caches.{Cached, IsCacheState};
ghost use Rattle.scc_owned_cache.specs.Entries.{entry_guard, entry_key, occupied_cache, occupied_pair, IsEntryOf, IsRefreshed, replaced_guard, Replaces};
ghost use Rattle.scc_owned_cache.specs.Seats.{entry_rest, occupied_rest, replaced_rest};
ghost use Rattle.scc_stripes.specs.Seats.{IsSeatOfKey};
ghost use Rattle.scc_shared_cache.specs.Stripes.{stripes_of};
ghost use Rattle.scc_common.specs.Replies.{HasKey};
ghost use Rattle.scc_shared_cache.specs.Replies.{ReplacesEqual};

use crate::SharedCache;
use scc_common::{Hashes, Rule};
use scc_owned_cache::held::{HeldEntry, HeldOccupied, HeldReplace};
use scc_owned_cache::locked::{Entry, OccupiedEntry, ReplaceResult};
use std::hash::{BuildHasher, Hash};
use std::sync::Wait;

impl<K: Eq + Hash, V, R: Rule<K, V>, H: BuildHasher> SharedCache<K, V, R, H> {
    /// Returns the entry of `k`: occupied if a key equals `k`, else vacant with `k`. The pair of an occupied entry
    /// becomes the most recent of its bucket. Inserts nothing and makes no array.
    pub fn entry_sync(&self, rt: &impl Wait, k: K) -> Entry<'_, K, V, H, R>
    where
        K: Drop,
        ensures key { K.eq k (entry_key result) ≡ true }
        ensures entry { (before : Cached (K × V) H) × IsEntryOf K.eq before k result }
        ensures state { IsCacheState K.eq (hash_in ⟦<H as Hashes<K>>⟧.hash_of
            (write_guard_value (entry_guard result)).contents) (write_guard_value (entry_guard result)) }
        ensures seat { IsSeatOfKey H.BuildHasher H.Hasher.Hasher K.hash_input (stripes_of self.now) k (entry_rest result) }
    {
        let stripe = self.stripes.route(&k);
        let (guard, seat) = self.stripes.hold(rt, stripe);
        HeldEntry::of(guard, k, seat)
    }

    /// Returns the occupied entry of `k`, whose pair becomes the most recent of its bucket, or `None` if no key equals
    /// `k`. If it returns `None`, nothing changes.
    pub fn get_sync(&self, rt: &impl Wait, k: &K) -> Option<OccupiedEntry<'_, K, V, H, R>>
        ensures key { IfSome result (λ o. HasKey K.eq k.now (occupied_pair o)) }
        ensures entry { IfSome result (λ o. (before : Cached (K × V) H) × IsRefreshed K.eq before k.now o) }
        ensures state { IfSome result (λ o. IsCacheState K.eq (hash_in ⟦<H as Hashes<K>>⟧.hash_of
            (occupied_cache o).contents) (occupied_cache o)) }
        ensures seat { IfSome result (λ o. IsSeatOfKey H.BuildHasher H.Hasher.Hasher K.hash_input (stripes_of self.now)
            k.now (occupied_rest o)) }
    {
        let stripe = self.stripes.route(k);
        let (guard, seat) = self.stripes.hold(rt, stripe);
        HeldOccupied::of(guard, k, seat)
    }

    /// Puts `k` in the place of the key that equals `k`, keeps the value, makes the pair the most recent of its
    /// bucket, and returns the occupied entry with the old key. If no key equals `k`, changes nothing and returns the
    /// vacant entry.
    pub fn replace_sync(&self, rt: &impl Wait, k: K) -> ReplaceResult<'_, K, V, H, R>
        ensures key { ReplacesEqual K.eq k result }
        ensures step { (before : Cached (K × V) H) × Replaces K.eq before k result }
        ensures state { IsCacheState K.eq (hash_in ⟦<H as Hashes<K>>⟧.hash_of
            (write_guard_value (replaced_guard result)).contents) (write_guard_value (replaced_guard result)) }
        ensures seat { IsSeatOfKey H.BuildHasher H.Hasher.Hasher K.hash_input (stripes_of self.now) k
            (replaced_rest result) }
    {
        let stripe = self.stripes.route(&k);
        let (guard, seat) = self.stripes.hold(rt, stripe);
        HeldReplace::of(guard, k, seat)
    }
}
