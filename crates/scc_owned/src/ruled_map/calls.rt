//! The calls on a map under a rule that name a key. A closure must take and keep what the rule allows; what a call does to
//! the map, it does as the call of a map without a rule.
ghost use Rattle.scc_common.specs.Closures.{Reads, WritesAt};
ghost use Rattle.scc_common.specs.Contents.{entries, hash_in, notes_of, waiting_of};
ghost use Rattle.scc_common.specs.Pairs.{find, FindsInstead, HasRoom, IsUnique};
ghost use Rattle.scc_common.specs.Replies.{HasKey};
ghost use Rattle.scc_common.specs.Rules.{IsCalledOn, IsCalledToWrite, IsTested, Keeps, KeepsTested, ReadsKept, RemovesKept, WritesKept};
ghost use Rattle.scc_owned.specs.Entries.{Exists, Memory};
ghost use Rattle.scc_owned.specs.MapSteps.{Inserts, Removes, RemovesIf, UpdatesAt, Upserts};
ghost use Rattle.scc_table.specs.Arrays.{GrowsByRule, ShrinksByRule};
ghost use Rattle.std.specs.Prelude.{◌≡◌, ◌⊎◌, IfErr, IfNone, IfOk, IfSome, IsOk, IsSome, MatchOption, None, OnSome, Some, true};
ghost use Rattle.std.specs.Result.{OnErr, OnOk};

use crate::ruled_map::RuledMap;
use scc_common::{Hashes, InsertError, Rule, Valued};
use std::hash::{BuildHasher, Hash};

impl<K: Eq + Hash, V, R: Rule<K, V>, H: BuildHasher> RuledMap<K, V, R, H> {
    /// Returns the result of `f` on the pair of `k`. If no key equals `k`, returns `None` and doesn't call `f`. The
    /// search begins with `hint`, the hash of `k` under some hasher. If the map's own hasher gives the same hash, the
    /// pair is there and no bucket waits, `k` isn't hashed again.
    #[inline(always)]
    pub fn read_by_hint<A, F: FnOnce(&K, &V) -> A>(&self, hint: u64, k: &K, f: F) -> Option<A>
        requires { IsCalledOn K.eq R.holds F.FnOnce f k.now }
        ensures step { Reads F.FnOnce f (find K.eq (entries self.now) k.now) result }
        ensures answer { IfSome result (ReadsKept K.eq R.holds F.FnOnce f k.now) }
    {
        match self.table.find_by_hint(hint, k) {
            Some(entry) => {
                let (key, value) = entry.parts();
                Some(f(key, value))
            }
            None => None,
        }
    }

    /// Returns the pair of `k`, or `None` if no key equals `k`.
    #[inline(always)]
    pub fn find_pair(&self, k: &K) -> Option<(&K, &V)>
        ensures { MatchOption result (find K.eq (entries self.now) k.now ≡ None)
            (λ p. find K.eq (entries self.now) k.now ≡ Some (p.0.now, p.1.now)) }
    {
        let hash = self.table.hash(k);
        match self.table.find(hash, k) {
            Some(entry) => Some(entry.parts()),
            None => None,
        }
    }

    /// Inserts the pair, which must keep the rule, if no key equals `k`. If a key equals `k`, or if memory is refused,
    /// the pair comes back. Memory is refused only if the bucket of `k` has no room.
    #[inline(always)]
    pub fn insert_sync(&mut self, k: K, v: V) -> Result<(), InsertError<K, V>>
        requires { R.holds k v }
        ensures step { Inserts K.eq (hash_in ⟦<H as Hashes<K>>⟧.hash_of self.old) self.old (k, v) result self.new }
        ensures succeeds { find K.eq (entries self.old) k ≡ None → HasRoom (hash_in ⟦<H as Hashes<K>>⟧.hash_of self.old) self.old k → IsOk result }
        ensures finds { OnOk result (FindsInstead K.eq (entries self.old) k (Some (k, v)) (entries self.new)) }
        ensures same { OnErr result ((q : K) → find K.eq (entries self.new) q ≡ find K.eq (entries self.old) q) }
        ensures unique { IsUnique K.eq self.new }
        ensures array { GrowsByRule (λ p. p.0) (hash_in ⟦<H as Hashes<K>>⟧.hash_of self.old) (find K.eq (entries self.old) k) self.old k result self.new }
        ensures back { IfErr result (λ e. (e ≡ Exists (k, v)) ⊎ (e ≡ Memory (k, v))) }
    {
        let hash = self.table.hash(&k);
        match self.table.search(hash, &k) {
            Some(_) => Err(InsertError::Exists((k, v))),
            None => match self.insert_new(hash, k, v) {
                Ok(_) => Ok(()),
                Err(pair) => Err(InsertError::Memory(pair)),
            },
        }
    }

    /// Stores `v`, which must keep the rule, under `k`, and returns the old value. If a key equals `k`, the stored key
    /// stays, and `k` is dropped. If memory is refused, the pair comes back.
    #[inline(always)]
    pub fn upsert_sync(&mut self, k: K, v: V) -> Result<Option<V>, InsertError<K, V>>
    where
        K: Drop,
        requires { R.holds k v }
        ensures step { Upserts K.eq (hash_in ⟦<H as Hashes<K>>⟧.hash_of self.old) self.old (k, v) result self.new }
        ensures succeeds { IsSome (find K.eq (entries self.old) k) → IsOk result }
        ensures finds { OnOk result ((q : K) × (K.eq k q ≡ true) × FindsInstead K.eq (entries self.old) k (Some (q, v)) (entries self.new)) }
        ensures same { OnErr result ((q : K) → find K.eq (entries self.new) q ≡ find K.eq (entries self.old) q) }
        ensures unique { IsUnique K.eq self.new }
        ensures array { GrowsByRule (λ p. p.0) (hash_in ⟦<H as Hashes<K>>⟧.hash_of self.old) (find K.eq (entries self.old) k) self.old k result self.new }
        ensures back { IfErr result (λ e. e ≡ Memory (k, v)) }
        ensures old { IfOk result (λ o. IfSome o (R.holds k)) }
    {
        let hash = self.table.hash(&k);
        match self.table.search(hash, &k) {
            Some(place) => Ok(Some(self.write_at(place, v))),
            None => match self.insert_new(hash, k, v) {
                Ok(_) => Ok(None),
                Err(pair) => Err(InsertError::Memory(pair)),
            },
        }
    }

    /// Calls `u` on the pair of `k`, with the value to write, and returns its result. What `u` leaves must keep the rule.
    /// If no key equals `k`, returns `None` and doesn't call `u`.
    #[inline(always)]
    pub fn update_sync<A, U: FnOnce(&K, &mut V) -> A>(&mut self, k: &K, u: U) -> Option<A>
        requires callable { IsCalledToWrite K.eq R.holds U.FnOnce u k.now }
        requires keeps { Keeps K.eq R.holds U.FnOnce u k.now }
        ensures step { UpdatesAt U.FnOnce u K.eq self.old k.now self.new (find K.eq (entries self.old) k.now) result }
        ensures finds { IfSome result (λ x. (p : K × V) × (w : V) × (find K.eq (entries self.old) k.now ≡ Some p)
            × (K.eq k.now p.0 ≡ true) × WritesAt U.FnOnce u p x w
            × FindsInstead K.eq (entries self.old) k.now (Some (p.0, w)) (entries self.new)) }
        ensures missing { IfNone result (find K.eq (entries self.old) k.now ≡ None) }
        ensures noted { notes_of self.new ≡ notes_of self.old }
        ensures waiting { waiting_of self.new ≡ waiting_of self.old }
        ensures unique { IsUnique K.eq self.new }
        ensures answer { IfSome result (WritesKept K.eq R.holds U.FnOnce u k.now) }
    {
        let hash = self.table.hash(k);
        self.table.update(hash, k, u)
    }

    /// Calls `f` on the value of `k`. If `f` returns true, removes the pair, with what `f` wrote, and returns it. If `f`
    /// returns false, what it wrote stays and the result is `None`. What `f` leaves must keep the rule in both cases. If
    /// no key equals `k`, `f` isn't called and the result is `None`. After a removal the array may shrink.
    #[inline(always)]
    pub fn remove_if_sync<F: FnOnce(&mut V) -> bool>(&mut self, k: &K, f: F) -> Option<(K, V)>
        requires callable { IsTested R.holds F.FnOnce f k.now }
        requires keeps { KeepsTested R.holds F.FnOnce f k.now }
        ensures step { RemovesIf F.FnOnce f K.eq self.old k.now result self.new (find K.eq (entries self.old) k.now) }
        ensures finds { OnSome result (FindsInstead K.eq (entries self.old) k.now None (entries self.new)) }
        ensures unique { IsUnique K.eq self.new }
        ensures array { ShrinksByRule (IsSome result) self.old self.new }
        ensures key { IfSome result (HasKey K.eq k.now) }
        ensures answer { IfSome result (RemovesKept R.holds F.FnOnce f k.now) }
        ensures kept { IfSome result (λ p. R.holds p.0 p.1 × R.holds k.now p.1) }
    {
        let hash = self.table.hash(k);
        let place = self.table.search(hash, k)?;
        if self.modify_at(place, f) {
            Some(self.remove_at(place))
        } else {
            None
        }
    }

    /// Removes the pair whose key equals `k` and returns it, or returns `None` if there is none. After a removal the array
    /// may shrink.
    #[inline(always)]
    pub fn remove_sync(&mut self, k: &K) -> Option<(K, V)>
        ensures step { Removes K.eq self.old k.now result self.new }
        ensures finds { OnSome result (FindsInstead K.eq (entries self.old) k.now None (entries self.new)) }
        ensures unique { IsUnique K.eq self.new }
        ensures array { ShrinksByRule (IsSome result) self.old self.new }
        ensures key { IfSome result (HasKey K.eq k.now) }
        ensures kept { IfSome result (λ p. R.holds p.0 p.1 × R.holds k.now p.1) }
    {
        let hash = self.table.hash(k);
        let entry = self.table.remove(hash, k)?;
        Some(entry.into_pair())
    }
}
