//! The calls on one key. A contract states what the arguments and the rule decide; the call does to the stripe what the
//! map's call does.
ghost use Rattle.scc_shared_set.specs.KeyRules.{Exists, Memory, IsCalledOn, IsKeptKey, ReadsKept};
ghost use Rattle.std.specs.Fn.{FnOnceReturnsAt, FnOnceTakesAt};
ghost use Rattle.std.specs.Prelude.{◌≡◌, ◌⊎◌, true, IfErr, IfOk, IfSome, IsTrue};

use crate::RuledSet;
use scc_common::{InsertError, KeyError, Rule};
use scc_owned::ruled_map::locked::ReplaceResult;
use std::hash::{BuildHasher, Hash};
use std::sync::Wait;

impl<K: Eq + Hash, R: Rule<K, ()>, H: BuildHasher> RuledSet<K, R, H> {
    /// Inserts `k`, which must keep the rule, if no key equals `k`. Fails if a key equals `k`, or if memory that the
    /// insertion needs is refused; then `k` comes back.
    pub fn insert_sync(&self, rt: &impl Wait, k: K) -> Result<(), KeyError<K>>
        requires { R.holds k tt }
        ensures back { IfErr result (λ e. (e ≡ Exists k) ⊎ (e ≡ Memory k)) }
    {
        match self.map.insert_sync(rt, k, ()) {
            Ok(()) => Ok(()),
            Err(InsertError::Exists((key, _))) => Err(KeyError::Exists(key)),
            Err(InsertError::Memory((key, _))) => Err(KeyError::Memory(key)),
        }
    }

    /// Puts `k`, which must keep the rule, in the place of the key that equals `k`, and returns the old key; this
    /// allocates nothing. If no key equals `k`, inserts `k` under the same lock and returns `None`. If memory is
    /// refused, `k` comes back.
    pub fn replace_sync(&self, rt: &impl Wait, k: K) -> Result<Option<K>, KeyError<K>>
    where
        K: Drop,
        requires { R.holds k tt }
        ensures old { IfOk result (λ old. IfSome old (IsKeptKey K.eq R.holds k)) }
        ensures back { IfErr result (λ e. e ≡ Memory k) }
    {
        match self.map.replace_sync(rt, k) {
            ReplaceResult::Replaced(_, old) => Ok(Some(old)),
            ReplaceResult::NotReplaced(vacant) => match vacant.insert_entry(()) {
                Ok(_) => Ok(None),
                Err(InsertError::Exists((key, _))) => Err(KeyError::Exists(key)),
                Err(InsertError::Memory((key, _))) => Err(KeyError::Memory(key)),
            },
        }
    }

    /// Calls `f` on the key that equals `k`, and returns what `f` returns. Returns `None` without calling `f` if no
    /// key equals `k`.
    pub fn read_sync<A, F: FnOnce(&K) -> A>(&self, rt: &impl Wait, k: &K, f: F) -> Option<A>
        requires { IsCalledOn K.eq R.holds F.FnOnce f k.now }
        ensures answer { IfSome result (ReadsKept K.eq R.holds F.FnOnce f k.now) }
    {
        self.map.read_sync(
            rt,
            k,
            move |key: &K, _value: &()| -> A
                requires { FnOnceTakesAt F.FnOnce f key.now }
                ensures { FnOnceReturnsAt F.FnOnce f key.now result }
            { f(key) },
        )
    }

    /// Returns whether a key equals `k`. If so, `k` keeps the rule.
    pub fn contains_sync(&self, rt: &impl Wait, k: &K) -> bool
        ensures { IsTrue result → R.holds k.now tt }
    {
        self.map.contains_sync(rt, k)
    }

    /// Removes the key that equals `k` if `f` returns true, and returns the key. If `f` returns false, returns `None`.
    /// If no key equals `k`, returns `None` without calling `f`.
    pub fn remove_if_sync<F: FnOnce() -> bool>(&self, rt: &impl Wait, k: &K, f: F) -> Option<K>
        requires { R.holds k.now tt → F.pre f }
        ensures key { IfSome result (IsKeptKey K.eq R.holds k.now) }
        ensures answer { IfSome result (λ _. F.post f true) }
    {
        match self.map.remove_if_sync(
            rt,
            k,
            move |_value: &mut ()| -> bool
                requires { F.pre f }
                ensures { F.post f result }
            { f() },
        ) {
            Some((key, _)) => Some(key),
            None => None,
        }
    }

    /// Removes the key that equals `k`, and returns the key.
    pub fn remove_sync(&self, rt: &impl Wait, k: &K) -> Option<K>
        ensures key { IfSome result (IsKeptKey K.eq R.holds k.now) }
    {
        match self.map.remove_sync(rt, k) {
            Some((key, _)) => Some(key),
            None => None,
        }
    }

    /// Returns whether the stripe of `k` has an array in which the bucket of `k` holds fewer than 32 keys.
    pub fn has_room(&self, rt: &impl Wait, k: &K) -> bool {
        self.map.has_room(rt, k)
    }
}
