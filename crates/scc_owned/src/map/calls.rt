//! The calls on a map that name a key, and its walk for reading.
ghost use Rattle.scc_common.specs.Closures.{Reads, WritesAt};
ghost use Rattle.scc_common.specs.Contents.{entries, bucket_count, settings_of, notes_of, waiting_of, hash_in, IsMarked, IsNoteUp};
ghost use Rattle.scc_common.specs.Pairs.{find, FindsInstead, HasRoom, IsUnique};
ghost use Rattle.scc_common.specs.Steps.{Prepares};
ghost use Rattle.scc_common.specs.Walks.{CalledOn, CallableWhile, Walks};
ghost use Rattle.scc_owned.specs.MapSteps.{Inserts, Removes, Upserts, RemovesIf, UpdatesAt};
ghost use Rattle.scc_table.specs.Arrays.{GrowsByRule, ShrinksByRule};
ghost use Rattle.scc_table.specs.Marks.{MarksPreparation};
ghost use Rattle.std.specs.Borrow.{Bor, MutBor};
ghost use Rattle.std.specs.Fn.{FnOnceTakesAtMut};
ghost use Rattle.std.specs.List.Sorted.{IsPermutation};
ghost use Rattle.std.specs.Result.{OnErr, OnOk};
ghost use Rattle.std.specs.Prelude.{◌≡◌, ◌<◌, ◌*◌, ◌↔◌, ◌⊎◌, List, [], Some, None, IsTrue, IsSome, IsOk, IfSome, IfNone, OnSome, ◌==◌, true, false};

use crate::Map;
use scc_common::{Hashes, InsertError, MakeError};
use std::hash::{BuildHasher, Hash};

impl<K: Eq + Hash, V, H: BuildHasher> Map<K, V, H> {
    /// Returns the result of `f` on the pair of `k`. If no key equals `k`, returns `None` and doesn't call `f`.
    #[inline(always)]
    pub fn read_sync<R, F: FnOnce(&K, &V) -> R>(&self, k: &K, f: F) -> Option<R>
        requires { (a : Bor K) (b : Bor V) → find K.eq (entries self.now) k.now ≡ Some (a.now, b.now) → F.pre f a b }
        ensures answer { Reads F.FnOnce f (find K.eq (entries self.now) k.now) result }
    {
        let hash = self.table.hash(k);
        match self.table.find(hash, k) {
            Some(pair) => Some(f(&pair.0, &pair.1)),
            None => None,
        }
    }

    /// Reads the pair of `k` as `read_sync` does. The search begins with `hint`, the hash of `k` under some hasher. If
    /// the map's own hasher gives the same hash, the pair is there and no bucket waits, `k` isn't hashed again.
    #[inline(always)]
    pub fn read_by_hint<R, F: FnOnce(&K, &V) -> R>(&self, hint: u64, k: &K, f: F) -> Option<R>
        requires { (a : Bor K) (b : Bor V) → find K.eq (entries self.now) k.now ≡ Some (a.now, b.now) → F.pre f a b }
        ensures answer { Reads F.FnOnce f (find K.eq (entries self.now) k.now) result }
    {
        match self.table.find_by_hint(hint, k) {
            Some(pair) => Some(f(&pair.0, &pair.1)),
            None => None,
        }
    }

    /// Inserts the pair if no key equals `k`. If a key equals `k`, the map stays as it is and the supplied pair comes
    /// back. The pair also comes back if memory for the first array, for the pairs that its bucket waits for or for
    /// its overflow list is refused. A doubling whose memory is refused doesn't make the insertion fail.
    #[inline(always)]
    pub fn insert_sync(&mut self, k: K, v: V) -> Result<(), InsertError<K, V>>
        ensures step { Inserts K.eq (hash_in ⟦<H as Hashes<K>>⟧.hash_of self.old) self.old (k, v) result self.new }
        ensures succeeds { find K.eq (entries self.old) k ≡ None → HasRoom (hash_in ⟦<H as Hashes<K>>⟧.hash_of self.old) self.old k → IsOk result }
        ensures finds { OnOk result (FindsInstead K.eq (entries self.old) k (Some (k, v)) (entries self.new)) }
        ensures same { OnErr result ((q : K) → find K.eq (entries self.new) q ≡ find K.eq (entries self.old) q) }
        ensures unique { IsUnique K.eq self.new }
        ensures array { GrowsByRule (λ p. p.0) (hash_in ⟦<H as Hashes<K>>⟧.hash_of self.old) (find K.eq (entries self.old) k) self.old k result self.new }
    {
        let hash = self.table.hash(&k);
        match self.table.search(hash, &k) {
            Some(_) => Err(InsertError::Exists((k, v))),
            None => match self.table.insert_new(hash, (k, v)) {
                Ok(_) => Ok(()),
                Err(pair) => Err(InsertError::Memory(pair)),
            },
        }
    }

    /// Stores `v` under `k`. If a key equals `k`, the stored key stays, `k` is dropped, and the old value is returned;
    /// this allocates nothing. If no key equals `k`, the pair is inserted and `None` is returned; if memory is
    /// refused, the pair comes back.
    #[inline(always)]
    pub fn upsert_sync(&mut self, k: K, v: V) -> Result<Option<V>, InsertError<K, V>>
    where
        K: Drop,
        ensures step { Upserts K.eq (hash_in ⟦<H as Hashes<K>>⟧.hash_of self.old) self.old (k, v) result self.new }
        ensures succeeds { IsSome (find K.eq (entries self.old) k) → IsOk result }
        ensures finds { OnOk result ((q : K) × (K.eq k q ≡ true) × FindsInstead K.eq (entries self.old) k (Some (q, v)) (entries self.new)) }
        ensures same { OnErr result ((q : K) → find K.eq (entries self.new) q ≡ find K.eq (entries self.old) q) }
        ensures unique { IsUnique K.eq self.new }
        ensures array { GrowsByRule (λ p. p.0) (hash_in ⟦<H as Hashes<K>>⟧.hash_of self.old) (find K.eq (entries self.old) k) self.old k result self.new }
    {
        let hash = self.table.hash(&k);
        match self.table.search(hash, &k) {
            Some(place) => Ok(Some(std::mem::replace(self.value_mut_at(place), v))),
            None => match self.table.insert_new(hash, (k, v)) {
                Ok(_) => Ok(None),
                Err(pair) => Err(InsertError::Memory(pair)),
            },
        }
    }

    /// Calls `u` on the pair of `k`, with the value to write, and returns its result. If no key equals `k`, returns
    /// `None` and doesn't call `u`.
    #[inline(always)]
    pub fn update_sync<R, U: FnOnce(&K, &mut V) -> R>(&mut self, k: &K, u: U) -> Option<R>
        requires { (a : Bor K) (b : MutBor V) → find K.eq (entries self.old) k.now ≡ Some (a.now, b.now) → U.pre u a b }
        ensures step { UpdatesAt U.FnOnce u K.eq self.old k.now self.new (find K.eq (entries self.old) k.now) result }
        ensures finds { IfSome result (λ x. (p : K × V) × (w : V) × (find K.eq (entries self.old) k.now ≡ Some p)
            × (K.eq k.now p.0 ≡ true) × WritesAt U.FnOnce u p x w
            × FindsInstead K.eq (entries self.old) k.now (Some (p.0, w)) (entries self.new)) }
        ensures missing { IfNone result (find K.eq (entries self.old) k.now ≡ None) }
        ensures noted { notes_of self.new ≡ notes_of self.old }
        ensures waiting { waiting_of self.new ≡ waiting_of self.old }
        ensures unique { IsUnique K.eq self.new }
    {
        let hash = self.table.hash(k);
        self.table.update(hash, k, u)
    }

    /// Calls `f` on the value of `k`. If `f` returns true, removes the pair, with what `f` wrote, and returns it. If
    /// `f` returns false, what it wrote stays and the result is `None`. If no key equals `k`, `f` isn't called and the
    /// result is `None`. After a removal the array may shrink.
    #[inline(always)]
    pub fn remove_if_sync<F: FnOnce(&mut V) -> bool>(&mut self, k: &K, f: F) -> Option<(K, V)>
        requires { (p : K × V) → find K.eq (entries self.old) k.now ≡ Some p → FnOnceTakesAtMut F.FnOnce f p.1 }
        ensures step { RemovesIf F.FnOnce f K.eq self.old k.now result self.new (find K.eq (entries self.old) k.now) }
        ensures finds { OnSome result (FindsInstead K.eq (entries self.old) k.now None (entries self.new)) }
        ensures unique { IsUnique K.eq self.new }
        ensures array { ShrinksByRule (IsSome result) self.old self.new }
    {
        let hash = self.table.hash(k);
        let place = self.table.search(hash, k)?;
        if f(self.value_mut_at(place)) {
            Some(self.remove_at(place))
        } else {
            None
        }
    }

    /// Removes the pair whose key equals `k` and returns it, or returns `None` if there is none. After a removal the
    /// array may shrink.
    #[inline(always)]
    pub fn remove_sync(&mut self, k: &K) -> Option<(K, V)>
        ensures step { Removes K.eq self.old k.now result self.new }
        ensures finds { OnSome result (FindsInstead K.eq (entries self.old) k.now None (entries self.new)) }
        ensures unique { IsUnique K.eq self.new }
        ensures array { ShrinksByRule (IsSome result) self.old self.new }
    {
        let hash = self.table.hash(k);
        self.table.remove(hash, k)
    }

    /// Calls `f` on the pairs in some order, each at most once, until `f` returns false. Returns false if it did, else
    /// true.
    #[inline(always)]
    pub fn iter_sync<F: FnMut(&K, &V) -> bool>(&self, f: F) -> bool
        requires { (es : List (K × V)) → IsPermutation (entries self.now) es → CallableWhile F.FnMut true f es }
        ensures { (es : List (K × V)) × (last : F) × IsPermutation (entries self.now) es
            × Walks (CalledOn F.FnMut) f es result last }
    {
        self.table.walk(f)
    }
}
