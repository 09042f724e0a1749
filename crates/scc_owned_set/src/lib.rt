//! A hash set for one owner, over the map of `scc_owned`.
#![tactic(auto)]

ghost use Rattle.scc_common.specs.Contents.{entries, bucket_count, settings_of, notes_of, waiting_of, hash_in, note_of, without_mark};
ghost use Rattle.scc_common.specs.Pairs.{find as find_pair, FindsInstead as FindsPairInstead, HasRoom as HasRoomForPair, IsUnique as IsUniqueMap};
ghost use Rattle.scc_common.specs.Steps.{HoldsExactly};
ghost use Rattle.scc_owned.specs.MapSteps.{Inserts as InsertsPair};
ghost use Rattle.scc_owned.specs.Rooms.{MakesRoom};
ghost use Rattle.scc_owned_set.specs.Keys.{find, with_key, FindsInstead, HasRoom, IsUnique};
ghost use Rattle.scc_owned_set.specs.SetSteps.{Inserts, Reads, Removes, RemovesIf, Replaces};
ghost use Rattle.scc_owned_set.specs.SetSteps.{key_answer as key_answer_of};
ghost use Rattle.std.specs.Fn.{FnOnceTakesAt, FnOnceReturnsAt};
ghost use Rattle.std.specs.Map.{set_key};
ghost use Rattle.std.specs.Option.{option_map};
ghost use Rattle.std.specs.Prelude.{◌≡◌, ◌<◌, ◌*◌, ◌↔◌, ◌⊎◌, [], length, Some, None, IsTrue, IsSome, IsOk, IfErr, IfOk, MatchOption, OnSome, true, false};
ghost use Rattle.std.specs.Result.{OnErr, OnOk};
ghost use Rattle.scc_table.specs.Arrays.{GrowsByRule, ShrinksByRule};
ghost use Rattle.scc_table.specs.Places.{IsFoundAt};

mod clone_and_eq;
pub mod entry;
mod key_places;
mod make;
mod sizes;
mod walk;

pub use entry::{OccupiedEntry, Removed};
use scc_buckets::Place;
use scc_common::{Hashes, InsertError, KeyError, MakeError};
use std::hash::{BuildHasher, BuildHasherDefault, FoldHasher, Hash};
use std::marker::Model;

/// A set of keys, in which no two keys are equal. A contract sees the keys in the set's own order as `entries s`, the
/// number of its buckets as `bucket_count s`, and its hasher and sizes as `settings_of s`.
///
/// The default hasher has a fixed seed. For keys that an attacker chooses, use `Owned::with_hasher(alloc,
/// RandomState::new(&rt)?)`.
#[derive(Drop)]
pub struct Owned<K: Eq + Hash, H: BuildHasher = BuildHasherDefault<FoldHasher>> {
    pub(crate) map: scc_owned::map::Owned<K, (), H>,
}

impl<K: Eq + Hash, H: BuildHasher> Model for Owned<K, H> {
    ghost use Rattle.scc_common.specs.Contents.{Contents};
    ghost use Rattle.scc_owned_set.specs.Keys.{of_map};

    ghost Value = { Contents K H };

    ghost view = { λ s. of_map s.map };
}

impl<K: Eq + Hash, H: BuildHasher> Owned<K, H> {
    /// Returns the number of keys.
    #[inline(always)]
    pub fn len(&self) -> usize
        ensures len { result ≡ length (entries self.now) }
        ensures unique { IsUnique K.eq self.now }
    {
        self.map.len()
    }

    /// Returns whether there is no key.
    #[inline(always)]
    pub fn is_empty(&self) -> bool
        ensures { IsTrue result ↔ (entries self.now ≡ []) }
    {
        self.map.is_empty()
    }

    /// Returns the number of slots of the array, 32 a bucket, or 0 without an array. There may be more keys than
    /// slots.
    #[inline(always)]
    pub fn capacity(&self) -> usize
        ensures { result ≡ 32 * bucket_count self.now }
    {
        self.map.capacity()
    }

    /// Returns whether memory was refused for the last resize that was due. The next resize that is made clears this
    /// note. If the result is false after a call that had to resize, the set has the size that the rules ask for.
    #[inline(always)]
    pub fn is_resize_refused(&self) -> bool
        ensures { result ≡ note_of self.now }
    {
        self.map.is_resize_refused()
    }

    /// Returns whether there is an array and the bucket of `k` holds fewer than 32 keys. If so, an insertion of `k`
    /// can't be refused memory, and allocates nothing unless it relocates another bucket of more than 32 keys.
    #[inline(always)]
    pub fn has_room(&self, k: &K) -> bool
        ensures { IsTrue result ↔ HasRoom (hash_in ⟦<H as Hashes<K>>⟧.hash_of self.now) self.now k.now }
    {
        self.map.has_room(k)
    }

    /// Returns whether a key equals `k`.
    #[inline(always)]
    pub fn contains_sync(&self, k: &K) -> bool
        ensures { IsTrue result ↔ IsSome (find K.eq (entries self.now) k.now) }
    {
        self.map.contains_sync(k)
    }

    /// Returns the result of `f` on the key that equals `k`. If no key equals `k`, returns `None` and doesn't call
    /// `f`.
    #[inline(always)]
    pub fn read_sync<R, F: FnOnce(&K) -> R>(&self, k: &K, f: F) -> Option<R>
        requires { (q : K) → find K.eq (entries self.now) k.now ≡ Some q → FnOnceTakesAt F.FnOnce f q }
        ensures answer { Reads F.FnOnce f (find K.eq (entries self.now) k.now) result }
    {
        self.map.read_sync(
            k,
            move |key: &K, _value: &()| -> R
                requires { FnOnceTakesAt F.FnOnce f key.now }
                ensures { FnOnceReturnsAt F.FnOnce f key.now result }
            { f(key) },
        )
    }

    /// Inserts the key if no key equals `k`. If a key equals `k`, the set stays as it is and the supplied key comes
    /// back. The key also comes back if memory for the first array, for the keys that its bucket waits for or for its
    /// overflow list is refused. A doubling whose memory is refused doesn't make the insertion fail.
    #[inline(always)]
    pub fn insert_sync(&mut self, k: K) -> Result<(), KeyError<K>>
        ensures step { Inserts K.eq (hash_in ⟦<H as Hashes<K>>⟧.hash_of self.old) self.old k result self.new }
        ensures succeeds { find K.eq (entries self.old) k ≡ None → HasRoom (hash_in ⟦<H as Hashes<K>>⟧.hash_of self.old) self.old k → IsOk result }
        ensures finds { OnOk result (FindsInstead K.eq (entries self.old) k (Some k) (entries self.new)) }
        ensures same { OnErr result ((q : K) → find K.eq (entries self.new) q ≡ find K.eq (entries self.old) q) }
        ensures unique { IsUnique K.eq self.new }
        ensures array { GrowsByRule (λ q. q) (hash_in ⟦<H as Hashes<K>>⟧.hash_of self.old) (find K.eq (entries self.old) k) self.old k result self.new }
    {
        key_answer(self.map.insert_sync(k, ()))
    }

    /// Makes what an insertion of `k` would have to make first, at most one resize: the first array, or an array of
    /// twice as many buckets if a growth is due; then all buckets wait. If a key equals `k`, nothing is made. A growth
    /// whose memory is refused is noted and marked: the insertion of `k` that follows doesn't try the growth again, so
    /// it makes no resize in any case. A growth that is made takes note and mark away; if no growth is due, both stay.
    /// Fails only if memory for the first array is refused, and then nothing changes.
    pub fn make_room(&mut self, k: &K) -> Result<(), MakeError>
        ensures room { MakesRoom (hash_in ⟦<H as Hashes<K>>⟧.hash_of self.old) (λ q. q)
            (find K.eq (entries self.old) k.now) self.old k.now result self.new }
        ensures unique { IsUnique K.eq self.new }
    {
        self.map.make_room(k)
    }

    /// Does what `make_room` does, and returns the place of the key that equals `k`, or `None`.
    pub fn find_or_make_room(&mut self, k: &K) -> Result<Option<Place>, MakeError>
        ensures room { MakesRoom (hash_in ⟦<H as Hashes<K>>⟧.hash_of self.old) (λ q. q)
            (find K.eq (entries self.old) k.now) self.old k.now result self.new }
        ensures found { IfOk result (λ found. MatchOption found (find K.eq (entries self.new) k.now ≡ None)
            (IsFoundAt (K.eq k.now) self.new)) }
        ensures unique { IsUnique K.eq self.new }
    {
        self.map.find_or_make_room(k)
    }

    /// Takes the mark of a refused growth away, and changes nothing else. An insertion then tries a growth that is
    /// due, even if `make_room` was refused memory for it.
    pub fn drop_room(&mut self)
        ensures cleared { self.new ≡ without_mark self.old }
        ensures unique { IsUnique K.eq self.new }
    {
        self.map.drop_room();
    }

    /// Puts `k` in the place of the key that equals it, and returns the old key; this allocates nothing. If no key
    /// equals `k`, `k` is inserted and `None` is returned; if memory is refused, `k` comes back.
    #[inline(always)]
    pub fn replace_sync(&mut self, k: K) -> Result<Option<K>, KeyError<K>>
        ensures step { Replaces K.eq (hash_in ⟦<H as Hashes<K>>⟧.hash_of self.old) self.old k result self.new }
        ensures present { IsSome (find K.eq (entries self.old) k) → IsOk result }
        ensures succeeds { HasRoom (hash_in ⟦<H as Hashes<K>>⟧.hash_of self.old) self.old k → IsOk result }
        ensures finds { OnOk result (FindsInstead K.eq (entries self.old) k (Some k) (entries self.new)) }
        ensures same { OnErr result ((q : K) → find K.eq (entries self.new) q ≡ find K.eq (entries self.old) q) }
        ensures unique { IsUnique K.eq self.new }
        ensures array { GrowsByRule (λ q. q) (hash_in ⟦<H as Hashes<K>>⟧.hash_of self.old) (find K.eq (entries self.old) k) self.old k result self.new }
    {
        let hash = self.map.hash_of(&k);
        match self.swap_key(hash, k) {
            Ok(old) => Ok(Some(old)),
            Err(key) => match self.insert_missing(hash, key) {
                Ok(()) => Ok(None),
                Err(e) => Err(e),
            },
        }
    }

    /// Puts `k` in the place of the key that equals it, and returns the old key. If no key equals `k`, returns `k`, as
    /// an `Err`. `hash` must be the hash of `k`.
    #[inline(always)]
    fn swap_key(&mut self, hash: u64, k: K) -> Result<K, K>
        requires { hash ≡ hash_in ⟦<H as Hashes<K>>⟧.hash_of self.old k }
        ensures swapped { IfOk result (λ old. (find K.eq (entries self.old) k ≡ Some old)
            × HoldsExactly self.old (with_key K.eq (entries self.old) k) self.new
            × FindsInstead K.eq (entries self.old) k (Some k) (entries self.new)) }
        ensures noted { notes_of self.new ≡ notes_of self.old }
        ensures waiting { waiting_of self.new ≡ waiting_of self.old }
        ensures missing { IfErr result (λ q. (q ≡ k) × (find K.eq (entries self.old) k ≡ None)
            × (self.new ≡ self.old)) }
        ensures unique { IsUnique K.eq self.new }
    {
        swap_in_map(&mut self.map, hash, k)
    }

    /// Inserts a key that is missing, as `insert_sync` does. `hash` must be the hash of `k`.
    #[inline(always)]
    fn insert_missing(&mut self, hash: u64, k: K) -> Result<(), KeyError<K>>
        requires hashed { hash ≡ hash_in ⟦<H as Hashes<K>>⟧.hash_of self.old k }
        requires absent { find K.eq (entries self.old) k ≡ None }
        ensures step { Inserts K.eq (hash_in ⟦<H as Hashes<K>>⟧.hash_of self.old) self.old k result self.new }
        ensures succeeds { HasRoom (hash_in ⟦<H as Hashes<K>>⟧.hash_of self.old) self.old k → IsOk result }
        ensures finds { OnOk result (FindsInstead K.eq (entries self.old) k (Some k) (entries self.new)) }
        ensures same { OnErr result ((q : K) → find K.eq (entries self.new) q ≡ find K.eq (entries self.old) q) }
        ensures unique { IsUnique K.eq self.new }
        ensures array { GrowsByRule (λ q. q) (hash_in ⟦<H as Hashes<K>>⟧.hash_of self.old) (find K.eq (entries self.old) k) self.old k result self.new }
    {
        key_answer(insert_in_map(&mut self.map, hash, k))
    }

    /// Calls `f` if a key equals `k`. If `f` returns true, removes the key that equals `k` and returns it. If `f`
    /// returns false or no key equals `k`, the result is `None`. After a removal the array may shrink.
    #[inline(always)]
    pub fn remove_if_sync<F: FnOnce() -> bool>(&mut self, k: &K, f: F) -> Option<K>
        requires { IsSome (find K.eq (entries self.old) k.now) → F.pre f }
        ensures step { RemovesIf F.FnOnce f K.eq self.old k.now result self.new (find K.eq (entries self.old) k.now) }
        ensures finds { OnSome result (FindsInstead K.eq (entries self.old) k.now None (entries self.new)) }
        ensures unique { IsUnique K.eq self.new }
        ensures array { ShrinksByRule (IsSome result) self.old self.new }
    {
        let pair = self.map.remove_if_sync(
            k,
            move |_value: &mut ()| -> bool
                requires { F.pre f }
                ensures { F.post f result }
            { f() },
        );
        key_alone(pair)
    }

    /// Removes the key that equals `k` and returns it, or returns `None` if there is none. After a removal the array
    /// may shrink.
    #[inline(always)]
    pub fn remove_sync(&mut self, k: &K) -> Option<K>
        ensures step { Removes K.eq self.old k.now result self.new }
        ensures finds { OnSome result (FindsInstead K.eq (entries self.old) k.now None (entries self.new)) }
        ensures unique { IsUnique K.eq self.new }
        ensures array { ShrinksByRule (IsSome result) self.old self.new }
    {
        key_alone(self.map.remove_sync(k))
    }
}

/// Returns `answer`, the result of a call of the map, without the unit value.
#[inline(always)]
fn key_answer<K, R>(answer: Result<R, InsertError<K, ()>>) -> Result<R, KeyError<K>>
    ensures { result ≡ key_answer_of answer }
{
    match answer {
        Ok(r) => Ok(r),
        Err(InsertError::Exists((key, _))) => Err(KeyError::Exists(key)),
        Err(InsertError::Memory((key, _))) => Err(KeyError::Memory(key)),
    }
}

/// Puts `k` in the place of the map's key that equals it, and returns the old key. If no key equals `k`, returns `k`,
/// as an `Err`. `hash` must be the hash of `k`.
#[inline(always)]
fn swap_in_map<K: Eq + Hash, H: BuildHasher>(
    map: &mut scc_owned::map::Owned<K, (), H>,
    hash: u64,
    k: K,
) -> Result<K, K>
    requires { hash ≡ hash_in ⟦<H as Hashes<K>>⟧.hash_of map.old k }
    ensures swapped { IfOk result (λ old. (find_pair K.eq (entries map.old) k ≡ Some (old, tt))
        × HoldsExactly map.old (set_key (K.eq k) (entries map.old) k) map.new) }
    ensures noted { notes_of map.new ≡ notes_of map.old }
    ensures waiting { waiting_of map.new ≡ waiting_of map.old }
    ensures missing { IfErr result (λ q. (q ≡ k) × (find_pair K.eq (entries map.old) k ≡ None) × (map.new ≡ map.old)) }
    ensures unique { IsUniqueMap K.eq map.new }
{
    match map.place_of(hash, &k) {
        Some(place) => Ok(map.replace_key_at(place, k)),
        None => Err(k),
    }
}

/// Inserts a key that the map lacks, as `insert_sync` does. `hash` must be the hash of `k`.
#[inline(always)]
fn insert_in_map<K: Eq + Hash, H: BuildHasher>(
    map: &mut scc_owned::map::Owned<K, (), H>,
    hash: u64,
    k: K,
) -> Result<(), InsertError<K, ()>>
    requires hashed { hash ≡ hash_in ⟦<H as Hashes<K>>⟧.hash_of map.old k }
    requires absent { find_pair K.eq (entries map.old) k ≡ None }
    ensures step { InsertsPair K.eq (hash_in ⟦<H as Hashes<K>>⟧.hash_of map.old) map.old (k, tt) result map.new }
    ensures succeeds { HasRoomForPair (hash_in ⟦<H as Hashes<K>>⟧.hash_of map.old) map.old k → IsOk result }
    ensures finds { OnOk result (FindsPairInstead K.eq (entries map.old) k (Some (k, tt)) (entries map.new)) }
    ensures same { OnErr result ((q : K) → find_pair K.eq (entries map.new) q ≡ find_pair K.eq (entries map.old) q) }
    ensures unique { IsUniqueMap K.eq map.new }
    ensures array { GrowsByRule (λ p. p.0) (hash_in ⟦<H as Hashes<K>>⟧.hash_of map.old)
        (find_pair K.eq (entries map.old) k) map.old k result map.new }
{
    match map.insert_new(hash, k, ()) {
        Ok(_) => Ok(()),
        Err(pair) => Err(InsertError::Memory(pair)),
    }
}

/// Returns the key of the pair, if there is a pair.
#[inline(always)]
fn key_alone<K>(pair: Option<(K, ())>) -> Option<K>
    ensures { result ≡ option_map (λ p. p.0) pair }
{
    match pair {
        Some((key, _)) => Some(key),
        None => None,
    }
}
