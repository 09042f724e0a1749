//! The calls of the owned map as values.
ghost use Rattle.scc_calls.specs.Preparations.{MapPreparesCall, MapPreparesKey};

use crate::replies::{CopiesReply, clone_pair, copies, equals};
use crate::{Calls, Copied, MapCall, Refused, Reply, map_copied};
use scc_buckets::Place;
use scc_common::{Hashes, InsertError, MakeError};
use scc_owned::map::Owned;
use scc_owned::map::borrowed::ReplaceResult;
use std::alloc::Global;
use std::hash::{BuildHasher, Hash};

impl<K: Eq + Hash + Clone, V: Clone + PartialEq, H: BuildHasher> Calls for Owned<K, V, H> {
    type Key = K;

    type Hasher = H;

    type Call = MapCall<K, V>;

    type Reply = Reply<K, V>;

    ghost use Rattle.std.specs.Prelude.{◌≡◌, ◌==◌, [], ◌∷◌, ◌++◌, List, length};
    ghost use Rattle.std.specs.List.Sorted.{IsPermutation};
    ghost use Rattle.std.specs.Map.{keys_of};
    ghost use Rattle.scc_calls.specs.MapLaws.{routes_alike, both_same, map_call_is_whole, map_call_keeps, map_resize_keeps, resize_joined};
    ghost use Rattle.scc_calls.specs.MapWhole.{joined, MapWholeMoves};
    ghost use Rattle.scc_common.specs.Routing.{stripe_number};
    ghost use Rattle.scc_calls.specs.MapCalls.{map_adds, map_answer, map_key, MapIsPrepared, MapMoves, MapMayRefuse};
    ghost use Rattle.scc_calls.specs.Copies.{Answers, Means};
    ghost use Rattle.scc_calls.specs.Means.{means_alike, means_answer, means_keeps, means_whole};
    ghost use Rattle.scc_calls.specs.Stems.{map_stems_alike, MapStems};
    ghost use Rattle.std.proofs.Common.{refl, rules};
    ghost use Rattle.scc_common.specs.Hashing.{hash_of};
    ghost use Rattle.scc_common.specs.Contents.{hash_in, mark_of};
    ghost use Rattle.scc_calls.specs.States.{State, state_of, run_setting, ResizesTo};

    ghost State = { State (K × V) };

    ghost Whole = { List (K × V) };

    ghost setting = { run_setting };

    ghost state = { state_of };

    ghost size = { λ s. s.1 };

    ghost empty = { λ b. ([], b) };

    ghost limits = { λ _ _ m. m ≡ 0 };

    ghost keys = { λ s. keys_of s.0 };

    ghost key_of = { map_key };

    ghost answer = { λ _ s. map_answer K.eq s.0 };

    ghost moves = { λ _. Answers (MapStems V.is_clone) (MapMoves K.eq) };

    ghost means = { λ _. Means ⟦<MapCall<K, V> as PartialEq>⟧.eq ⟦<Reply<K, V> as PartialEq>⟧.eq (MapMoves K.eq) };

    ghost resizes = { ResizesTo };

    ghost may_refuse = { MapMayRefuse K.eq ⟦<H as Hashes<K>>⟧.hash_of };

    ghost adds = { map_adds };

    ghost is_prepared = { λ m. MapIsPrepared K.eq (hash_in ⟦<H as Hashes<K>>⟧.hash_of m) m
        ⟦<Reply<K, V> as PartialEq>⟧.eq };

    ghost is_marked = { λ m. mark_of m };

    ghost whole = { joined };

    ghost whole_means = { λ g n i. Means ⟦<MapCall<K, V> as PartialEq>⟧.eq ⟦<Reply<K, V> as PartialEq>⟧.eq
        (MapWholeMoves K.eq (λ k. stripe_number n (⟦<H as Hashes<K>>⟧.hash_of g.hasher k) == i)) };

    ghost whole_resizes = { λ _ _ _ w _ v. IsPermutation w v };

    fn key(call: &MapCall<K, V>) -> Option<&K> {
        match call {
            MapCall::Insert(k, _) => Some(k),
            MapCall::Upsert(k, _) => Some(k),
            MapCall::Replace(k) => Some(k),
            MapCall::Read(k) => Some(k),
            MapCall::Contains(k) => Some(k),
            MapCall::Remove(k) => Some(k),
            MapCall::Clear => None,
            MapCall::Len => None,
        }
    }

    fn ready(&mut self, call: &MapCall<K, V>) -> Result<(Reply<K, V>, Reply<K, V>), Refused> {
        let found = prepare(self, call)?;
        match copies(self, call, found) {
            Ok(both) => Ok(both),
            Err(Refused) => {
                self.drop_room();
                Err(Refused)
            }
        }
    }

    fn call(&mut self, call: MapCall<K, V>) -> Result<Reply<K, V>, Refused> {
        equals::<Reply<K, V>>();
        match call {
            MapCall::Insert(k, v) => match self.insert_sync(k, v) {
                Ok(()) => Ok(Reply::Inserted),
                Err(InsertError::Exists((k, v))) => Ok(Reply::Exists(k, v)),
                Err(InsertError::Memory(_)) => Err(Refused),
            },
            MapCall::Upsert(k, v) => match self.upsert_sync(k, v) {
                Ok(old) => Ok(Reply::Old(old)),
                Err(_) => Err(Refused),
            },
            MapCall::Replace(k) => match self.replace_sync(k) {
                ReplaceResult::Replaced(_entry, old) => Ok(Reply::Key(Some(old))),
                ReplaceResult::NotReplaced(entry) => {
                    entry.into_key();
                    Ok(Reply::Key(None))
                }
            },
            MapCall::Read(k) => match self.cloned_value(&k) {
                Ok(value) => Ok(Reply::Value(value)),
                Err(_) => Err(Refused),
            },
            MapCall::Contains(k) => Ok(Reply::Has(self.contains_sync(&k))),
            MapCall::Remove(k) => Ok(Reply::Pair(self.remove_sync(&k))),
            MapCall::Clear => {
                self.clear_sync();
                Ok(Reply::Cleared)
            }
            MapCall::Len => Ok(Reply::Count(self.len())),
        }
    }

    fn call_copied(&mut self, call: MapCall<K, V>) -> Result<Copied<Reply<K, V>>, Refused> {
        match call {
            MapCall::Insert(k, v) => map_copied::insert(self, k, v),
            MapCall::Upsert(k, v) => map_copied::upsert(self, k, v),
            MapCall::Replace(k) => map_copied::replace(self, k),
            MapCall::Read(k) => map_copied::read(self, k),
            MapCall::Contains(k) => map_copied::contains(self, k),
            MapCall::Remove(k) => map_copied::remove(self, k),
            MapCall::Clear => map_copied::clear(self),
            MapCall::Len => map_copied::count(self),
        }
    }

    fn buckets(&self) -> usize {
        self.capacity() / 32
    }

    fn make(
        alloc: Global,
        skipped: u32,
        slots: usize,
        maximum: usize,
        hasher: H,
    ) -> Result<Self, MakeError>
    where
        H: Drop,
    {
        Owned::skipping(alloc, skipped, slots, hasher)
    }

    ghost one_limit = { λ _ _ m n p q. both_same m n 0 p q };

    ghost moves_mean = { λ clones g old new call reply m. means_answer ⟦<MapCall<K, V> as PartialEq>⟧.eq
        ⟦<Reply<K, V> as PartialEq>⟧.eq (MapMoves K.eq) (MapStems V.is_clone)
        (map_stems_alike clones V.is_clone refl (λ x y h. h)) old new call reply m };

    ghost means_alike = { λ g old new call copy reply given pc pr c r m. means_alike ⟦<MapCall<K, V> as PartialEq>⟧.eq
        ⟦<Reply<K, V> as PartialEq>⟧.eq (MapMoves K.eq) pc pr old new call copy reply given c r m };

    ghost call_is_whole = { λ g n before after old new call reply routed key s. means_whole
        ⟦<MapCall<K, V> as PartialEq>⟧.eq ⟦<Reply<K, V> as PartialEq>⟧.eq (MapMoves K.eq) K.eq map_key
        (Prim.search rules) (λ k. stripe_number n (⟦<H as Hashes<K>>⟧.hash_of g.hasher k))
        (routes_alike K.eq K.hash_input (λ w. stripe_number n (hash_of H.BuildHasher H.Hasher.Hasher g.hasher w))
        K.Hash.respects_eq) (MapWholeMoves K.eq (λ k. stripe_number n (⟦<H as Hashes<K>>⟧.hash_of g.hasher k) == length
        before)) (length before) old new (joined (before ++ old ∷ after))
        (joined (before ++ new ∷ after)) call reply key (λ made given k m. map_call_is_whole K.eq
        (λ k. stripe_number n (⟦<H as Hashes<K>>⟧.hash_of g.hasher k)) (routes_alike K.eq K.hash_input
        (λ w. stripe_number n (hash_of H.BuildHasher H.Hasher.Hasher g.hasher w)) K.Hash.respects_eq) before after old
        new made given routed k m) s };

    ghost resize_is_whole = { λ g n before after old new buckets routed s. resize_joined g before after old new buckets
        s };

    ghost call_keeps = { λ g n i old new call reply routed key s. means_keeps ⟦<MapCall<K, V> as PartialEq>⟧.eq
        ⟦<Reply<K, V> as PartialEq>⟧.eq (MapMoves K.eq) K.eq map_key (Prim.search rules)
        (λ k. stripe_number n (⟦<H as Hashes<K>>⟧.hash_of g.hasher k)) (routes_alike K.eq K.hash_input
        (λ w. stripe_number n (hash_of H.BuildHasher H.Hasher.Hasher g.hasher w)) K.Hash.respects_eq) i old new call
        reply key (λ made given k m. map_call_keeps K.eq (λ k. stripe_number n (⟦<H as Hashes<K>>⟧.hash_of g.hasher k))
        (routes_alike K.eq K.hash_input (λ w. stripe_number n (hash_of H.BuildHasher H.Hasher.Hasher g.hasher w))
        K.Hash.respects_eq) i old new made given routed k m) s };

    ghost resize_keeps = { λ g n i old new buckets routed s. map_resize_keeps g
        (λ k. stripe_number n (⟦<H as Hashes<K>>⟧.hash_of g.hasher k)) i old new buckets routed s };

    ghost empty_keeps = { λ _ _ _ _. tt };
}

/// Makes the first array or the growth that `call` would have to make, if `call` may add a key, and returns the
/// place of its key, or `None`. Returns `None` for a call that adds none. Fails if memory is refused.
fn prepare<K: Eq + Hash, V, H: BuildHasher>(
    map: &mut Owned<K, V, H>,
    call: &MapCall<K, V>,
) -> Result<Option<Place>, Refused>
    ensures { MapPreparesCall K.eq ⟦<H as Hashes<K>>⟧.hash_of map.old call.now result map.new }
{
    match call {
        MapCall::Insert(k, _) => prepare_key(map, k),
        MapCall::Upsert(k, _) => prepare_key(map, k),
        _ => Ok(None),
    }
}

/// Makes the first array or the growth that an insertion of `k` would have to make, and returns the place of the
/// entry of `k`, or `None`. Fails if memory is refused.
fn prepare_key<K: Eq + Hash, V, H: BuildHasher>(
    map: &mut Owned<K, V, H>,
    k: &K,
) -> Result<Option<Place>, Refused>
    ensures { MapPreparesKey K.eq ⟦<H as Hashes<K>>⟧.hash_of map.old k.now result map.new }
{
    match map.find_or_make_room(k) {
        Ok(found) => Ok(found),
        Err(_) => Err(Refused),
    }
}

impl<K: Eq + Hash + Clone, V: Clone + PartialEq, H: BuildHasher> CopiesReply for Owned<K, V, H> {
    type Call = MapCall<K, V>;

    type Reply = Reply<K, V>;

    ghost use Rattle.std.specs.Prelude.{IsSome};
    ghost use Rattle.scc_common.specs.Contents.{entries};
    ghost use Rattle.scc_calls.specs.MapCalls.{map_answer, map_key, MapKnows};

    ghost next_reply = { λ m. map_answer K.eq (entries m) };

    ghost knows = { λ m. MapKnows K.eq m };

    ghost has_key = { λ call. IsSome (map_key call) };

    fn copy(&self, call: &MapCall<K, V>, found: Option<Place>) -> Result<Reply<K, V>, Refused> {
        match call {
            MapCall::Insert(k, v) => match found {
                Some(_) => {
                    let (key, value) = clone_pair(k, v)?;
                    Ok(Reply::Exists(key, value))
                }
                None => Ok(Reply::Inserted),
            },
            MapCall::Upsert(_, _) => match found {
                Some(place) => match self.pair_at(place).1.clone() {
                    Ok(value) => Ok(Reply::Old(Some(value))),
                    Err(_) => Err(Refused),
                },
                None => Ok(Reply::Old(None)),
            },
            MapCall::Replace(k) => Ok(Reply::Key(self.cloned_key(k)?)),
            MapCall::Read(k) => Ok(Reply::Value(self.cloned_value(k)?)),
            MapCall::Contains(k) => Ok(Reply::Has(self.contains_sync(k))),
            MapCall::Remove(k) => Ok(Reply::Pair(self.cloned_pair(k)?)),
            MapCall::Clear => Ok(Reply::Cleared),
            MapCall::Len => Ok(Reply::Count(self.len())),
        }
    }
}
