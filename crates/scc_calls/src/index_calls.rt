//! The calls of the owned index as values.
ghost use Rattle.scc_calls.specs.Preparations.{IndexPreparesCall, IndexPreparesKey};

use crate::replies::{CopiesReply, clone_pair, copies, equals};
use crate::{Calls, IndexCall, Refused, Reply};
use scc_buckets::Place;
use scc_common::{Hashes, InsertError, MakeError};
use scc_owned::index::Owned;
use std::alloc::Global;
use std::hash::{BuildHasher, Hash};

impl<K: Eq + Hash + Clone, V: Clone + PartialEq, H: BuildHasher> Calls for Owned<K, V, H> {
    type Key = K;

    type Hasher = H;

    type Call = IndexCall<K, V>;

    type Reply = Reply<K, V>;

    ghost use Rattle.std.specs.Prelude.{◌≡◌, ◌==◌, [], ◌∷◌, ◌++◌, List, length};
    ghost use Rattle.std.specs.List.Sorted.{IsPermutation};
    ghost use Rattle.std.specs.Map.{keys_of};
    ghost use Rattle.scc_calls.specs.MapLaws.{routes_alike, both_same, map_resize_keeps, resize_joined};
    ghost use Rattle.scc_calls.specs.IndexLaws.{index_call_is_whole, index_call_keeps};
    ghost use Rattle.scc_calls.specs.MapWhole.{joined};
    ghost use Rattle.scc_calls.specs.IndexWhole.{IndexWholeMoves};
    ghost use Rattle.scc_common.specs.Routing.{stripe_number};
    ghost use Rattle.scc_calls.specs.IndexCalls.{index_adds, index_answer, index_key, IndexIsPrepared, IndexMoves, IndexMayRefuse};
    ghost use Rattle.scc_calls.specs.Copies.{Answers, Means};
    ghost use Rattle.scc_calls.specs.Means.{means_alike, means_answer, means_keeps, means_whole};
    ghost use Rattle.scc_calls.specs.Stems.{index_stems_alike, IndexStems};
    ghost use Rattle.std.proofs.Common.{refl, rules};
    ghost use Rattle.scc_common.specs.Hashing.{hash_of};
    ghost use Rattle.scc_common.specs.Contents.{hash_in, mark_of};
    ghost use Rattle.scc_calls.specs.States.{State, state_of, run_setting, ResizesTo};

    ghost State = { State (K × V) };

    ghost Whole = { List (K × V) };

    ghost setting = { run_setting };

    ghost state = { state_of };

    ghost size = { λ s. s.1 };

    ghost empty = { λ b. ([], b) };

    ghost limits = { λ _ _ m. m ≡ 0 };

    ghost keys = { λ s. keys_of s.0 };

    ghost key_of = { index_key };

    ghost answer = { λ _ s. index_answer K.eq s.0 };

    ghost moves = { λ _. Answers (IndexStems V.is_clone) (IndexMoves K.eq K.is_clone) };

    ghost means = { λ _. Means ⟦<IndexCall<K, V> as PartialEq>⟧.eq ⟦<Reply<K, V> as PartialEq>⟧.eq
        (IndexMoves K.eq K.is_clone) };

    ghost resizes = { ResizesTo };

    ghost may_refuse = { λ _. IndexMayRefuse K.eq };

    ghost adds = { index_adds };

    ghost is_prepared = { λ m. IndexIsPrepared K.eq (hash_in ⟦<H as Hashes<K>>⟧.hash_of m) m
        ⟦<Reply<K, V> as PartialEq>⟧.eq };

    ghost is_marked = { λ m. mark_of m };

    ghost whole = { joined };

    ghost whole_means = { λ g n i. Means ⟦<IndexCall<K, V> as PartialEq>⟧.eq ⟦<Reply<K, V> as PartialEq>⟧.eq
        (IndexWholeMoves K.eq K.is_clone (λ k. stripe_number n (⟦<H as Hashes<K>>⟧.hash_of g.hasher k) == i)) };

    ghost whole_resizes = { λ _ _ _ w _ v. IsPermutation w v };

    fn key(call: &IndexCall<K, V>) -> Option<&K> {
        match call {
            IndexCall::Insert(k, _) => Some(k),
            IndexCall::Update(k, _) => Some(k),
            IndexCall::Remove(k) => Some(k),
            IndexCall::Read(k) => Some(k),
            IndexCall::Contains(k) => Some(k),
            IndexCall::Clear => None,
            IndexCall::Len => None,
        }
    }

    fn ready(&mut self, call: &IndexCall<K, V>) -> Result<(Reply<K, V>, Reply<K, V>), Refused> {
        let found = prepare(self, call)?;
        match copies(self, call, found) {
            Ok(both) => Ok(both),
            Err(Refused) => {
                self.drop_room();
                Err(Refused)
            }
        }
    }

    fn call(&mut self, call: IndexCall<K, V>) -> Result<Reply<K, V>, Refused> {
        equals::<Reply<K, V>>();
        match call {
            IndexCall::Insert(k, v) => match self.insert_sync(k, v) {
                Ok(()) => Ok(Reply::Inserted),
                Err(InsertError::Exists((k, v))) => Ok(Reply::Exists(k, v)),
                Err(InsertError::Memory(_)) => Err(Refused),
            },
            IndexCall::Update(k, v) => match self.get_sync(&k) {
                Some(mut entry) => match entry.update(v) {
                    Ok(()) => Ok(Reply::Has(true)),
                    Err(_) => Err(Refused),
                },
                None => Ok(Reply::Has(false)),
            },
            IndexCall::Remove(k) => Ok(Reply::Has(self.remove_sync(&k))),
            IndexCall::Read(k) => match self.cloned_value(&k) {
                Ok(value) => Ok(Reply::Value(value)),
                Err(_) => Err(Refused),
            },
            IndexCall::Contains(k) => Ok(Reply::Has(self.contains(&k))),
            IndexCall::Clear => {
                self.clear_sync();
                Ok(Reply::Cleared)
            }
            IndexCall::Len => Ok(Reply::Count(self.len())),
        }
    }

    fn buckets(&self) -> usize {
        self.capacity() / 32
    }

    fn make(
        alloc: Global,
        skipped: u32,
        slots: usize,
        maximum: usize,
        hasher: H,
    ) -> Result<Self, MakeError>
    where
        H: Drop,
    {
        Owned::skipping(alloc, skipped, slots, hasher)
    }

    ghost one_limit = { λ _ _ m n p q. both_same m n 0 p q };

    ghost moves_mean = { λ clones g old new call reply m. means_answer ⟦<IndexCall<K, V> as PartialEq>⟧.eq
        ⟦<Reply<K, V> as PartialEq>⟧.eq (IndexMoves K.eq K.is_clone) (IndexStems V.is_clone)
        (index_stems_alike clones V.is_clone refl (λ x y h. h)) old new call reply m };

    ghost means_alike = { λ g old new call copy reply given pc pr c r m. means_alike ⟦<IndexCall<K, V> as PartialEq>⟧.eq
        ⟦<Reply<K, V> as PartialEq>⟧.eq (IndexMoves K.eq K.is_clone) pc pr old new call copy reply given c r m };

    ghost call_is_whole = { λ g n before after old new call reply routed key s. means_whole
        ⟦<IndexCall<K, V> as PartialEq>⟧.eq ⟦<Reply<K, V> as PartialEq>⟧.eq (IndexMoves K.eq K.is_clone) K.eq index_key
        (Prim.search rules) (λ k. stripe_number n (⟦<H as Hashes<K>>⟧.hash_of g.hasher k))
        (routes_alike K.eq K.hash_input (λ w. stripe_number n (hash_of H.BuildHasher H.Hasher.Hasher g.hasher w))
        K.Hash.respects_eq) (IndexWholeMoves K.eq K.is_clone (λ k. stripe_number n
        (⟦<H as Hashes<K>>⟧.hash_of g.hasher k) == length before)) (length before) old new
        (joined (before ++ old ∷ after)) (joined (before ++ new ∷ after)) call reply key
        (λ made given k m. index_call_is_whole K.eq K.is_clone (λ k. stripe_number n
        (⟦<H as Hashes<K>>⟧.hash_of g.hasher k)) (routes_alike K.eq K.hash_input
        (λ w. stripe_number n (hash_of H.BuildHasher H.Hasher.Hasher g.hasher w)) K.Hash.respects_eq) before after old
        new made given routed k m) s };

    ghost resize_is_whole = { λ g n before after old new buckets routed s. resize_joined g before after old new buckets
        s };

    ghost call_keeps = { λ g n i old new call reply routed key s. means_keeps ⟦<IndexCall<K, V> as PartialEq>⟧.eq
        ⟦<Reply<K, V> as PartialEq>⟧.eq (IndexMoves K.eq K.is_clone) K.eq index_key (Prim.search rules)
        (λ k. stripe_number n (⟦<H as Hashes<K>>⟧.hash_of g.hasher k)) (routes_alike K.eq K.hash_input
        (λ w. stripe_number n (hash_of H.BuildHasher H.Hasher.Hasher g.hasher w)) K.Hash.respects_eq) i old new call
        reply key (λ made given k m. index_call_keeps K.eq K.is_clone (λ k. stripe_number n
        (⟦<H as Hashes<K>>⟧.hash_of g.hasher k)) (routes_alike K.eq K.hash_input
        (λ w. stripe_number n (hash_of H.BuildHasher H.Hasher.Hasher g.hasher w)) K.Hash.respects_eq) i old new made
        given routed k m) s };

    ghost resize_keeps = { λ g n i old new buckets routed s. map_resize_keeps g
        (λ k. stripe_number n (⟦<H as Hashes<K>>⟧.hash_of g.hasher k)) i old new buckets routed s };

    ghost empty_keeps = { λ _ _ _ _. tt };
}

/// Makes the first array or the growth that `call` would have to make, if `call` may add a key, and returns the
/// place of its key, or `None`. Returns `None` for a call that adds none. Doesn't make its version. Fails if memory is refused.
fn prepare<K: Eq + Hash, V, H: BuildHasher>(
    index: &mut Owned<K, V, H>,
    call: &IndexCall<K, V>,
) -> Result<Option<Place>, Refused>
    ensures { IndexPreparesCall K.eq ⟦<H as Hashes<K>>⟧.hash_of index.old call.now result index.new }
{
    match call {
        IndexCall::Insert(k, _) => prepare_key(index, k),
        _ => Ok(None),
    }
}

/// Makes the first array or the growth that an insertion of `k` would have to make, and returns the place of the
/// entry of `k`, or `None`. Doesn't make its version. Fails if memory is refused.
fn prepare_key<K: Eq + Hash, V, H: BuildHasher>(
    index: &mut Owned<K, V, H>,
    k: &K,
) -> Result<Option<Place>, Refused>
    ensures { IndexPreparesKey K.eq ⟦<H as Hashes<K>>⟧.hash_of index.old k.now result index.new }
{
    match index.find_or_make_room(k) {
        Ok(found) => Ok(found),
        Err(_) => Err(Refused),
    }
}

impl<K: Eq + Hash + Clone, V: Clone + PartialEq, H: BuildHasher> CopiesReply for Owned<K, V, H> {
    type Call = IndexCall<K, V>;

    type Reply = Reply<K, V>;

    ghost use Rattle.std.specs.Prelude.{IsSome};
    ghost use Rattle.scc_common.specs.Contents.{entries};
    ghost use Rattle.scc_calls.specs.IndexCalls.{index_answer, index_key, IndexKnows};

    ghost next_reply = { λ x. index_answer K.eq (entries x) };

    ghost knows = { λ x. IndexKnows K.eq x };

    ghost has_key = { λ call. IsSome (index_key call) };

    fn copy(&self, call: &IndexCall<K, V>, found: Option<Place>) -> Result<Reply<K, V>, Refused> {
        match call {
            IndexCall::Insert(k, v) => match found {
                Some(_) => {
                    let (key, value) = clone_pair(k, v)?;
                    Ok(Reply::Exists(key, value))
                }
                None => Ok(Reply::Inserted),
            },
            IndexCall::Update(k, _) => Ok(Reply::Has(self.contains(k))),
            IndexCall::Remove(k) => Ok(Reply::Has(self.contains(k))),
            IndexCall::Read(k) => Ok(Reply::Value(self.cloned_value(k)?)),
            IndexCall::Contains(k) => Ok(Reply::Has(self.contains(k))),
            IndexCall::Clear => Ok(Reply::Cleared),
            IndexCall::Len => Ok(Reply::Count(self.len())),
        }
    }
}
