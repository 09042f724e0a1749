//! The calls of the owned set as values.
ghost use Rattle.std.specs.Prelude.{◌≡◌, true, IfOk, OnErr};
ghost use Rattle.scc_common.specs.Contents.{entries, mark_of};
ghost use Rattle.scc_owned_set.specs.Keys.{find};
ghost use Rattle.scc_calls.specs.Copies.{ClonesEqual, MayNotClone};
ghost use Rattle.scc_calls.specs.Preparations.{SetPreparesCall, SetPreparesKey};
ghost use Rattle.scc_calls.specs.declared.replies.Reply.TheVariants.{Key};

use crate::replies::{CopiesReply, copies, equals};
use crate::{Calls, Refused, Reply, SetCall};
use scc_buckets::Place;
use scc_common::{Hashes, KeyError, MakeError};
use scc_owned_set::Owned;
use std::alloc::Global;
use std::hash::{BuildHasher, Hash};

impl<K: Eq + Hash + Clone, H: BuildHasher> Calls for Owned<K, H> {
    type Key = K;

    type Hasher = H;

    type Call = SetCall<K>;

    type Reply = Reply<K, ()>;

    ghost use Rattle.std.specs.Prelude.{◌≡◌, ◌==◌, [], ◌∷◌, ◌++◌, List, length};
    ghost use Rattle.std.specs.List.Sorted.{IsPermutation};
    ghost use Rattle.scc_calls.specs.MapLaws.{routes_alike, both_same, resize_joined};
    ghost use Rattle.scc_calls.specs.MapWhole.{joined};
    ghost use Rattle.scc_common.specs.Routing.{stripe_number};
    ghost use Rattle.scc_calls.specs.SetCalls.{key_of_set, set_adds, set_answer, SetIsPrepared, SetMoves, SetMayRefuse};
    ghost use Rattle.scc_calls.specs.Copies.{Answers, Means};
    ghost use Rattle.scc_calls.specs.Means.{means_alike, means_answer, means_keeps, means_whole};
    ghost use Rattle.scc_calls.specs.Stems.{set_stems_alike, SetStems};
    ghost use Rattle.std.proofs.Common.{refl, rules};
    ghost use Rattle.scc_common.specs.Hashing.{hash_of};
    ghost use Rattle.scc_common.specs.Contents.{hash_in, notes_of};
    ghost use Rattle.scc_calls.specs.SetLaws.{set_call_is_whole, set_call_keeps, set_resize_keeps};
    ghost use Rattle.scc_calls.specs.SetWhole.{SetWholeMoves};
    ghost use Rattle.scc_calls.specs.States.{State, state_of, run_setting, ResizesTo};

    ghost State = { State K };

    ghost Whole = { List K };

    ghost setting = { run_setting };

    ghost state = { state_of };

    ghost size = { λ s. s.1 };

    ghost empty = { λ b. ([], b) };

    ghost limits = { λ _ _ m. m ≡ 0 };

    ghost keys = { λ s. s.0 };

    ghost key_of = { key_of_set };

    ghost answer = { λ _ s. set_answer K.eq s.0 };

    ghost moves = { λ _. Answers (SetStems K.is_clone) (SetMoves K.eq) };

    ghost means = { λ _. Means ⟦<SetCall<K> as PartialEq>⟧.eq ⟦<Reply<K, ()> as PartialEq>⟧.eq (SetMoves K.eq) };

    ghost resizes = { ResizesTo };

    ghost may_refuse = { SetMayRefuse K.eq ⟦<H as Hashes<K>>⟧.hash_of };

    ghost adds = { set_adds };

    ghost is_prepared = { λ m. SetIsPrepared K.eq (hash_in ⟦<H as Hashes<K>>⟧.hash_of m) m
        ⟦<Reply<K, ()> as PartialEq>⟧.eq };

    ghost is_marked = { λ m. mark_of m };

    ghost whole = { joined };

    ghost whole_means = { λ g n i. Means ⟦<SetCall<K> as PartialEq>⟧.eq ⟦<Reply<K, ()> as PartialEq>⟧.eq
        (SetWholeMoves K.eq (λ k. stripe_number n (⟦<H as Hashes<K>>⟧.hash_of g.hasher k) == i)) };

    ghost whole_resizes = { λ _ _ _ w _ v. IsPermutation w v };

    fn key(call: &SetCall<K>) -> Option<&K> {
        match call {
            SetCall::Insert(k) => Some(k),
            SetCall::Replace(k) => Some(k),
            SetCall::Remove(k) => Some(k),
            SetCall::Read(k) => Some(k),
            SetCall::Contains(k) => Some(k),
            SetCall::Clear => None,
            SetCall::Len => None,
        }
    }

    fn ready(&mut self, call: &SetCall<K>) -> Result<(Reply<K, ()>, Reply<K, ()>), Refused> {
        let found = prepare(self, call)?;
        match copies(self, call, found) {
            Ok(both) => Ok(both),
            Err(Refused) => {
                self.drop_room();
                Err(Refused)
            }
        }
    }

    fn call(&mut self, call: SetCall<K>) -> Result<Reply<K, ()>, Refused> {
        equals::<Reply<K, ()>>();
        match call {
            SetCall::Insert(k) => match self.insert_sync(k) {
                Ok(()) => Ok(Reply::Inserted),
                Err(KeyError::Exists(k)) => Ok(Reply::Exists(k, ())),
                Err(KeyError::Memory(_)) => Err(Refused),
            },
            SetCall::Replace(k) => match self.replace_sync(k) {
                Ok(old) => Ok(Reply::Key(old)),
                Err(_) => Err(Refused),
            },
            SetCall::Remove(k) => Ok(Reply::Key(self.remove_sync(&k))),
            SetCall::Read(k) => match self.cloned_key(&k) {
                Ok(key) => Ok(Reply::Key(key)),
                Err(_) => Err(Refused),
            },
            SetCall::Contains(k) => Ok(Reply::Has(self.contains_sync(&k))),
            SetCall::Clear => {
                self.clear_sync();
                Ok(Reply::Cleared)
            }
            SetCall::Len => Ok(Reply::Count(self.len())),
        }
    }

    fn buckets(&self) -> usize {
        self.capacity() / 32
    }

    fn make(
        alloc: Global,
        skipped: u32,
        slots: usize,
        maximum: usize,
        hasher: H,
    ) -> Result<Self, MakeError>
    where
        H: Drop,
    {
        Owned::skipping(alloc, skipped, slots, hasher)
    }

    ghost one_limit = { λ _ _ m n p q. both_same m n 0 p q };

    ghost moves_mean = { λ clones g old new call reply m. means_answer ⟦<SetCall<K> as PartialEq>⟧.eq
        ⟦<Reply<K, ()> as PartialEq>⟧.eq (SetMoves K.eq) (SetStems K.is_clone)
        (set_stems_alike clones K.is_clone refl (λ x y h. h)) old new call reply m };

    ghost means_alike = { λ g old new call copy reply given pc pr c r m. means_alike ⟦<SetCall<K> as PartialEq>⟧.eq
        ⟦<Reply<K, ()> as PartialEq>⟧.eq (SetMoves K.eq) pc pr old new call copy reply given c r m };

    ghost call_is_whole = { λ g n before after old new call reply routed key s. means_whole
        ⟦<SetCall<K> as PartialEq>⟧.eq ⟦<Reply<K, ()> as PartialEq>⟧.eq (SetMoves K.eq) K.eq key_of_set
        (Prim.search rules) (λ k. stripe_number n (⟦<H as Hashes<K>>⟧.hash_of g.hasher k))
        (routes_alike K.eq K.hash_input (λ w. stripe_number n (hash_of H.BuildHasher H.Hasher.Hasher g.hasher w))
        K.Hash.respects_eq) (SetWholeMoves K.eq (λ k. stripe_number n (⟦<H as Hashes<K>>⟧.hash_of g.hasher k) == length
        before)) (length before) old new (joined (before ++ old ∷ after))
        (joined (before ++ new ∷ after)) call reply key (λ made given k m. set_call_is_whole K.eq
        (λ k. stripe_number n (⟦<H as Hashes<K>>⟧.hash_of g.hasher k)) (routes_alike K.eq K.hash_input
        (λ w. stripe_number n (hash_of H.BuildHasher H.Hasher.Hasher g.hasher w)) K.Hash.respects_eq) before after old
        new made given routed k m) s };

    ghost resize_is_whole = { λ g n before after old new buckets routed s. resize_joined g before after old new buckets
        s };

    ghost call_keeps = { λ g n i old new call reply routed key s. means_keeps ⟦<SetCall<K> as PartialEq>⟧.eq
        ⟦<Reply<K, ()> as PartialEq>⟧.eq (SetMoves K.eq) K.eq key_of_set (Prim.search rules)
        (λ k. stripe_number n (⟦<H as Hashes<K>>⟧.hash_of g.hasher k)) (routes_alike K.eq K.hash_input
        (λ w. stripe_number n (hash_of H.BuildHasher H.Hasher.Hasher g.hasher w)) K.Hash.respects_eq) i old new call
        reply key (λ made given k m. set_call_keeps K.eq (λ k. stripe_number n (⟦<H as Hashes<K>>⟧.hash_of g.hasher k))
        (routes_alike K.eq K.hash_input (λ w. stripe_number n (hash_of H.BuildHasher H.Hasher.Hasher g.hasher w))
        K.Hash.respects_eq) i old new made given routed k m) s };

    ghost resize_keeps = { λ g n i old new buckets routed s. set_resize_keeps g
        (λ k. stripe_number n (⟦<H as Hashes<K>>⟧.hash_of g.hasher k)) i old new buckets routed s };

    ghost empty_keeps = { λ _ _ _ _. tt };
}

/// Makes the first array or the growth that `call` would have to make, if `call` may add a key, and returns the
/// place of its key, or `None`. Returns `None` for a call that adds none. Fails if memory is refused.
fn prepare<K: Eq + Hash, H: BuildHasher>(
    set: &mut Owned<K, H>,
    call: &SetCall<K>,
) -> Result<Option<Place>, Refused>
    ensures { SetPreparesCall K.eq ⟦<H as Hashes<K>>⟧.hash_of set.old call.now result set.new }
{
    match call {
        SetCall::Insert(k) => prepare_key(set, k),
        SetCall::Replace(k) => prepare_key(set, k),
        _ => Ok(None),
    }
}

/// Makes the first array or the growth that an insertion of `k` would have to make, and returns the place of the
/// entry of `k`, or `None`. Fails if memory is refused.
fn prepare_key<K: Eq + Hash, H: BuildHasher>(
    set: &mut Owned<K, H>,
    k: &K,
) -> Result<Option<Place>, Refused>
    ensures { SetPreparesKey K.eq ⟦<H as Hashes<K>>⟧.hash_of set.old k.now result set.new }
{
    match set.find_or_make_room(k) {
        Ok(found) => Ok(found),
        Err(_) => Err(Refused),
    }
}

impl<K: Eq + Hash + Clone, H: BuildHasher> CopiesReply for Owned<K, H> {
    type Call = SetCall<K>;

    type Reply = Reply<K, ()>;

    ghost use Rattle.std.specs.Prelude.{IsSome};
    ghost use Rattle.scc_common.specs.Contents.{entries};
    ghost use Rattle.scc_calls.specs.SetCalls.{key_of_set, set_answer, SetKnows};

    ghost next_reply = { λ s. set_answer K.eq (entries s) };

    ghost knows = { λ s. SetKnows K.eq s };

    ghost has_key = { λ call. IsSome (key_of_set call) };

    fn copy(&self, call: &SetCall<K>, found: Option<Place>) -> Result<Reply<K, ()>, Refused> {
        match call {
            SetCall::Insert(k) => match found {
                Some(_) => match k.clone() {
                    Ok(key) => Ok(Reply::Exists(key, ())),
                    Err(_) => Err(Refused),
                },
                None => Ok(Reply::Inserted),
            },
            SetCall::Replace(_) => match found {
                Some(place) => match self.key_at(place).clone() {
                    Ok(key) => Ok(Reply::Key(Some(key))),
                    Err(_) => Err(Refused),
                },
                None => Ok(Reply::Key(None)),
            },
            SetCall::Remove(k) => copy_key(self, k),
            SetCall::Read(k) => copy_key(self, k),
            SetCall::Contains(k) => Ok(Reply::Has(self.contains_sync(k))),
            SetCall::Clear => Ok(Reply::Cleared),
            SetCall::Len => Ok(Reply::Count(self.len())),
        }
    }
}

/// Returns a reply with a copy of the stored key that equals `k`. Fails if a clone is refused.
fn copy_key<K: Eq + Hash + Clone, H: BuildHasher>(
    set: &Owned<K, H>,
    k: &K,
) -> Result<Reply<K, ()>, Refused>
    requires clones { ClonesEqual ⟦<Reply<K, ()> as Clone>⟧.is_clone ⟦<Reply<K, ()> as PartialEq>⟧.eq }
    ensures ok { IfOk result (λ r. ⟦<Reply<K, ()> as PartialEq>⟧.eq (Key (find K.eq (entries set.now) k.now)) r
        ≡ true) }
    ensures refused { OnErr result (MayNotClone ⟦<Reply<K, ()> as Clone>⟧.is_infallible
        (Key (find K.eq (entries set.now) k.now))) }
{
    Ok(Reply::Key(set.cloned_key(k)?))
}
