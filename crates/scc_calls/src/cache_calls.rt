//! The calls of the owned cache as values.
ghost use Rattle.std.specs.Prelude.{◌≡◌, true, IfOk, OnErr};
ghost use Rattle.scc_common.specs.Contents.{bucket_count, list_of, hash_in, mark_of};
ghost use Rattle.scc_owned_cache.specs.CacheSteps.{list_number, IsAbsent};
ghost use Rattle.scc_calls.specs.CacheCalls.{first_of_full};
ghost use Rattle.scc_calls.specs.Copies.{ClonesEqual, MayNotClone};
ghost use Rattle.scc_calls.specs.Preparations.{CachePreparesCall};
ghost use Rattle.scc_calls.specs.declared.replies.Reply.TheVariants.{Evicted};

use crate::replies::{CopiesReply, clone_pair, copies, equals};
use crate::{CacheCall, Calls, Refused, Reply};
use scc_buckets::Place;
use scc_common::{Hashes, InsertError, MakeError};
use scc_owned_cache::Owned;
use scc_owned_cache::borrowed::{Entry, ReplaceResult};
use std::alloc::Global;
use std::hash::{BuildHasher, Hash};

impl<K: Eq + Hash + Clone, V: Clone + PartialEq, H: BuildHasher> Calls for Owned<K, V, H> {
    type Key = K;

    type Hasher = H;

    type Call = CacheCall<K, V>;

    type Reply = Reply<K, V>;

    ghost use Rattle.std.specs.Prelude.{List, [], length, max, replicate};
    ghost use Rattle.scc_common.specs.Contents.{lists_of};
    ghost use Rattle.scc_common.specs.Sizes.{IsArraySize};
    ghost use Rattle.scc_common.specs.Hashing.{hash_of};
    ghost use Rattle.scc_common.specs.Contents.{hash_in, notes_of};
    ghost use Rattle.scc_calls.specs.CacheCalls.{cache_adds, cache_answer, cache_key, cache_setting, keys_in, number_by, CacheIsPrepared, CacheMoves, CacheMayRefuse, CacheResizes};
    ghost use Rattle.scc_calls.specs.Copies.{Answers, Means};
    ghost use Rattle.scc_calls.specs.Means.{means_alike, means_answer, means_keeps, means_whole};
    ghost use Rattle.scc_calls.specs.Stems.{cache_stems_alike, CacheStems};
    ghost use Rattle.std.proofs.Common.{refl, rules};
    ghost use Rattle.scc_calls.specs.CacheLaws.{one_size, cache_call_keeps, cache_resize_keeps, empty_keys};
    ghost use Rattle.scc_calls.specs.MapLaws.{routes_alike};
    ghost use Rattle.scc_calls.specs.Parted.{PartMoves, PartResizes, parted_call, parted_resize};
    ghost use Rattle.scc_common.specs.Routing.{stripe_number};

    ghost State = { List (List (K × V)) };

    ghost Whole = { List (List (List (K × V))) };

    ghost setting = { cache_setting };

    ghost state = { λ c. lists_of c.contents };

    ghost size = { length };

    ghost empty = { λ b. replicate b [] };

    ghost limits = { λ asked slots m. IsArraySize (max asked slots) m };

    ghost keys = { keys_in };

    ghost key_of = { cache_key };

    ghost answer = { λ g. cache_answer K.eq (number_by ⟦<H as Hashes<K>>⟧.hash_of g) };

    ghost moves = { λ g. Answers (CacheStems V.is_clone) (CacheMoves K.eq (number_by ⟦<H as Hashes<K>>⟧.hash_of g)) };

    ghost means = { λ g. Means ⟦<CacheCall<K, V> as PartialEq>⟧.eq ⟦<Reply<K, V> as PartialEq>⟧.eq
        (CacheMoves K.eq (number_by ⟦<H as Hashes<K>>⟧.hash_of g)) };

    ghost resizes = { λ g. CacheResizes g (number_by ⟦<H as Hashes<K>>⟧.hash_of g) };

    ghost may_refuse = { λ g. CacheMayRefuse K.eq (number_by ⟦<H as Hashes<K>>⟧.hash_of g) };

    ghost adds = { cache_adds };

    ghost is_prepared = { λ c. CacheIsPrepared K.eq (hash_in ⟦<H as Hashes<K>>⟧.hash_of c.contents) c
        ⟦<Reply<K, V> as PartialEq>⟧.eq };

    ghost is_marked = { λ c. mark_of c.contents };

    ghost whole = { λ parts. parts };

    ghost whole_means = { λ g n i. PartMoves (Means ⟦<CacheCall<K, V> as PartialEq>⟧.eq ⟦<Reply<K, V> as PartialEq>⟧.eq
        (CacheMoves K.eq (number_by ⟦<H as Hashes<K>>⟧.hash_of g))) cache_key
        (λ k. stripe_number n (⟦<H as Hashes<K>>⟧.hash_of g.hasher k)) i };

    ghost whole_resizes = { λ g n i. PartResizes (CacheResizes g (number_by ⟦<H as Hashes<K>>⟧.hash_of g)) i };

    fn key(call: &CacheCall<K, V>) -> Option<&K> {
        match call {
            CacheCall::Put(k, _) => Some(k),
            CacheCall::Get(k) => Some(k),
            CacheCall::Write(k, _) => Some(k),
            CacheCall::Replace(k) => Some(k),
            CacheCall::Remove(k) => Some(k),
            CacheCall::Read(k) => Some(k),
            CacheCall::Contains(k) => Some(k),
            CacheCall::Clear => None,
            CacheCall::Len => None,
        }
    }

    fn ready(&mut self, call: &CacheCall<K, V>) -> Result<(Reply<K, V>, Reply<K, V>), Refused> {
        let found = prepare(self, call)?;
        match copies(self, call, found) {
            Ok(both) => Ok(both),
            Err(Refused) => {
                self.drop_room();
                Err(Refused)
            }
        }
    }

    fn call(&mut self, call: CacheCall<K, V>) -> Result<Reply<K, V>, Refused> {
        equals::<Reply<K, V>>();
        match call {
            CacheCall::Put(k, v) => match self.put_sync(k, v) {
                Ok(evicted) => Ok(Reply::Evicted(evicted)),
                Err(InsertError::Exists((k, v))) => Ok(Reply::Exists(k, v)),
                Err(InsertError::Memory(_)) => Err(Refused),
            },
            CacheCall::Get(k) => match self.cloned_value(&k) {
                Ok(value) => match self.get_sync(&k) {
                    Some(_entry) => Ok(Reply::Value(value)),
                    None => Ok(Reply::Value(None)),
                },
                Err(_) => Err(Refused),
            },
            CacheCall::Write(k, v) => match self.entry_sync(k) {
                Entry::Occupied(mut entry) => Ok(Reply::Old(Some(entry.put(v)))),
                Entry::Vacant(entry) => {
                    entry.into_key();
                    Ok(Reply::Old(None))
                }
            },
            CacheCall::Replace(k) => match self.replace_sync(k) {
                ReplaceResult::Replaced(_entry, old) => Ok(Reply::Key(Some(old))),
                ReplaceResult::NotReplaced(entry) => {
                    entry.into_key();
                    Ok(Reply::Key(None))
                }
            },
            CacheCall::Remove(k) => Ok(Reply::Pair(self.remove_sync(&k))),
            CacheCall::Read(k) => match self.cloned_value(&k) {
                Ok(value) => Ok(Reply::Value(value)),
                Err(_) => Err(Refused),
            },
            CacheCall::Contains(k) => Ok(Reply::Has(self.contains_sync(&k))),
            CacheCall::Clear => {
                self.clear_sync();
                Ok(Reply::Cleared)
            }
            CacheCall::Len => Ok(Reply::Count(self.len())),
        }
    }

    fn buckets(&self) -> usize {
        self.capacity() / 32
    }

    fn make(
        alloc: Global,
        skipped: u32,
        slots: usize,
        maximum: usize,
        hasher: H,
    ) -> Result<Self, MakeError>
    where
        H: Drop,
    {
        Owned::skipping(alloc, skipped, slots, maximum, hasher)
    }

    ghost one_limit = { λ asked slots m n p q. one_size (max asked slots) m n p q };

    ghost moves_mean = { λ clones g old new call reply m. means_answer ⟦<CacheCall<K, V> as PartialEq>⟧.eq
        ⟦<Reply<K, V> as PartialEq>⟧.eq (CacheMoves K.eq (number_by ⟦<H as Hashes<K>>⟧.hash_of g))
        (CacheStems V.is_clone) (cache_stems_alike clones V.is_clone refl (λ x y h. h)) old new call reply m };

    ghost means_alike = { λ g old new call copy reply given pc pr c r m. means_alike ⟦<CacheCall<K, V> as PartialEq>⟧.eq
        ⟦<Reply<K, V> as PartialEq>⟧.eq (CacheMoves K.eq (number_by ⟦<H as Hashes<K>>⟧.hash_of g)) pc pr old new call
        copy reply given c r m };

    ghost call_is_whole = { λ g n before after old new call reply routed key s. parted_call
        (Means ⟦<CacheCall<K, V> as PartialEq>⟧.eq ⟦<Reply<K, V> as PartialEq>⟧.eq
        (CacheMoves K.eq (number_by ⟦<H as Hashes<K>>⟧.hash_of g))) cache_key
        (λ k. stripe_number n (⟦<H as Hashes<K>>⟧.hash_of g.hasher k)) before after old new call reply key s };

    ghost resize_is_whole = { λ g n before after old new buckets routed s. parted_resize
        (CacheResizes g (number_by ⟦<H as Hashes<K>>⟧.hash_of g)) before after old new buckets s };

    ghost call_keeps = { λ g n i old new call reply routed key s. means_keeps ⟦<CacheCall<K, V> as PartialEq>⟧.eq
        ⟦<Reply<K, V> as PartialEq>⟧.eq (CacheMoves K.eq (number_by ⟦<H as Hashes<K>>⟧.hash_of g)) K.eq cache_key
        (Prim.search rules) (λ k. stripe_number n (⟦<H as Hashes<K>>⟧.hash_of g.hasher k))
        (routes_alike K.eq K.hash_input (λ w. stripe_number n (hash_of H.BuildHasher H.Hasher.Hasher g.hasher w))
        K.Hash.respects_eq) i old new call reply key (λ made given k m. cache_call_keeps K.eq
        (number_by ⟦<H as Hashes<K>>⟧.hash_of g) (λ k. stripe_number n (⟦<H as Hashes<K>>⟧.hash_of g.hasher k)) i old
        new made given routed k m) s };

    ghost resize_keeps = { λ g n i old new buckets routed s. cache_resize_keeps g
        (number_by ⟦<H as Hashes<K>>⟧.hash_of g) (λ k. stripe_number n (⟦<H as Hashes<K>>⟧.hash_of g.hasher k)) i old
        new buckets routed s };

    ghost empty_keeps = { λ h n i b. empty_keys V (λ k. stripe_number n (⟦<H as Hashes<K>>⟧.hash_of h k)) i b };
}

/// Makes the first array or the growth that `call` would have to make, if `call` may add a key, and returns the
/// place of its key, or `None`. Returns `None` for a call that adds none. Fails if memory is refused.
fn prepare<K: Eq + Hash, V, H: BuildHasher>(
    cache: &mut Owned<K, V, H>,
    call: &CacheCall<K, V>,
) -> Result<Option<Place>, Refused>
    ensures { CachePreparesCall K.eq ⟦<H as Hashes<K>>⟧.hash_of cache.old call.now result cache.new }
{
    match call {
        CacheCall::Put(k, _) => match cache.find_or_make_room(k) {
            Ok(found) => Ok(found),
            Err(_) => Err(Refused),
        },
        _ => Ok(None),
    }
}

impl<K: Eq + Hash + Clone, V: Clone + PartialEq, H: BuildHasher> CopiesReply for Owned<K, V, H> {
    type Call = CacheCall<K, V>;

    type Reply = Reply<K, V>;

    ghost use Rattle.std.specs.Prelude.{IsSome};
    ghost use Rattle.scc_common.specs.Contents.{hash_in, lists_of};
    ghost use Rattle.scc_owned_cache.specs.CacheSteps.{list_number};
    ghost use Rattle.scc_calls.specs.CacheCalls.{cache_answer, cache_key, CacheKnows};

    ghost next_reply = { λ c. cache_answer K.eq (list_number (hash_in ⟦<H as Hashes<K>>⟧.hash_of c.contents) c.contents)
        (lists_of c.contents) };

    ghost knows = { λ c. CacheKnows K.eq (hash_in ⟦<H as Hashes<K>>⟧.hash_of c.contents) c };

    ghost has_key = { λ call. IsSome (cache_key call) };

    fn copy(&self, call: &CacheCall<K, V>, found: Option<Place>) -> Result<Reply<K, V>, Refused> {
        match call {
            CacheCall::Put(k, v) => match found {
                Some(_) => {
                    let (key, value) = clone_pair(k, v)?;
                    Ok(Reply::Exists(key, value))
                }
                None => copy_evicted(self, k),
            },
            CacheCall::Get(k) => Ok(Reply::Value(self.cloned_value(k)?)),
            CacheCall::Write(k, _) => Ok(Reply::Old(self.cloned_value(k)?)),
            CacheCall::Replace(k) => Ok(Reply::Key(self.cloned_key(k)?)),
            CacheCall::Remove(k) => Ok(Reply::Pair(self.cloned_pair(k)?)),
            CacheCall::Read(k) => Ok(Reply::Value(self.cloned_value(k)?)),
            CacheCall::Contains(k) => Ok(Reply::Has(self.contains_sync(k))),
            CacheCall::Clear => Ok(Reply::Cleared),
            CacheCall::Len => Ok(Reply::Count(self.len())),
        }
    }
}

/// Returns a copy of the reply to a put of the missing key `k`, if the put makes no resize. Fails if a clone is
/// refused.
fn copy_evicted<K: Eq + Hash + Clone, V: Clone + PartialEq, H: BuildHasher>(
    cache: &Owned<K, V, H>,
    k: &K,
) -> Result<Reply<K, V>, Refused>
    requires clones { ClonesEqual ⟦<Reply<K, V> as Clone>⟧.is_clone ⟦<Reply<K, V> as PartialEq>⟧.eq }
    requires absent { IsAbsent (hash_in ⟦<H as Hashes<K>>⟧.hash_of cache.now.contents) K.eq cache.now.contents k.now }
    ensures ok { IfOk result (λ r. ⟦<Reply<K, V> as PartialEq>⟧.eq (Evicted
        (first_of_full (list_of cache.now.contents (list_number (hash_in ⟦<H as Hashes<K>>⟧.hash_of cache.now.contents)
        cache.now.contents (bucket_count cache.now.contents) k.now)))) r ≡ true) }
    ensures refused { OnErr result (MayNotClone ⟦<Reply<K, V> as Clone>⟧.is_infallible
        (Evicted (first_of_full (list_of cache.now.contents (list_number
        (hash_in ⟦<H as Hashes<K>>⟧.hash_of cache.now.contents) cache.now.contents
        (bucket_count cache.now.contents) k.now))))) }
{
    match cache.next_evicted(k) {
        Some((key, value)) => {
            let pair = clone_pair(key, value)?;
            Ok(Reply::Evicted(Some(pair)))
        }
        None => Ok(Reply::Evicted(None)),
    }
}
