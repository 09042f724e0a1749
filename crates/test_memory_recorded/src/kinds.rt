// The four kinds as recorded containers: calls as values with their replies, in an order in which each call that
// inserts meets a missing key and a present one.
ghost use Rattle.scc_calls.specs.Copies.{ClonesEqual};

use scc_calls::{CacheCall, IndexCall, MapCall, Reply, SetCall, WholeCalls};
use scc_common::Shared;
use scc_history::CallError;
use std::alloc::Global;
use std::io::Print;
use test_kit::refusals::Refusal;
use test_kit::zero::Zero;

pub(crate) type Map = scc_owned::map::Owned<u64, u64, Shared<Zero>>;

pub(crate) type Set = scc_owned_set::Owned<u64, Shared<Zero>>;

pub(crate) type Index = scc_owned::index::Owned<u64, u64, Shared<Zero>>;

pub(crate) type Cache = scc_owned_cache::Owned<u64, u64, Shared<Zero>>;

// What was refused.
#[derive(Clone, Copy)]
pub(crate) enum What {
    Call(CallError),
    Length,
    Clearing,
    Finish,
    // A growth that an insertion into a full bucket wants.
    Growth,
    // An insertion whose growth was refused too.
    Overflow,
    // An insertion whose growth was made.
    AfterGrowth,
    Run,
    Single,
}

// The number of calls that each kind makes.
pub(crate) const CALLS: u64 = 8;

/// Returns the number of keys present after `made` calls.
pub(crate) fn count_after(made: usize) -> usize {
    match made {
        0 => 0,
        1 | 7 | 8 => 1,
        _ => 2,
    }
}

// A kind with its calls.
pub(crate) trait Tried: WholeCalls + Drop {
    /// Reports what was refused.
    fn meet<R: Print>(rt: &R, refusal: &mut Refusal, what: What);

    /// Returns the call with this number, and its reply.
    fn call_of(number: u64) -> (Self::Call, Self::Reply);

    /// Returns the insertion of `key` after the keys below it, in one bucket, and its reply.
    fn insertion(key: u64) -> (Self::Call, Self::Reply);

    /// Returns whether such an insertion may be refused by the container.
    fn may_refuse(key: u64) -> bool;

    /// Returns the first key that is present after the insertions of the keys below `end`.
    fn first_kept(end: u64) -> u64;

    /// Returns whether `key` is present as its insertion left it.
    fn has(&self, key: u64) -> bool;

    /// Returns the number of keys.
    fn count(&self) -> usize;

    /// Returns an empty container.
    fn made(alloc: Global, hasher: Shared<Zero>) -> Self;

    /// Returns the hasher that the container is made with.
    fn hasher(hasher: Shared<Zero>) -> Self::Hasher;

    // A clone of a call equals the call.
    ghost equal_calls: { ClonesEqual Self.Call.is_clone Self.Call.eq };

    // A clone of a reply equals the reply.
    ghost equal_replies: { ClonesEqual Self.Reply.is_clone Self.Reply.eq };
}

impl Tried for Map {
    fn meet<R: Print>(rt: &R, refusal: &mut Refusal, what: What) {
        match what {
            What::Call(CallError::Room) => refusal.meet(rt, "room for a call of a recorded map"),
            What::Call(CallError::Container) => refusal.meet(rt, "a call of a recorded map"),
            What::Length => refusal.meet(rt, "a length of a recorded map"),
            What::Clearing => refusal.meet(rt, "a clearing of a recorded map"),
            What::Finish => refusal.meet(rt, "a finish of a recorded map"),
            What::Growth => refusal.meet(rt, "a growth of a recorded map"),
            What::Overflow => refusal.meet(rt, "an insertion into a recorded map and its growth"),
            What::AfterGrowth => refusal.meet(
                rt,
                "an insertion into a recorded map after its growth",
            ),
            What::Run => refusal.meet(rt, "a run on a map"),
            What::Single => refusal.meet(rt, "a call as a value of a map"),
        }
    }

    fn call_of(number: u64) -> (MapCall<u64, u64>, Reply<u64, u64>) {
        match number {
            0 => (MapCall::Insert(1, 10), Reply::Inserted),
            1 => (MapCall::Upsert(2, 20), Reply::Old(None)),
            2 => (MapCall::Upsert(1, 11), Reply::Old(Some(10))),
            3 => (MapCall::Insert(1, 5), Reply::Exists(1, 5)),
            4 => (MapCall::Read(1), Reply::Value(Some(11))),
            5 => (MapCall::Replace(2), Reply::Key(Some(2))),
            6 => (MapCall::Remove(2), Reply::Pair(Some((2, 20)))),
            _ => (MapCall::Contains(2), Reply::Has(false)),
        }
    }

    fn insertion(key: u64) -> (MapCall<u64, u64>, Reply<u64, u64>) {
        (MapCall::Insert(key, !key), Reply::Inserted)
    }

    fn may_refuse(key: u64) -> bool {
        key == 0 || key >= 32
    }

    fn first_kept(_end: u64) -> u64 {
        0
    }

    fn has(&self, key: u64) -> bool {
        self.read_sync(&key, |_, value| *value) == Some(!key)
    }

    fn count(&self) -> usize {
        self.len()
    }

    fn made(alloc: Global, hasher: Shared<Zero>) -> Map {
        scc_owned::map::Owned::with_hasher(alloc, hasher)
    }

    fn hasher(hasher: Shared<Zero>) -> Shared<Zero> {
        hasher
    }

    ghost use Rattle.std.proofs.Common.{rules};

    ghost equal_calls = { λ a b h. Prim.search rules };

    ghost equal_replies = { λ a b h. Prim.search rules };
}

impl Tried for Set {
    fn meet<R: Print>(rt: &R, refusal: &mut Refusal, what: What) {
        match what {
            What::Call(CallError::Room) => refusal.meet(rt, "room for a call of a recorded set"),
            What::Call(CallError::Container) => refusal.meet(rt, "a call of a recorded set"),
            What::Length => refusal.meet(rt, "a length of a recorded set"),
            What::Clearing => refusal.meet(rt, "a clearing of a recorded set"),
            What::Finish => refusal.meet(rt, "a finish of a recorded set"),
            What::Growth => refusal.meet(rt, "a growth of a recorded set"),
            What::Overflow => refusal.meet(rt, "an insertion into a recorded set and its growth"),
            What::AfterGrowth => refusal.meet(
                rt,
                "an insertion into a recorded set after its growth",
            ),
            What::Run => refusal.meet(rt, "a run on a set"),
            What::Single => refusal.meet(rt, "a call as a value of a set"),
        }
    }

    fn call_of(number: u64) -> (SetCall<u64>, Reply<u64, ()>) {
        match number {
            0 => (SetCall::Insert(1), Reply::Inserted),
            1 => (SetCall::Replace(2), Reply::Key(None)),
            2 => (SetCall::Replace(1), Reply::Key(Some(1))),
            3 => (SetCall::Insert(1), Reply::Exists(1, ())),
            4 => (SetCall::Read(1), Reply::Key(Some(1))),
            5 => (SetCall::Contains(2), Reply::Has(true)),
            6 => (SetCall::Remove(2), Reply::Key(Some(2))),
            _ => (SetCall::Contains(2), Reply::Has(false)),
        }
    }

    fn insertion(key: u64) -> (SetCall<u64>, Reply<u64, ()>) {
        (SetCall::Insert(key), Reply::Inserted)
    }

    fn may_refuse(key: u64) -> bool {
        key == 0 || key >= 32
    }

    fn first_kept(_end: u64) -> u64 {
        0
    }

    fn has(&self, key: u64) -> bool {
        self.contains_sync(&key)
    }

    fn count(&self) -> usize {
        self.len()
    }

    fn made(alloc: Global, hasher: Shared<Zero>) -> Set {
        scc_owned_set::Owned::with_hasher(alloc, hasher)
    }

    fn hasher(hasher: Shared<Zero>) -> Shared<Zero> {
        hasher
    }

    ghost use Rattle.std.proofs.Common.{rules};

    ghost equal_calls = { λ a b h. Prim.search rules };

    ghost equal_replies = { λ a b h. Prim.search rules };
}

impl Tried for Index {
    fn meet<R: Print>(rt: &R, refusal: &mut Refusal, what: What) {
        match what {
            What::Call(CallError::Room) => refusal.meet(rt, "room for a call of a recorded index"),
            What::Call(CallError::Container) => refusal.meet(rt, "a call of a recorded index"),
            What::Length => refusal.meet(rt, "a length of a recorded index"),
            What::Clearing => refusal.meet(rt, "a clearing of a recorded index"),
            What::Finish => refusal.meet(rt, "a finish of a recorded index"),
            What::Growth => refusal.meet(rt, "a growth of a recorded index"),
            What::Overflow => refusal.meet(rt, "an insertion into a recorded index and its growth"),
            What::AfterGrowth => refusal.meet(
                rt,
                "an insertion into a recorded index after its growth",
            ),
            What::Run => refusal.meet(rt, "a run on an index"),
            What::Single => refusal.meet(rt, "a call as a value of an index"),
        }
    }

    fn call_of(number: u64) -> (IndexCall<u64, u64>, Reply<u64, u64>) {
        match number {
            0 => (IndexCall::Insert(1, 10), Reply::Inserted),
            1 => (IndexCall::Insert(2, 20), Reply::Inserted),
            2 => (IndexCall::Update(1, 11), Reply::Has(true)),
            3 => (IndexCall::Insert(1, 5), Reply::Exists(1, 5)),
            4 => (IndexCall::Read(1), Reply::Value(Some(11))),
            5 => (IndexCall::Update(3, 30), Reply::Has(false)),
            6 => (IndexCall::Remove(2), Reply::Has(true)),
            _ => (IndexCall::Contains(2), Reply::Has(false)),
        }
    }

    fn insertion(key: u64) -> (IndexCall<u64, u64>, Reply<u64, u64>) {
        (IndexCall::Insert(key, !key), Reply::Inserted)
    }

    fn may_refuse(_key: u64) -> bool {
        true
    }

    fn first_kept(_end: u64) -> u64 {
        0
    }

    fn has(&self, key: u64) -> bool {
        self.peek_with(&key, |_, value| *value) == Some(!key)
    }

    fn count(&self) -> usize {
        self.len()
    }

    fn made(alloc: Global, hasher: Shared<Zero>) -> Index {
        scc_owned::index::Owned::with_hasher(alloc, hasher)
    }

    fn hasher(hasher: Shared<Zero>) -> Shared<Zero> {
        hasher
    }

    ghost use Rattle.std.proofs.Common.{rules};

    ghost equal_calls = { λ a b h. Prim.search rules };

    ghost equal_replies = { λ a b h. Prim.search rules };
}

impl Tried for Cache {
    fn meet<R: Print>(rt: &R, refusal: &mut Refusal, what: What) {
        match what {
            What::Call(CallError::Room) => refusal.meet(rt, "room for a call of a recorded cache"),
            What::Call(CallError::Container) => refusal.meet(rt, "a call of a recorded cache"),
            What::Length => refusal.meet(rt, "a length of a recorded cache"),
            What::Clearing => refusal.meet(rt, "a clearing of a recorded cache"),
            What::Finish => refusal.meet(rt, "a finish of a recorded cache"),
            What::Growth => refusal.meet(rt, "a growth of a recorded cache"),
            // A put with an array isn't refused.
            What::Overflow | What::AfterGrowth => {}
            What::Run => refusal.meet(rt, "a run on a cache"),
            What::Single => refusal.meet(rt, "a call as a value of a cache"),
        }
    }

    fn call_of(number: u64) -> (CacheCall<u64, u64>, Reply<u64, u64>) {
        match number {
            0 => (CacheCall::Put(1, 10), Reply::Evicted(None)),
            1 => (CacheCall::Put(2, 20), Reply::Evicted(None)),
            2 => (CacheCall::Write(1, 11), Reply::Old(Some(10))),
            3 => (CacheCall::Put(1, 5), Reply::Exists(1, 5)),
            4 => (CacheCall::Get(1), Reply::Value(Some(11))),
            5 => (CacheCall::Replace(2), Reply::Key(Some(2))),
            6 => (CacheCall::Remove(2), Reply::Pair(Some((2, 20)))),
            _ => (CacheCall::Read(2), Reply::Value(None)),
        }
    }

    fn insertion(key: u64) -> (CacheCall<u64, u64>, Reply<u64, u64>) {
        let evicted = if key < 32 {
            None
        } else {
            let oldest = key.saturating_sub(32);
            Some((oldest, !oldest))
        };
        (CacheCall::Put(key, !key), Reply::Evicted(evicted))
    }

    fn may_refuse(key: u64) -> bool {
        key == 0
    }

    fn first_kept(end: u64) -> u64 {
        end.saturating_sub(32)
    }

    fn has(&self, key: u64) -> bool {
        self.read_sync(&key, |_, value| *value) == Some(!key)
    }

    fn count(&self) -> usize {
        self.len()
    }

    fn made(alloc: Global, hasher: Shared<Zero>) -> Cache {
        scc_owned_cache::Owned::with_hasher(alloc, hasher)
    }

    fn hasher(hasher: Shared<Zero>) -> Shared<Zero> {
        hasher
    }

    ghost use Rattle.std.proofs.Common.{rules};

    ghost equal_calls = { λ a b h. Prim.search rules };

    ghost equal_replies = { λ a b h. Prim.search rules };
}
