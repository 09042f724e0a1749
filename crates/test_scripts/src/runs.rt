// Calls as values: a run whose caller relies on the contract alone, and runs of other containers.
ghost use Rattle.std.specs.Prelude.{◌≡◌, ℕ, [], ◌∷◌, length, OnOk};
ghost use Rattle.scc_calls.specs.Copies.{AreSame, ClonesEqual};
ghost use Rattle.scc_common.specs.Contents.{entries};

use crate::expect::{expect, expect_eq};
use scc_calls::{Calls, MapCall, Refused, Reply, run, runs_mean};
use scc_common::MakeError;
use scc_owned::map::Owned;
use std::alloc::Global;
use std::hash::{BuildHasher, RandomState};
use std::test::Fail;
use test_kit::maybe_equal::MaybeEqual;

/// Equal calls of numbers are the same call, and equal replies are the same reply.
fn are_exact()
    ensures calls { AreSame ⟦<MapCall<u64, u64> as PartialEq>⟧.eq }
    ensures replies { AreSame ⟦<Reply<u64, u64> as PartialEq>⟧.eq }
{}

/// Counts the pairs by a run of one call.
fn count<H: BuildHasher>(
    map: &mut Owned<u64, u64, H>,
    replies: &mut Vec<Reply<u64, u64>>,
) -> Result<(), Refused>
    requires { replies.old.items ≡ [] }
    ensures { OnOk result ((n : ℕ) × (replies.new.items ≡ Reply.Count n ∷ []) × (n ≡ length (entries map.old))) }
{
    are_exact();
    runs_mean::<Owned<u64, u64, H>>();
    run(map, &[MapCall::Len], replies)
}

/// Inserts a pair, and counts the pairs by a run.
fn insert_and_count<H: BuildHasher>(
    map: &mut Owned<u64, u64, H>,
    replies: &mut Vec<Reply<u64, u64>>,
) -> bool
    requires { replies.old.items ≡ [] }
{
    map.insert_sync(7, 5).is_ok() && count(map, replies).is_ok()
}

#[test]
fn counts_by_a_run(rt: HostRuntime) {
    match RandomState::new(&rt) {
        Ok(hasher) => {
            let mut replies = Vec::new(rt.alloc());
            let mut map = Owned::with_hasher(rt.alloc(), hasher);
            let is_counted = insert_and_count(&mut map, &mut replies);
            let wanted = [Reply::Count(1)];
            expect_eq(
                &rt,
                (is_counted, replies.as_slice()),
                (true, wanted.as_slice()),
            );
        }
        Err(_) => expect(&rt, false),
    }
}

/// Clones of replies equal them, also if keys are compared in part.
fn replies_are_equal()
    ensures { ClonesEqual ⟦<Reply<MaybeEqual, u64> as Clone>⟧.is_clone ⟦<Reply<MaybeEqual, u64> as PartialEq>⟧.eq }
{}

type Marked = Owned<MaybeEqual, u64>;

/// Makes a call. Returns whether its reply equals `reply`.
fn answers(
    map: &mut Marked,
    call: MapCall<MaybeEqual, u64>,
    reply: &Reply<MaybeEqual, u64>,
) -> bool {
    replies_are_equal();
    match map.call(call) {
        Ok(found) => found == *reply,
        Err(_) => false,
    }
}

/// Replaces the key 11 by one with the mark 11. Returns the mark of the old key.
fn swap(map: &mut Marked) -> Option<u64> {
    replies_are_equal();
    match map.call(MapCall::Replace(MaybeEqual(11, 11))) {
        Ok(Reply::Key(Some(old))) => Some(old.1),
        _ => None,
    }
}

/// Removes the key 11. Returns the mark of the stored key, and its value.
fn remove(map: &mut Marked) -> Option<(u64, u64)> {
    replies_are_equal();
    match map.call(MapCall::Remove(MaybeEqual(11, 0))) {
        Ok(Reply::Pair(Some(pair))) => Some((pair.0.1, pair.1)),
        _ => None,
    }
}

#[test]
fn calls_keep_and_swap_the_stored_key(rt: HostRuntime) {
    let mut map = Owned::new(rt.alloc());
    let before = [
        answers(
            &mut map,
            MapCall::Replace(MaybeEqual(11, 7)),
            &Reply::Key(None),
        ),
        answers(
            &mut map,
            MapCall::Upsert(MaybeEqual(11, 7), 17),
            &Reply::Old(None),
        ),
        answers(
            &mut map,
            MapCall::Upsert(MaybeEqual(11, 11), 18),
            &Reply::Old(Some(17)),
        ),
    ];
    let after = (swap(&mut map), remove(&mut map));
    let is_empty = answers(&mut map, MapCall::Len, &Reply::Count(0));
    expect_eq(
        &rt,
        (before, after, is_empty),
        ([true; 3], (Some(7), Some((11, 18))), true),
    );
}

// Adds each call to a total, and refuses a call that would raise the total above 9.
#[derive(Drop)]
struct Tally {
    total: u8,
    hasher: RandomState,
}

impl Calls for Tally {
    type Key = u8;

    type Hasher = RandomState;

    type Call = u8;

    type Reply = u8;

    ghost use Rattle.std.specs.Prelude.{◌≡◌, false, ℕ, ◌+◌, ◌<◌, List, [], None};
    ghost use Rattle.std.proofs.Common.{◌∙◌, ap, rules, sym};
    ghost use Rattle.scc_calls.specs.Means.{the_very};
    ghost use Rattle.scc_calls.specs.Parted.{PartMoves, PartResizes, parted_call, parted_resize};

    ghost State = { ℕ };

    ghost Whole = { List ℕ };

    ghost setting = { λ t. record { hasher = t.hasher; skipped = 0; minimum = 0; maximum = 0 } };

    ghost state = { λ t. t.total };

    ghost size = { λ _. 0 };

    ghost empty = { λ _. 0 };

    ghost limits = { λ _ _ m. m ≡ 0 };

    ghost keys = { λ _. [] };

    ghost key_of = { λ _. None };

    ghost answer = { λ _ s c. s + c };

    ghost moves = { λ _ s c r t. (t ≡ s + c) × (r ≡ t) };

    ghost means = { λ _ s c r t. (t ≡ s + c) × (r ≡ t) };

    ghost resizes = { λ _ _ _ _. ⊥ };

    ghost may_refuse = { λ _ s c. 9 < s + c };

    ghost adds = { λ _. ⊥ };

    ghost is_prepared = { λ t c r. r ≡ t.total + c };

    ghost is_marked = { λ _. false };

    ghost whole = { λ p. p };

    ghost whole_means = { λ _ _. PartMoves (λ s c r t. (t ≡ s + c) × (r ≡ t)) (λ _. None) (λ k. k) };

    ghost whole_resizes = { λ _ _. PartResizes (λ _ _ _. ⊥) };

    fn key(_call: &u8) -> Option<&u8> {
        None
    }

    fn ready(&mut self, call: &u8) -> Result<(u8, u8), Refused> {
        if self.total > 9 || *call > 9 - self.total {
            return Err(Refused);
        }
        let total = self.total + *call;
        Ok((total, total))
    }

    fn call(&mut self, call: u8) -> Result<u8, Refused> {
        if self.total > 9 || call > 9 - self.total {
            return Err(Refused);
        }
        self.total += call;
        Ok(self.total)
    }

    fn buckets(&self) -> usize {
        0
    }

    /// A tally is made by hand alone.
    fn make(
        _alloc: Global,
        _skipped: u32,
        _slots: usize,
        _maximum: usize,
        _hasher: RandomState,
    ) -> Result<Self, MakeError> {
        Err(MakeError)
    }

    ghost one_limit = { λ _ _ m n p q. p ∙ sym q };

    ghost moves_mean = { λ _ _ _ _ _ _ m. m };

    ghost means_alike = { λ g old new call copy reply given pc pr c r m. let x : copy ≡ call = the_very
        ⟦<u8 as PartialEq>⟧.eq (Prim.search rules) call copy c in let y : given ≡ reply = the_very
        ⟦<u8 as PartialEq>⟧.eq (Prim.search rules) reply given r in (m.0 ∙ ap (λ z. old + z) (sym x), y ∙ m.1) };

    ghost call_is_whole = { λ _ _ before after old new call reply _ key s. parted_call
        (λ s c r t. (t ≡ s + c) × (r ≡ t)) (λ _. None) (λ k. k) before after old new call reply key s };

    ghost resize_is_whole = { λ _ _ before after old new buckets _ s. parted_resize (λ _ _ _. ⊥) before after old new
        buckets s };

    ghost call_keeps = { λ _ _ _ _ _ _ _ _ _ _. tt };

    ghost resize_keeps = { λ _ _ _ _ _ _ _ _. tt };

    ghost empty_keeps = { λ _ _ _ _. tt };
}

#[test]
fn stops_at_the_first_refusal(rt: HostRuntime) -> Result<(), Fail> {
    let mut tally = Tally {
        total: 0,
        hasher: RandomState::new(&rt)?,
    };
    let mut replies = Vec::new(rt.alloc());
    expect_eq(
        &rt,
        run(&mut tally, &[4, 3, 2, 1, 0], &mut replies),
        Err(Refused),
    );
    expect_eq(&rt, replies.as_slice(), [4, 7, 9].as_slice());
    expect_eq(&rt, tally.total, 9);
    run(&mut tally, &[0], &mut replies)?;
    expect_eq(&rt, replies.as_slice(), [4, 7, 9, 9].as_slice());
    let Tally {
        total: _,
        hasher: _,
    } = tally;
    Ok(())
}
