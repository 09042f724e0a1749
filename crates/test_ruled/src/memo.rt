// A memo that threads share computes each value once, and keeps no failure.
use crate::expect::{expect, expect_eq};
use scc_memo::shared::{Memo, Pure, TryMemo};
use scc_uses::shared_memo::{Half, half_of};
use std::sync::Wait;
use std::sync::atomic::{AtomicU64, Ordering};
use std::test::Fail;
use std::thread::{Threads, join};
use test_kit::zero::Zero;

/// The double of a number, by a function that counts how often it is called.
#[derive(Drop)]
struct Doubled<'a> {
    calls: &'a AtomicU64,
}

impl<'a> Pure for Doubled<'a> {
    ghost use Rattle.std.proofs.Common.{rules};
    ghost use Rattle.std.specs.Prelude.{◌≡◌, ◌*◌, ◌%◌, ◌^◌};

    type Key = u64;

    type Value = u64;

    ghost has_value = { λ k v. v ≡ (2 * k) % (2 ^ 64) };

    ghost equal_alike = { λ j k v same h. Prim.search rules };

    fn of(&self, k: &u64) -> u64 {
        self.calls.fetch_add(1, Ordering::Relaxed);
        k.wrapping_mul(2)
    }
}

/// Asks for the doubles of a hundred numbers twice, and returns their sum.
fn sum_of_doubles<R: Wait>(rt: &R, memo: &Memo<Doubled<'_>>) -> u64 {
    let mut sum = 0u64;
    for k in 0..100u64 {
        sum = sum.wrapping_add(memo.get(rt, k));
    }
    for k in 0..100u64 {
        sum = sum.wrapping_add(memo.get_cloned(rt, k));
    }
    sum
}

fn two_sums<R: Threads + Wait + Sync>(rt: &R, memo: &Memo<Doubled<'_>>) -> (u64, u64) {
    join(rt, || sum_of_doubles(rt, memo), || sum_of_doubles(rt, memo))
}

#[test]
fn memo_computes_each_value_once(rt: HostRuntime) -> Result<(), Fail> {
    let calls = AtomicU64::new(0);
    let memo = Memo::with_capacity(rt.alloc(), Doubled { calls: &calls }, 0, 4096)?;
    expect_eq(&rt, two_sums(&rt, &memo), (19_800, 19_800));
    expect_eq(
        &rt,
        (memo.len(&rt), calls.load(Ordering::Relaxed)),
        (100, 100),
    );
    expect_eq(&rt, memo.known(&rt, &7), Some(14));
    expect(&rt, memo.forget(&rt, &7) && !memo.forget(&rt, &7));
    expect_eq(&rt, (memo.known(&rt, &7), memo.get(&rt, 7)), (None, 14));
    expect_eq(&rt, calls.load(Ordering::Relaxed), 101);
    Ok(())
}

#[test]
fn memo_keeps_no_failure(rt: HostRuntime) -> Result<(), Fail> {
    let halves: TryMemo<Half> = TryMemo::new(rt.alloc(), Half)?;
    expect_eq(&rt, half_of(&rt, &halves, 7), Err(7));
    expect_eq(&rt, (halves.len(&rt), halves.known(&rt, &7)), (0, None));
    expect_eq(&rt, half_of(&rt, &halves, 8), Ok(4));
    expect_eq(&rt, (halves.len(&rt), halves.known(&rt, &8)), (1, Some(4)));
    expect(&rt, halves.forget(&rt, &8) && halves.capacity(&rt) <= 256);
    Ok(())
}

#[test]
fn memo_that_may_fail_clones_what_it_keeps(rt: HostRuntime) -> Result<(), Fail> {
    let halves: TryMemo<Half> = TryMemo::new(rt.alloc(), Half)?;
    let odd = halves.get_cloned(&rt, 7);
    let even = [halves.get_cloned(&rt, 8), halves.get_cloned(&rt, 8)];
    expect_eq(&rt, (odd, even), (Err(7), [Ok(4), Ok(4)]));
    expect_eq(&rt, (halves.len(&rt), halves.known(&rt, &8)), (1, Some(4)));
    Ok(())
}

/// Fills a bucket of 32 values, asks whether the first is known, and makes one value more. Returns whether the first is
/// known before and then.
fn known_first<R: Wait>(rt: &R, memo: &Memo<Doubled<'_>, Zero>) -> [bool; 2] {
    for k in 0..32u64 {
        let _double = memo.get(rt, k);
    }
    let before = memo.known(rt, &0).is_some();
    let _double = memo.get(rt, 32);
    [before, memo.known(rt, &0).is_some()]
}

/// Does the same with a function that may fail, which doesn't at an even number.
fn tried_first<R: Wait>(rt: &R, memo: &TryMemo<Half, Zero>) -> [bool; 2] {
    for k in 0..32u64 {
        let _half = memo.get(rt, k.wrapping_mul(2));
    }
    let before = memo.known(rt, &0).is_some();
    let _half = memo.get(rt, 64);
    [before, memo.known(rt, &0).is_some()]
}

#[test]
fn memo_that_is_asked_what_it_knows_refreshes_nothing(rt: HostRuntime) -> Result<(), Fail> {
    let calls = AtomicU64::new(0);
    let doubled = Doubled { calls: &calls };
    let memo = Memo::with_capacity_and_hasher(rt.alloc(), doubled, 0, 64, Zero)?;
    expect_eq(&rt, known_first(&rt, &memo), [true, false]);
    let halves = TryMemo::with_capacity_and_hasher(rt.alloc(), Half, 0, 64, Zero)?;
    expect_eq(&rt, tried_first(&rt, &halves), [true, false]);
    Ok(())
}
