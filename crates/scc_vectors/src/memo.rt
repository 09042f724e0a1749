// Tests of a memo of squares. Under `Zero` all keys share a bucket.
ghost use Rattle.std.specs.Prelude.{◌≡◌, ℕ, ◌*◌};
ghost use Rattle.std.proofs.Common.{ap};
ghost use Rattle.std.proofs.lemmas.Bool.{eqb-true};

use crate::expect::{expect, expect_eq};
use scc::memo::{Memo, Pure};
use std::alloc::AllocError;
use std::marker::Model;
use std::process::Abort;
use std::sync::atomic::{AtomicU64, Ordering};
use test_kit::zero::Zero;

// Computes the square of a number.
#[derive(Drop)]
struct Square;

impl Pure for Square {
    type Key = u64;

    type Value = u128;

    ghost value = { λ _ k. k * k };

    ghost equal_alike = { λ p j k same. ap (λ n. n * n) (eqb-true j k same) };

    fn of(&self, k: &u64) -> u128 {
        let k = u128::from(*k);
        k * k
    }
}

/// Returns whether each key below 32 has its square.
fn has_squares(memo: &mut Memo<Square, Zero>) -> bool {
    for key in 0..32u64 {
        if memo.get(key) != u128::from(key) * u128::from(key) {
            return false;
        }
    }
    true
}

#[test]
fn memo_of_squares(rt: HostRuntime) {
    match Memo::with_capacity_and_hasher(rt.alloc(), Square, 0, 64, Zero) {
        Ok(mut memo) => {
            let are_squares = has_squares(&mut memo);
            let got = [memo.get(0), memo.get(32)];
            let known = [memo.known(&0), memo.known(&1)];
            let later = (memo.get(1), memo.known(&2));
            expect_eq(
                &rt,
                (are_squares, got, known, later),
                (true, [0, 1024], [Some(0), None], (1, None)),
            );
        }
        Err(_) => expect(&rt, false),
    }
}

#[test]
fn memo_of_the_greatest_square(rt: HostRuntime) {
    match Memo::with_capacity_and_hasher(rt.alloc(), Square, 0, 64, Zero) {
        Ok(mut memo) => expect_eq(
            &rt,
            memo.get(18_446_744_073_709_551_615),
            340_282_366_920_938_463_426_481_119_284_349_108_225,
        ),
        Err(_) => expect(&rt, false),
    }
}

// A number. Memory for its clone is refused if it is odd.
#[derive(Drop)]
struct Scarce(u64);

impl Model for Scarce {
    ghost Value = { ℕ };

    ghost view = { λ s. s.0 };
}

impl Clone for Scarce {
    ghost is_clone = { λ s t. t ≡ s };

    fn clone(&self) -> Result<Scarce, AllocError> {
        if self.0 % 2 == 0 {
            Ok(Scarce(self.0))
        } else {
            Err(AllocError)
        }
    }
}

// Makes a number of a key, and counts how often.
#[derive(Drop)]
struct Counted<'a> {
    calls: &'a AtomicU64,
}

impl<'a> Pure for Counted<'a> {
    type Key = u64;

    type Value = Scarce;

    ghost value = { λ _ k. k };

    ghost equal_alike = { λ p j k same. eqb-true j k same };

    fn of(&self, k: &u64) -> Scarce {
        self.calls.fetch_add(1, Ordering::Relaxed);
        Scarce(*k)
    }
}

/// Returns the value of `k`, and how often the function was called so far.
fn cloned(memo: &mut Memo<Counted<'_>, Zero>, calls: &AtomicU64, k: u64) -> (u64, u64) {
    let value = memo.get_cloned(k).0;
    (value, calls.load(Ordering::Relaxed))
}

#[test]
fn memo_clones_what_it_keeps(rt: HostRuntime) {
    let calls = AtomicU64::new(0);
    let mut memo = Memo::with_hasher(rt.alloc(), Counted { calls: &calls }, Zero);
    let even = [cloned(&mut memo, &calls, 2), cloned(&mut memo, &calls, 2)];
    let odd = [cloned(&mut memo, &calls, 3), cloned(&mut memo, &calls, 3)];
    let removed = (memo.len(), memo.forget(&3), memo.len());
    expect_eq(
        &rt,
        (even, odd, removed),
        ([(2, 1), (2, 1)], [(3, 3), (3, 4)], (2, true, 1)),
    );
}
