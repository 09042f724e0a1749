//! Callers of memos that threads share: the answers of a service, and halves, which odd numbers lack.
ghost use Rattle.std.specs.Prelude.{◌≡◌, ◌*◌, ℕ, Some, IfErr, IfOk, slice_get};

use crate::shared_requests::Service;
use scc_memo::shared::{Memo, Pure, TryMemo, TryPure};
use std::alloc::{AllocError, Global};
use std::sync::Wait;
use std::thread::{Threads, map_indices};

/// A service in the form that a memo calls.
#[derive(Drop)]
pub struct Asking<S: Service + Drop>(pub S);

impl<S: Service + Drop> Pure for Asking<S> {
    ghost use Rattle.std.proofs.Common.{rules};

    type Key = u64;

    type Value = u64;

    ghost has_value = { λ request answer. answer ≡ S.answer_to request };

    ghost equal_alike = { λ j k answer same h. Prim.search rules };

    fn of(&self, k: &u64) -> u64 {
        self.0.ask(*k)
    }
}

/// Returns the answers to the requests below `n`, each found in a thread of its own if one can be made. Each is asked
/// for once, as long as it isn't evicted. Fails if memory is refused.
pub fn answers_below<S: Service + Drop + Send + Sync, R: Threads + Wait + Sync>(
    rt: &R,
    alloc: Global,
    memo: &Memo<Asking<S>>,
    n: usize,
) -> Result<Vec<u64>, AllocError>
    ensures { IfOk result (λ answers. (i answer : ℕ) → slice_get answers.items i ≡ Some answer
        → answer ≡ S.answer_to i) }
{
    map_indices(
        rt,
        alloc,
        n,
        &|i: usize| -> u64
            ensures { result ≡ S.answer_to i }
        { memo.get(rt, i as u64) },
    )
}

/// The half of a number. An odd number has none, and comes back.
#[derive(Drop)]
pub struct Half;

impl TryPure for Half {
    ghost use Rattle.std.proofs.Common.{rules};

    type Key = u64;

    type Value = u64;

    type Error = u64;

    ghost has_value = { λ k half. 2 * half ≡ k };

    ghost may_fail = { λ k e. e ≡ k };

    ghost equal_alike = { λ j k half same h. Prim.search rules };

    fn of(&self, k: &u64) -> Result<u64, u64> {
        if *k % 2 == 0 { Ok(*k / 2) } else { Err(*k) }
    }
}

/// Returns the half of `k`, or `k` if it is odd.
pub fn half_of<W: Wait>(rt: &W, halves: &TryMemo<Half>, k: u64) -> Result<u64, u64>
    ensures half { IfOk result (λ half. 2 * half ≡ k) }
    ensures odd { IfErr result (λ e. e ≡ k) }
{
    halves.get(rt, k)
}
