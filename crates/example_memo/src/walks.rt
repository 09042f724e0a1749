//! A function of two arguments that takes long: the end of a walk of a number of steps.
ghost use Rattle.std.specs.Prelude.{◌≡◌, ◌*◌, ◌+◌, ◌%◌};
ghost use Rattle.example_memo.specs.Walks.{end_of};

use scc::memo::{Memo, Pure};
use std::hash::BuildHasher;

/// The start of a walk, and its number of steps.
pub type Walk = (u64, u64);

/// Returns the end of a walk. A step takes the number n to the rest of 48,271 n + 11 by 1,000,003.
pub fn end_of_walk(start: u64, steps: u64) -> u64
    ensures { result ≡ end_of start steps }
{
    let mut at = start % 1_000_003;
    for _ in 0..steps {
        at = (at * 48_271 + 11) % 1_000_003;
    }
    at
}

/// The function in the form that a memo calls.
#[derive(Drop)]
pub struct EndOfWalk;

impl Pure for EndOfWalk {
    ghost use Rattle.std.proofs.Common.{ap};
    ghost use Rattle.example_memo.specs.Pairs.{pairs-equal};

    type Key = Walk;

    type Value = u64;

    ghost value = { λ _ w. end_of w.0 w.1 };

    ghost equal_alike = { λ p j k same. ap (λ w. end_of w.0 w.1) (pairs-equal j k same) };

    fn of(&self, walk: &Walk) -> u64 {
        end_of_walk(walk.0, walk.1)
    }
}

/// Returns the end of the walk, from the memo or else from the function, which is the same value.
pub fn end_by_memo<H: BuildHasher>(memo: &mut Memo<EndOfWalk, H>, walk: Walk) -> u64
    ensures { result ≡ end_of walk.0 walk.1 }
{
    memo.get(walk)
}
