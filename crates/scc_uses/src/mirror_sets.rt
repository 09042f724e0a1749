//! The same calls on two sets with different hashers and sizes.
ghost use Rattle.std.specs.Prelude.{true};
ghost use Rattle.std.specs.List.Sorted.{IsPermutation};
ghost use Rattle.scc_common.specs.Contents.{entries};
ghost use Rattle.scc_calls.specs.SetCalls.{SetMoves};
ghost use Rattle.scc_calls.specs.Copies.{ClonesEqual};
ghost use Rattle.scc_uses.specs.Alikeness.{HaveEqual, RepliesAlike};
ghost use Rattle.scc_uses.specs.Mirrored.{RunsOnBoth};

use crate::alike::{equal_key_replies, equal_set_calls};
use scc_calls::{Refused, Reply, SetCall, run, runs_mean};
use scc_owned_set::Owned;
use std::hash::{BuildHasher, Hash};

/// Makes the same calls on two sets that have equal keys. Each set has its own hasher, capacity and minimum. The
/// replies that are added for both agree one by one, and both sets have equal keys again. A clone of each call is
/// made; a clone need only equal its original, so keys too need only be equal.
///
/// If equal calls are the same call, and equal replies the same reply, as for numbers, then both sets give the very
/// same replies, and sets with the same keys have the same keys again, in some order.
///
/// All calls are made on the first set before any on the second. If a call is refused on the first set, the second is
/// not touched. If a call is refused on the second set, its replies up to there agree with the first of those of the
/// first set.
pub fn run_on_both_sets<K: Eq + Hash + Clone, H: BuildHasher, I: BuildHasher>(
    first: &mut Owned<K, H>,
    second: &mut Owned<K, I>,
    calls: &[SetCall<K>],
    firsts: &mut Vec<Reply<K, ()>>,
    seconds: &mut Vec<Reply<K, ()>>,
) -> Result<(), Refused>
    requires alike { HaveEqual K.eq (entries first.old) (entries second.old) }
    requires calls { ClonesEqual ⟦<SetCall<K> as Clone>⟧.is_clone ⟦<SetCall<K> as PartialEq>⟧.eq }
    requires replies { ClonesEqual ⟦<Reply<K, ()> as Clone>⟧.is_clone ⟦<Reply<K, ()> as PartialEq>⟧.eq }
    ensures { RunsOnBoth ⟦<SetCall<K> as PartialEq>⟧.eq ⟦<Reply<K, ()> as PartialEq>⟧.eq (SetMoves K.eq)
        (RepliesAlike K.eq (λ _ _. true)) (HaveEqual K.eq) IsPermutation calls.now (first.old, firsts.old.items)
        (second.old, seconds.old.items) result (first.new, firsts.new.items) (second.new, seconds.new.items) }
{
    equal_set_calls::<K>();
    equal_key_replies::<K>();
    prove!(first.len() == second.len());
    runs_mean::<Owned<K, H>>();
    runs_mean::<Owned<K, I>>();
    run(first, calls, firsts)?;
    run(second, calls, seconds)?;
    Ok(())
}
