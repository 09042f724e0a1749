//! The same calls on two maps with different hashers and sizes.
ghost use Rattle.std.specs.List.Sorted.{IsPermutation};
ghost use Rattle.scc_common.specs.Contents.{entries};
ghost use Rattle.scc_calls.specs.MapCalls.{MapMoves};
ghost use Rattle.scc_calls.specs.Copies.{ClonesEqual};
ghost use Rattle.scc_uses.specs.Alikeness.{FindsAlike, RepliesAlike};
ghost use Rattle.scc_uses.specs.Mirrored.{RunsOnBoth};

use crate::alike::{equal_map_calls, equal_replies};
use scc_calls::{MapCall, Refused, Reply, run, runs_mean};
use scc_owned::map::Owned;
use std::hash::{BuildHasher, Hash};

/// Makes the same calls on two maps in which look-ups find alike values. Each map has its own hasher, capacity and
/// minimum. The replies that are added for both agree one by one, and look-ups find alike values in both maps again. A
/// clone of each call is made; a clone need only equal its original, so keys and values too need only be equal.
///
/// If equal calls are the same call, and equal replies the same reply, as for numbers, then both maps give the very
/// same replies, and maps with the same pairs have the same pairs again, in some order.
///
/// All calls are made on the first map before any on the second. If a call is refused on the first map, the second is
/// not touched. If a call is refused on the second map, its replies up to there agree with the first of those of the
/// first map.
pub fn run_on_both<K: Eq + Hash + Clone, V: Clone + PartialEq, H: BuildHasher, I: BuildHasher>(
    first: &mut Owned<K, V, H>,
    second: &mut Owned<K, V, I>,
    calls: &[MapCall<K, V>],
    firsts: &mut Vec<Reply<K, V>>,
    seconds: &mut Vec<Reply<K, V>>,
) -> Result<(), Refused>
    requires alike { FindsAlike K.eq V.eq (entries first.old) (entries second.old) }
    requires calls { ClonesEqual ⟦<MapCall<K, V> as Clone>⟧.is_clone ⟦<MapCall<K, V> as PartialEq>⟧.eq }
    requires replies { ClonesEqual ⟦<Reply<K, V> as Clone>⟧.is_clone ⟦<Reply<K, V> as PartialEq>⟧.eq }
    ensures { RunsOnBoth ⟦<MapCall<K, V> as PartialEq>⟧.eq ⟦<Reply<K, V> as PartialEq>⟧.eq (MapMoves K.eq)
        (RepliesAlike K.eq V.eq) (FindsAlike K.eq V.eq) IsPermutation calls.now (first.old, firsts.old.items)
        (second.old, seconds.old.items) result (first.new, firsts.new.items) (second.new, seconds.new.items) }
{
    equal_map_calls::<K, V>();
    equal_replies::<K, V>();
    prove!(first.len() == second.len());
    runs_mean::<Owned<K, V, H>>();
    runs_mean::<Owned<K, V, I>>();
    run(first, calls, firsts)?;
    run(second, calls, seconds)?;
    Ok(())
}
