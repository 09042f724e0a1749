//! The same calls on two indexes with different hashers and sizes.
ghost use Rattle.scc_common.specs.Contents.{entries};
ghost use Rattle.scc_calls.specs.IndexCalls.{IndexMoves};
ghost use Rattle.scc_calls.specs.Copies.{ClonesEqual};
ghost use Rattle.scc_uses.specs.Alikeness.{FindsAlike, FindsSame, RepliesAlike};
ghost use Rattle.scc_uses.specs.Mirrored.{RunsOnBoth};

use crate::alike::{equal_index_calls, equal_replies};
use scc_calls::{IndexCall, Refused, Reply, run, runs_mean};
use scc_owned::index::Owned;
use std::hash::{BuildHasher, Hash};

/// Makes the same calls on two indexes in which look-ups find alike values. Each index has its own hasher, capacity
/// and minimum. The replies that are added for both agree one by one, and look-ups find alike values in both indexes
/// again. A clone of each call is made; a clone need only equal its original, so keys and values too need only be
/// equal.
///
/// If equal calls are the same call, and equal replies the same reply, as for numbers, then both indexes give the very
/// same replies, and indexes in which look-ups find the same values are such indexes again. Of two equal keys, each
/// index may store another one.
///
/// All calls are made on the first index before any on the second. If a call is refused on the first index, the second
/// is not touched. If a call is refused on the second index, its replies up to there agree with the first of those of
/// the first index.
pub fn run_on_both_indexes<
    K: Eq + Hash + Clone + Drop,
    V: Clone + PartialEq + Drop,
    H: BuildHasher,
    I: BuildHasher,
>(
    first: &mut Owned<K, V, H>,
    second: &mut Owned<K, V, I>,
    calls: &[IndexCall<K, V>],
    firsts: &mut Vec<Reply<K, V>>,
    seconds: &mut Vec<Reply<K, V>>,
) -> Result<(), Refused>
    requires alike { FindsAlike K.eq V.eq (entries first.old) (entries second.old) }
    requires calls { ClonesEqual ⟦<IndexCall<K, V> as Clone>⟧.is_clone ⟦<IndexCall<K, V> as PartialEq>⟧.eq }
    requires replies { ClonesEqual ⟦<Reply<K, V> as Clone>⟧.is_clone ⟦<Reply<K, V> as PartialEq>⟧.eq }
    ensures { RunsOnBoth ⟦<IndexCall<K, V> as PartialEq>⟧.eq ⟦<Reply<K, V> as PartialEq>⟧.eq (IndexMoves K.eq K.is_clone)
        (RepliesAlike K.eq V.eq) (FindsAlike K.eq V.eq) (FindsSame K.eq) calls.now (first.old, firsts.old.items)
        (second.old, seconds.old.items) result (first.new, firsts.new.items) (second.new, seconds.new.items) }
{
    equal_index_calls::<K, V>();
    equal_replies::<K, V>();
    prove!(first.len() == second.len());
    runs_mean::<Owned<K, V, H>>();
    runs_mean::<Owned<K, V, I>>();
    run(first, calls, firsts)?;
    run(second, calls, seconds)?;
    Ok(())
}
