//! Counts of the words that came last: a cache forgets words that didn't come for long.
ghost use Rattle.std.specs.Prelude.{◌≡◌, ℕ, nat_eq, None, Some, Ok, OnErr, IfOk};
ghost use Rattle.std.specs.Hash as fed;
ghost use Rattle.scc_common.specs.Contents.{hash_in};
ghost use Rattle.scc_owned_cache.specs.CacheSteps.{ChangesLists, IsAbsent, IsPresent, PutsNew, list_number};
ghost use Rattle.scc_owned_cache.specs.ListSteps.{RefreshesAs};
ghost use Rattle.scc_uses.specs.Counts.{one_more};

use scc_common::{Hashes, InsertError};
use scc_owned_cache::Owned;
use std::hash::BuildHasher;

/// Counts a word once more, and makes its pair the most recent of its bucket. A count stays at the greatest number
/// once it is there. Returns the pair that a new word evicted, if any.
pub fn count_recent<H: BuildHasher>(
    counts: &mut Owned<u64, u64, H>,
    word: u64,
) -> Result<Option<(u64, u64)>, InsertError<u64, u64>>
    ensures again { (p : ℕ × ℕ) → IsPresent (hash_in ⟦<H as Hashes<u64>>⟧.hash_of counts.old.contents) nat_eq
        counts.old.contents word p → (result ≡ Ok None) × ChangesLists (RefreshesAs
        (list_number (hash_in ⟦<H as Hashes<u64>>⟧.hash_of counts.old.contents) counts.old.contents) nat_eq word p
        (p.0, one_more (Some p))) counts.old counts.new }
    ensures first { IsAbsent (hash_in ⟦<H as Hashes<u64>>⟧.hash_of counts.old.contents) nat_eq counts.old.contents word
        → IfOk result (λ x. PutsNew (hash_in ⟦<H as Hashes<u64>>⟧.hash_of counts.old.contents) nat_eq counts.old
        (word, 1) x counts.new) }
    ensures refused { OnErr result (counts.new ≡ counts.old) }
{
    match counts
        .entry_sync(word)
        .and_modify(|n| *n = n.saturating_add(1))
        .or_put(1)
    {
        Ok((evicted, _entry)) => Ok(evicted),
        Err(e) => Err(e),
    }
}
