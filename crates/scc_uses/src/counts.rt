//! Counting by entries: one search for each word.
ghost use Rattle.std.specs.Prelude.{◌≡◌, nat_eq, Some, OnOk, OnErr, MatchOption};
ghost use Rattle.scc_common.specs.Contents.{entries};
ghost use Rattle.scc_common.specs.Pairs.{find, FindsInstead};
ghost use Rattle.scc_common.specs.Steps.{Rests};
ghost use Rattle.scc_uses.specs.Counts.{one_more};

use scc_common::InsertError;
use scc_owned::map::Owned;
use scc_owned::map::borrowed::Entry;

/// Counts a word once more. A count stays at the greatest number once it is there.
pub fn count_word(counts: &mut Owned<u64, u64>, word: u64) -> Result<(), InsertError<u64, u64>>
    ensures counted { OnOk result (FindsInstead nat_eq (entries counts.old) word
        (Some (word, one_more (find nat_eq (entries counts.old) word))) (entries counts.new)) }
    ensures refused { OnErr result (Rests counts.old counts.new) }
{
    counts
        .entry_sync(word)
        .and_modify(|n| *n = n.saturating_add(1))
        .or_insert(1)?;
    Ok(())
}

/// Returns how often `word` was counted. Drops the entry, and every count stays.
pub fn count_of(counts: &mut Owned<u64, u64>, word: u64) -> u64
    ensures answer { MatchOption (find nat_eq (entries counts.old) word) (result ≡ 0) (λ p. result ≡ p.1) }
    ensures same { counts.new ≡ counts.old }
{
    match counts.entry_sync(word) {
        Entry::Occupied(entry) => *entry.get(),
        Entry::Vacant(entry) => {
            entry.into_key();
            0
        }
    }
}
