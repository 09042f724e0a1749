//! Counting by entries of an index: one search for each word, and a version of its own for each new count.
ghost use Rattle.std.specs.Prelude.{◌≡◌, nat_eq, Some, IfErr, OnOk, OnErr};
ghost use Rattle.scc_common.specs.Contents.{entries};
ghost use Rattle.scc_common.specs.Pairs.{find, FindsInstead};
ghost use Rattle.scc_common.specs.Steps.{IsUnchanged};
ghost use Rattle.scc_owned.specs.Entries.{Memory};
ghost use Rattle.scc_uses.specs.Counts.{one_more};

use scc_common::InsertError;
use scc_owned::index::Owned;
use scc_owned::index::borrowed::Entry;

/// Counts a word once more: a new version has the new count, and whoever keeps the old version keeps its count. A
/// count stays at the greatest number once it is there. If memory is refused, the word comes back with the count that
/// it would have, and the index holds the pairs that it held.
pub fn count_word(counts: &mut Owned<u64, u64>, word: u64) -> Result<(), InsertError<u64, u64>>
    ensures counted { OnOk result (FindsInstead nat_eq (entries counts.old) word
        (Some (word, one_more (find nat_eq (entries counts.old) word))) (entries counts.new)) }
    ensures refused { IfErr result (λ e. e ≡ Memory (word, one_more (find nat_eq (entries counts.old) word))) }
    ensures unchanged { OnErr result (IsUnchanged counts.old counts.new) }
{
    match counts.entry_sync(word).and_modify(|n| n.saturating_add(1)) {
        Ok(entry) => {
            entry.or_insert(1)?;
            Ok(())
        }
        Err((entry, count)) => match entry {
            Entry::Occupied(_entry) => Err(InsertError::Memory((word, count))),
            Entry::Vacant(_) => unreachable!(),
        },
    }
}
