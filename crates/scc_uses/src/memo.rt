//! A memo: a value is stored once, and then returned.
ghost use Rattle.std.specs.Prelude.{◌≡◌, nat_eq, None, Some, OnErr, IfOk};
ghost use Rattle.scc_common.specs.Contents.{entries};
ghost use Rattle.scc_common.specs.Pairs.{find, FindsInstead};
ghost use Rattle.scc_uses.specs.Memo.{stored_or};

use scc_common::InsertError;
use scc_owned::map::Owned;

/// Returns the value of `key`. If there is none, stores and returns `default`.
pub fn get_or_insert(
    values: &mut Owned<u64, u64>,
    key: u64,
    default: u64,
) -> Result<u64, InsertError<u64, u64>>
    ensures answer { IfOk result (λ v. v ≡ stored_or default (find nat_eq (entries values.old) key)) }
    ensures stored { IfOk result (λ v. FindsInstead nat_eq (entries values.old) key (Some (key, v))
        (entries values.new)) }
    ensures missing { OnErr result (find nat_eq (entries values.old) key ≡ None) }
{
    let entry = values.entry_sync(key).or_insert(default)?;
    Ok(*entry.get())
}
