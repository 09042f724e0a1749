//! An insertion, a look-up and a removal, one after another.
ghost use Rattle.std.specs.Prelude.{◌≡◌, IfOk, Some, OnOk};
ghost use Rattle.std.specs.List.Sorted.{IsPermutation};
ghost use Rattle.scc_common.specs.Contents.{entries};

use scc_common::InsertError;
use scc_owned::map::Owned;

/// Inserts a pair, looks it up and removes it again. The look-up finds the value, and the old pairs are left in some
/// order.
pub fn insert_read_remove(
    map: &mut Owned<u64, u64>,
    key: u64,
    value: u64,
) -> Result<Option<u64>, InsertError<u64, u64>>
    ensures read { IfOk result (λ v. v ≡ Some value) }
    ensures pairs { OnOk result (IsPermutation (entries map.old) (entries map.new)) }
{
    map.insert_sync(key, value)?;
    let read = map.read_sync(&key, |_, v| *v);
    map.remove_sync(&key);
    Ok(read)
}
