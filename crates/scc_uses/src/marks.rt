//! Keys that were seen, marked in a set.
ghost use Rattle.std.specs.Prelude.{◌≡◌, ◌↔◌, nat_eq, None, IfOk, OnOk, IsSome, IsTrue};
ghost use Rattle.scc_common.specs.Contents.{entries};
ghost use Rattle.scc_owned_set.specs.Keys.{find};

use scc_common::KeyError;
use scc_owned_set::Owned;

/// Inserts `key` into `seen` if it is new, and returns whether it was new.
pub fn mark(seen: &mut Owned<u64>, key: u64) -> Result<bool, KeyError<u64>>
    ensures new { IfOk result (λ new. IsTrue new ↔ (find nat_eq (entries seen.old) key ≡ None)) }
    ensures marked { OnOk result (IsSome (find nat_eq (entries seen.new) key)) }
{
    match seen.insert_sync(key) {
        Ok(()) => Ok(true),
        Err(KeyError::Exists(_)) => Ok(false),
        Err(e) => Err(e),
    }
}
