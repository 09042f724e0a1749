//! Configurations in an index: a value is published anew while a reader keeps its version.
ghost use Rattle.std.specs.Arc.{arc_value};
ghost use Rattle.std.specs.Prelude.{◌≡◌, nat_eq, Some, IfOk, IfErr, OnOk, OnErr};
ghost use Rattle.scc_common.specs.Contents.{entries};
ghost use Rattle.scc_common.specs.Pairs.{find, FindsInstead};

use scc_common::Version;
use scc_owned::index::Owned;
use std::sync::Arc;

/// Publishes `value` under the key of the version `kept`, and returns the value of `kept`, which stays what it was. If
/// memory is refused, `value` comes back, and look-ups find what they found before.
pub fn republish(
    configs: &mut Owned<u64, u64>,
    kept: &Arc<Version<u64, u64>>,
    value: u64,
) -> Result<u64, u64>
    requires { find nat_eq (entries configs.old) (arc_value kept.now).0 ≡ Some (arc_value kept.now) }
    ensures kept { IfOk result (λ v. v ≡ (arc_value kept.now).1) }
    ensures published { OnOk result (FindsInstead nat_eq (entries configs.old) (arc_value kept.now).0
        (Some ((arc_value kept.now).0, value)) (entries configs.new)) }
    ensures refused { IfErr result (λ v. v ≡ value) }
    ensures unchanged { OnErr result (configs.new ≡ configs.old) }
{
    let version: &Version<u64, u64> = kept;
    match configs.get_sync(version.key()) {
        Some(mut entry) => match entry.update(value) {
            Ok(()) => Ok(*version.value()),
            Err(value) => Err(value),
        },
        None => unreachable!(),
    }
}
