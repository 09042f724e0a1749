//! Sums over snapshots of an index, whatever changed afterwards.
ghost use Rattle.std.specs.Prelude.{◌≡◌, [], IfOk};
ghost use Rattle.scc_common.specs.Contents.{entries};
ghost use Rattle.scc_uses.specs.Sums.{sum_from};

use scc_common::MakeError;
use scc_owned::index::{Iter, Owned};

/// Returns the sum of the values of a snapshot, modulo 2^64. It is the sum when the snapshot was taken, since versions
/// never change.
pub fn sum(versions: Iter<u64, u64>) -> u64
    ensures { result ≡ sum_from 0 versions }
{
    let mut sum = 0u64;
    for version in versions {
        sum = sum.wrapping_add(*version.value());
    }
    sum
}

/// Removes all versions, and returns the sum of their values, modulo 2^64.
pub fn clear_and_sum(index: &mut Owned<u64, u64>) -> Result<u64, MakeError>
    ensures sum { IfOk result (λ s. s ≡ sum_from 0 (entries index.old)) }
    ensures empty { IfOk result (λ s. entries index.new ≡ []) }
{
    let versions = index.iter()?;
    index.clear_sync();
    Ok(sum(versions))
}
