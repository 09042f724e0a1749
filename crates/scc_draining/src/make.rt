//! A new array whose buckets wait, and clones of the entries of an old one.
ghost use Rattle.scc_array.specs.Shelf.{empty_shelf, shelf_entries};
ghost use Rattle.scc_array.specs.Shelves.{shelf_of};
ghost use Rattle.scc_common.specs.Clones.{AddsClones};
ghost use Rattle.std.specs.List.{flat_map};
ghost use Rattle.std.specs.Prelude.{◌≡◌, ◌≤◌, ◌^◌, true, replicate, IfOk, ◌<◌, ℕ, length, OnOk};

use scc_array::Array;
use scc_buckets::Buckets;
use scc_common::{Hashes, Keyed, MakeError};
use std::alloc::{AllocError, Global};

/// Makes an array of `count` empty buckets, and a flag for each bucket, which says that it waits.
pub fn fresh_waiting<E>(alloc: Global, count: usize) -> Result<(Array<E>, Vec<bool>), AllocError>
    requires { count ≤ 2 ^ 58 }
    ensures buckets { IfOk result (λ r. r.0 ≡ replicate count empty_shelf) }
    ensures flags { IfOk result (λ r. r.1.items ≡ replicate count true) }
{
    let fresh = Array::with_buckets(alloc, count)?;
    match vec![in alloc; true; count] {
        Ok(flags) => Ok((fresh, flags)),
        Err(e) => {
            fresh.destroy_empty();
            Err(e)
        }
    }
}

/// Inserts a clone of each entry of the array `old` into `table`, without a resize.
pub fn insert_clones_of<E: Keyed + Clone, H: Hashes<E::Key>>(
    table: &mut Buckets<E, H>,
    old: &Array<E>,
) -> Result<(), MakeError>
where
    E::Key: Eq,
    requires few { (j : ℕ) → length (shelf_entries (shelf_of old.now j)) < 2 ^ 63 }
    ensures { OnOk result (AddsClones E.is_clone (flat_map shelf_entries old.now) table.old table.new) }
{
    for bucket in 0..old.len() {
        table.insert_clones(old, bucket)?;
    }
    Ok(())
}
