//! An insertion that is prepared before it is made.
ghost use Rattle.std.specs.Prelude.{◌≡◌, IfErr};

use scc_common::InsertError;
use scc_owned::map::Owned;
use std::hash::{BuildHasher, Hash};

/// Makes room for `k`, and then inserts the pair if no key equals `k`: the insertion itself allocates nothing and
/// can't be refused. If there is no room then, or a key equals `k`, the pair comes back.
pub fn insert_prepared<K: Eq + Hash, V, H: BuildHasher>(
    map: &mut Owned<K, V, H>,
    k: K,
    v: V,
) -> Result<(), (K, V)>
    ensures back { IfErr result (λ p. p ≡ (k, v)) }
{
    if map.make_room(&k).is_err() {
        return Err((k, v));
    }
    if !map.has_room(&k) {
        map.drop_room();
        return Err((k, v));
    }
    match map.insert_sync(k, v) {
        Ok(()) => Ok(()),
        Err(InsertError::Exists(pair)) => Err(pair),
        Err(InsertError::Memory(_)) => unreachable!(),
    }
}
