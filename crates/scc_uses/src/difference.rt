//! The difference of two sets.
ghost use Rattle.std.specs.Prelude.{◌≡◌, cond, None, is_some};
ghost use Rattle.scc_common.specs.Contents.{entries};
ghost use Rattle.scc_owned_set.specs.Keys.{find};

use scc_owned_set::Owned;
use std::hash::{BuildHasher, Hash};

/// Removes from `first` the keys that `second` has.
pub fn subtract<K: Eq + Hash + Drop, H: BuildHasher, I: BuildHasher>(
    first: &mut Owned<K, H>,
    second: &Owned<K, I>,
)
    ensures { (q : K) → find K.eq (entries first.new) q
        ≡ cond (is_some (find K.eq (entries second.now) q)) None (find K.eq (entries first.old) q) }
{
    first.retain_sync(|key| !second.contains_sync(key));
}
