//! A key of which only a part is compared, so that a test can see which of two equal keys is stored.
ghost use Rattle.std.specs.Prelude.{◌==◌};
ghost use Rattle.std.proofs.Common.{rules};
ghost use Rattle.std.specs.Cmp.Rules.{comparing, hashing};
ghost use Rattle.std.specs.Hash as fed;

use std::hash::{Hash, Hasher};

/// Two numbers. Equality compares the first number, and hashing writes it. The second number tells equal keys apart.
#[derive(Clone, Copy, Debug)]
pub struct MaybeEqual(pub u64, pub u64);

impl PartialEq for MaybeEqual {
    ghost eq = { λ a b. a.0 == b.0 };

    ghost laws = { Prim.search (comparing, rules) };

    fn eq(&self, other: &MaybeEqual) -> bool {
        self.0 == other.0
    }
}

impl Eq for MaybeEqual {
    ghost laws = { Prim.search (comparing, rules) };
}

impl Hash for MaybeEqual {
    ghost hash_input = { λ a. fed.u64 a.0 };

    ghost respects_eq = { Prim.search (hashing, rules) };

    fn hash<S: Hasher>(&self, state: &mut S) {
        self.0.hash(state);
    }
}
