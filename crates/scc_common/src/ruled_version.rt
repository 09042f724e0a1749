//! `RuledVersion`: a version that keeps a rule, as the entry of a table.
ghost use Rattle.std.specs.Arc.{arc_value};
ghost use Rattle.std.specs.Prelude.{◌≡◌, IfOk};

use crate::{Keyed, Made, Rule, Ruled, SharedVersion, Version};
use std::alloc::{AllocError, Global};
use std::marker::{Model, PhantomData};
use std::sync::Arc;

/// One of the owners of a version that keeps a rule. A contract sees the pair of the version, and knows the rule wherever
/// the entry is read.
#[derive(Drop)]
pub struct RuledVersion<K: Eq, V, R: Rule<K, V>> {
    version: SharedVersion<K, V>,
    rule: PhantomData<R>,
}

impl<K: Eq, V, R: Rule<K, V>> Model for RuledVersion<K, V, R> {
    ghost use Rattle.std.specs.Coded.{coded×};

    ghost Value = { K × V };

    ghost coded = { coded× K.code V.code };

    ghost view = { λ e. e.version };

    ghost invariant = { λ e. R.holds e.version.0 e.version.1 };
}

impl<K: Eq, V, R: Rule<K, V>> Keyed for RuledVersion<K, V, R> {
    type Key = K;

    ghost key_of = { λ e. e.0 };

    #[inline(always)]
    fn key(&self) -> &K {
        self.version().key()
    }
}

impl<K: Eq, V, R: Rule<K, V>> Made for RuledVersion<K, V, R> {
    type Parts = Ruled<K, V, R>;

    ghost made_of = { λ p. p };

    /// Makes a version of the pair, and returns its first owner. Takes one allocation.
    #[inline(always)]
    fn make(alloc: Global, parts: Ruled<K, V, R>) -> Result<RuledVersion<K, V, R>, Ruled<K, V, R>> {
        let (key, value) = parts.into_pair();
        match SharedVersion::make(alloc, (key, value)) {
            Ok(version) => Ok(RuledVersion::of(version)),
            Err((key, value)) => Err(Ruled::new(key, value)),
        }
    }
}

impl<K: Eq, V, R: Rule<K, V>> RuledVersion<K, V, R> {
    /// Makes the entry of a version that keeps the rule.
    #[inline(always)]
    pub fn of(version: SharedVersion<K, V>) -> RuledVersion<K, V, R>
        requires { R.holds version.0 version.1 }
        ensures { result ≡ version }
    {
        RuledVersion {
            version,
            rule: PhantomData,
        }
    }

    /// Returns the version, which keeps the rule.
    #[inline(always)]
    pub fn version(&self) -> &Version<K, V>
        ensures same { result.now ≡ self.now }
        ensures kept { R.holds result.now.0 result.now.1 }
    {
        self.version.version()
    }

    /// Returns one more owner of the version, which keeps the rule. Fails if there are 2^63 - 1 owners.
    #[inline(always)]
    pub fn clone_owner(&self) -> Result<Arc<Version<K, V>>, AllocError>
        ensures same { IfOk result (λ a. arc_value a ≡ self.now) }
        ensures kept { R.holds self.now.0 self.now.1 }
    {
        self.version.clone_owner()
    }
}
