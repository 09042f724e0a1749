//! `Version`: a pair that several owners share, and that never changes.
ghost use Rattle.std.specs.Prelude.{◌≡◌, ◌&&◌, IfOk, IfErr};
ghost use Rattle.std.specs.Arc.{arc_value};
ghost use Rattle.std.specs.Cmp.{on_per, and_per, on_equiv, and_equiv};

use crate::{Keyed, Made};
use std::alloc::{AllocError, Global};
use std::marker::Model;
use std::sync::Arc;

/// A key and a value that never change. A contract sees the pair of them.
#[derive(Drop)]
pub struct Version<K, V> {
    key: K,
    value: V,
}

impl<K, V> Model for Version<K, V> {
    ghost Value = { K × V };

    ghost view = { λ v. (v.key, v.value) };
}

impl<K: PartialEq, V: PartialEq> PartialEq for Version<K, V> {
    ghost eq = { λ a b. K.eq a.0 b.0 && V.eq a.1 b.1 };

    ghost laws = { and_per (on_per (λ v. v.0) K.laws) (on_per (λ v. v.1) V.laws) };

    fn eq(&self, other: &Version<K, V>) -> bool {
        self.key == other.key && self.value == other.value
    }
}

impl<K: Eq, V: Eq> Eq for Version<K, V> {
    ghost laws = { and_equiv (on_equiv (λ v. v.0) K.Eq.laws) (on_equiv (λ v. v.1) V.Eq.laws) };
}

impl<K, V> Version<K, V> {
    /// Makes a version of `key` and `value`.
    #[inline(always)]
    pub fn new(key: K, value: V) -> Version<K, V>
        ensures { result ≡ (key, value) }
    {
        Version { key, value }
    }

    /// Returns the key.
    #[inline(always)]
    pub fn key(&self) -> &K
        ensures { result.now ≡ self.now.0 }
    {
        &self.key
    }

    /// Returns the value.
    #[inline(always)]
    pub fn value(&self) -> &V
        ensures { result.now ≡ self.now.1 }
    {
        &self.value
    }

    /// Returns the key and the value of a version that has no other owner.
    #[inline(always)]
    pub(crate) fn into_pair(self) -> (K, V)
        ensures { result ≡ self }
    {
        let Version { key, value } = self;
        (key, value)
    }
}

/// One of the owners of a version, as the entry of a table. A contract sees the pair of the version, and doesn't tell
/// two owners of one version apart.
#[derive(Drop)]
pub struct SharedVersion<K, V> {
    owner: Arc<Version<K, V>>,
    alloc: Global,
}

impl<K, V> Model for SharedVersion<K, V> {
    ghost use Rattle.std.specs.Arc.{arc_value};
    ghost use Rattle.std.specs.Coded.{coded×};

    ghost Value = { K × V };

    ghost coded = { coded× K.code V.code };

    ghost view = { λ s. arc_value s.owner };
}

impl<K, V> SharedVersion<K, V> {
    /// Returns the version.
    #[inline(always)]
    pub fn version(&self) -> &Version<K, V>
        ensures { result.now ≡ self.now }
    {
        &self.owner
    }

    /// Returns one more owner of the version. Fails if there are 2^63 - 1 owners.
    #[inline(always)]
    pub fn clone_owner(&self) -> Result<Arc<Version<K, V>>, AllocError>
        ensures { IfOk result (λ a. arc_value a ≡ self.now) }
    {
        Arc::try_clone(&self.owner)
    }
}

impl<K: Eq, V> Keyed for SharedVersion<K, V> {
    type Key = K;

    ghost key_of = { λ e. e.0 };

    #[inline(always)]
    fn key(&self) -> &K {
        self.version().key()
    }
}

impl<K, V> Made for SharedVersion<K, V> {
    type Parts = (K, V);

    ghost made_of = { λ p. p };

    /// Makes a version of the pair, and returns its first owner. Takes one allocation.
    #[inline(always)]
    fn make(alloc: Global, parts: (K, V)) -> Result<SharedVersion<K, V>, (K, V)> {
        let (key, value) = parts;
        match Arc::new(alloc, Version::new(key, value)) {
            Ok(owner) => Ok(SharedVersion { owner, alloc }),
            Err(refused) => Err(refused.value.into_pair()),
        }
    }
}

impl<K: Clone, V: Clone> Clone for SharedVersion<K, V> {
    ghost is_clone = { λ p q. K.is_clone p.0 q.0 × V.is_clone p.1 q.1 };

    /// Makes a new version of clones of the key and the value, and returns its owner.
    fn clone(&self) -> Result<SharedVersion<K, V>, AllocError> {
        let version = self.version();
        let key = version.key().clone()?;
        let value = version.value().clone()?;
        match SharedVersion::make(self.alloc, (key, value)) {
            Ok(copy) => Ok(copy),
            Err(_) => Err(AllocError),
        }
    }
}
