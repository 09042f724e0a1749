//! `Iter`: a snapshot of an index, a list of all versions that it had.
ghost use Rattle.std.specs.Prelude.{◌≡◌, IfOk, map};
ghost use Rattle.std.specs.Arc.{arc_value};
ghost use Rattle.std.specs.Iterator.{YieldsFirstBy, item_count};

use crate::{MakeError, Version};
use std::collections::VecDeque;
use std::iter::FusedIterator;
use std::marker::Model;
use std::sync::Arc;

/// The versions of a snapshot that are still to come. `Iter` is an owner of each version, so they stay when the index
/// changes. A contract sees their pairs, in the order in which they come.
#[derive(Drop)]
pub struct Iter<K, V> {
    versions: VecDeque<Arc<Version<K, V>>>,
}

impl<K, V> Model for Iter<K, V> {
    ghost use Rattle.std.specs.Prelude.{List, map};
    ghost use Rattle.std.specs.Arc.{arc_value};

    ghost Value = { List (K × V) };

    ghost view = { λ s. map arc_value s.versions.items };
}

impl<K: Drop, V: Drop> Iterator for Iter<K, V> {
    type Item = Arc<Version<K, V>>;

    ghost next_gives = { YieldsFirstBy arc_value (λ s. s) };

    ghost remaining = { item_count (λ s. s) };

    /// Returns the next version, or `None` after the last. Allocates nothing.
    fn next(&mut self) -> Option<Arc<Version<K, V>>> {
        self.versions.pop_front()
    }
}

impl<K: Drop, V: Drop> FusedIterator for Iter<K, V> {}

impl<K: Drop, V: Drop> Iter<K, V> {
    /// Makes a snapshot that returns `versions` in their order.
    pub fn of(versions: Vec<Arc<Version<K, V>>>) -> Self
        ensures { result ≡ map arc_value versions.items }
    {
        Iter {
            versions: VecDeque::from_vec(versions),
        }
    }

    /// Makes a snapshot of the versions that are still to come. Fails if memory is refused, or if a version has 2^63 -
    /// 1 owners.
    pub fn try_clone(&self) -> Result<Iter<K, V>, MakeError>
        ensures { IfOk result (λ s. s ≡ self.now) }
    {
        let mut versions = match Vec::with_capacity(
            *self.versions.allocator(),
            self.versions.len(),
        ) {
            Ok(versions) => versions,
            Err(_) => return Err(MakeError),
        };
        for version in &self.versions {
            let Ok(version) = Arc::try_clone(version) else {
                return Err(MakeError);
            };
            match versions.push(version) {
                Ok(()) => {}
                Err(_back) => return Err(MakeError),
            }
        }
        Ok(Iter::of(versions))
    }
}
