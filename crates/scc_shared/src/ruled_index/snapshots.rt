//! `RuledIter`: a snapshot of an index under a rule.
ghost use Rattle.scc_owned.specs.RuledReplies.{YieldsKept};
ghost use Rattle.scc_common.specs.Rules.{AllKeep};
ghost use Rattle.std.specs.Arc.{arc_value};
ghost use Rattle.std.specs.Iterator.{item_count};
ghost use Rattle.std.specs.Prelude.{◌≡◌, IfOk, map};

use scc_common::snapshot::Iter;
use scc_common::{MakeError, Rule, Version};
use std::iter::FusedIterator;
use std::marker::{Model, PhantomData};
use std::sync::Arc;

/// The versions of a snapshot that are still to come, each of which keeps the rule `R`, also when the index no longer has
/// it. A contract sees their pairs, in the order in which they come.
#[derive(Drop)]
pub struct RuledIter<K: Eq, V, R: Rule<K, V>> {
    versions: Iter<K, V>,
    rule: PhantomData<R>,
}

impl<K: Eq, V, R: Rule<K, V>> Model for RuledIter<K, V, R> {
    ghost use Rattle.std.specs.Prelude.{List};
    ghost use Rattle.scc_common.specs.Rules.{AllKeep};

    ghost Value = { List (K × V) };

    ghost view = { λ s. s.versions };

    ghost invariant = { λ s. AllKeep R.holds s.versions };
}

impl<K: Eq + Drop, V: Drop, R: Rule<K, V>> Iterator for RuledIter<K, V, R> {
    type Item = Arc<Version<K, V>>;

    ghost next_gives = { YieldsKept R.holds arc_value };

    ghost remaining = { item_count (λ s. s) };

    /// Returns the next version, which keeps the rule, or `None` after the last. Allocates nothing.
    fn next(&mut self) -> Option<Arc<Version<K, V>>> {
        self.versions.next()
    }
}

impl<K: Eq + Drop, V: Drop, R: Rule<K, V>> FusedIterator for RuledIter<K, V, R> {}

impl<K: Eq + Drop, V: Drop, R: Rule<K, V>> RuledIter<K, V, R> {
    /// Makes a snapshot that returns `versions`, each of which must keep the rule, in their order.
    pub(crate) fn of(versions: Vec<Arc<Version<K, V>>>) -> Self
        requires { AllKeep R.holds (map arc_value versions.items) }
        ensures { result ≡ map arc_value versions.items }
    {
        RuledIter {
            versions: Iter::of(versions),
            rule: PhantomData,
        }
    }

    /// Makes a snapshot of the versions that are still to come. Fails if memory is refused, or if a version has 2^63 -
    /// 1 owners.
    pub fn try_clone(&self) -> Result<Self, MakeError>
        ensures { IfOk result (λ s. s ≡ self.now) }
    {
        match self.versions.try_clone() {
            Ok(versions) => Ok(RuledIter {
                versions,
                rule: PhantomData,
            }),
            Err(e) => Err(e),
        }
    }
}
