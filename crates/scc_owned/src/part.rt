//! How a part of a shared container follows its share of the minimum.
ghost use Rattle.scc_common.specs.Contents.{entries, bucket_count, IsUniqueBy};
ghost use Rattle.scc_owned.specs.Sizes.{FollowsMinimum};
ghost use Rattle.scc_table.specs.Making.{MakesEmpty};
ghost use Rattle.std.specs.Arc.{arc_value};
ghost use Rattle.std.specs.Prelude.{◌≡◌, ◌≤◌, ◌*◌, ◌^◌, IfOk, Ok, length};

use crate::Owned;
use scc_common::{Keyed, MakeError, Shared};
use scc_stripes::{Follow, Part};
use std::alloc::Global;
use std::hash::{BuildHasher, Hash};
use std::sync::Arc;

impl<E: Keyed, H: BuildHasher> Owned<E, H>
where
    E::Key: Eq + Hash,
{
    /// Makes `share` slots the minimum, which includes the slots asked for at making. If the minimum rises, an array
    /// that is there grows to it; if it falls, the array may shrink; both unless memory is refused. A `share` below
    /// the slots asked for changes nothing.
    #[inline(always)]
    pub fn follow_minimum(&mut self, share: usize)
        requires { share ≤ 2 ^ 63 }
        ensures { FollowsMinimum (IsUniqueBy E.Key.eq E.key_of) self.old share self.new }
    {
        if *self.capacity_range().start() != share {
            self.change_minimum(share);
        }
    }

    /// Changes the minimum for `follow_minimum`. It is kept out of line, since a share seldom changes.
    #[cold]
    fn change_minimum(&mut self, share: usize)
        requires { share ≤ 2 ^ 63 }
        ensures { FollowsMinimum (IsUniqueBy E.Key.eq E.key_of) self.old share self.new }
    {
        let minimum = *self.capacity_range().start();
        if share > minimum {
            let _ = self.table.raise_minimum(share - minimum);
        } else if share < minimum {
            let _ = self.table.lower_minimum(minimum - share);
        }
    }
}

impl<E: Keyed, H: BuildHasher> Follow for Owned<E, H>
where
    E::Key: Eq + Hash,
{
    fn count(&self) -> usize
        ensures { result ≡ length (entries self.now) }
    {
        self.len()
    }

    fn slots(&self) -> usize
        ensures { result ≡ 32 * bucket_count self.now }
    {
        self.capacity()
    }

    #[inline(always)]
    fn follow(&mut self, share: usize)
        requires { share ≤ 2 ^ 63 }
        ensures { FollowsMinimum (IsUniqueBy E.Key.eq E.key_of) self.old share self.new }
    {
        self.follow_minimum(share);
    }
}

impl<E: Keyed, H: BuildHasher> Part<H> for Owned<E, Shared<H>>
where
    E::Key: Eq + Hash,
{
    ghost is_made = { λ skipped slots _ hasher part. MakesEmpty {X = Unit {0}} (λ _. hasher) skipped slots (Ok part) };

    fn make_part(
        alloc: Global,
        skipped: u32,
        slots: usize,
        _maximum: usize,
        owner: Arc<H>,
    ) -> Result<Self, MakeError>
    where
        H: Drop,
        requires { skipped ≤ 4 }
        ensures { IfOk result (λ part. MakesEmpty {X = Unit {0}} (λ _. arc_value owner) skipped slots (Ok part)) }
    {
        Owned::part(alloc, skipped, slots, owner)
    }
}
