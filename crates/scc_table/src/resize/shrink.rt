//! Shrinks of a table of two arrays.
ghost use Rattle.scc_common.specs.Contents.{entries, bucket_count, minimum_of, IsUniqueBy};
ghost use Rattle.scc_common.specs.Steps.{Resizes, Shrinks, ShrinksWhenDue};
ghost use Rattle.scc_table.specs.Relocates.{IsShrinkDue, Spreads};
ghost use Rattle.std.specs.Prelude.{◌≤◌, ◌*◌, length};

use crate::Table;
use scc_buckets::sizes::buckets_for;
use scc_common::{Hashes, Keyed};

impl<E: Keyed, H: Hashes<E::Key>> Table<E, H>
where
    E::Key: Eq,
{
    /// Shrinks the array if the table has at most an eighth as many entries as slots and a smaller array has enough
    /// slots; then every bucket of the new array waits. The array stays if memory is refused. If a shrink is due, takes
    /// time proportional to the number of buckets and of entries that waited; otherwise, takes constant time.
    #[inline(always)]
    pub fn shrink(&mut self)
        ensures resizes { Resizes self.old self.new }
        ensures shrinks { Shrinks self.old self.new }
        ensures due { ShrinksWhenDue self.old self.new }
        ensures spreads { Spreads (IsShrinkDue (minimum_of self.old) self.old) self.old self.new }
        ensures unique { IsUniqueBy E.Key.eq E.key_of self.new }
    {
        let count = self.bucket_count();
        let length = self.len();
        if count <= 2 || length > 4 * count {
            return;
        }
        self.shrink_sparse();
    }

    /// As `shrink`, if the table has at most an eighth as many entries as slots.
    fn shrink_sparse(&mut self)
        requires { length (entries self.old) ≤ 4 * bucket_count self.old }
        ensures resizes { Resizes self.old self.new }
        ensures shrinks { Shrinks self.old self.new }
        ensures due { ShrinksWhenDue self.old self.new }
        ensures spreads { Spreads (IsShrinkDue (minimum_of self.old) self.old) self.old self.new }
        ensures unique { IsUniqueBy E.Key.eq E.key_of self.new }
    {
        let present = self.bucket_count();
        let count = buckets_for(self.minimum()).max(buckets_for(2 * self.len()));
        if count >= present {
            return;
        }
        match self.resize_to(count) {
            Ok(()) => {}
            Err(_) => {}
        }
    }
}
