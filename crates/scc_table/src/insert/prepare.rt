//! The preparation of an insertion.
ghost use Rattle.scc_buckets.specs.Bounded.{IsListed};
ghost use Rattle.scc_common.specs.Contents.{bucket_count, hash_in, lists_of, notes_of, settings_of, waiting_of, IsMarked, IsNoteUp, IsUniqueBy, note_of, without_mark};
ghost use Rattle.scc_common.specs.Routing.{bucket_number};
ghost use Rattle.scc_common.specs.Steps.{Prepares};
ghost use Rattle.scc_table.specs.Bounded.{GrowsBelow, IsPreparedBelow};
ghost use Rattle.scc_table.specs.Marks.{MarksPreparation};
ghost use Rattle.std.specs.Prelude.{◌≡◌, ◌≢◌, ◌<◌, ◌≤◌, ◌^◌, ◌⊎◌, [], false, true, replicate, OnOk, OnErr};

use crate::Table;
use scc_common::{Hashes, Keyed};
use std::alloc::AllocError;

impl<E: Keyed, H: Hashes<E::Key>> Table<E, H>
where
    E::Key: Eq,
{
    /// Prepares an insertion of a new key with the hash `hash`: makes the first array, or doubles the array as
    /// `bucket_for_new` does; then every bucket of the new array waits. A growth whose memory is refused is noted and
    /// marked: the insertion doesn't try it again. Fails only if memory for the first array is refused; then nothing
    /// changes.
    pub fn prepare(&mut self, hash: u64, most: usize) -> Result<(), AllocError>
        requires most { most ≤ 2 ^ 63 }
        ensures ok { OnOk result (most ≡ 2 ^ 63 → Prepares (hash_in H.hash_of
            self.old) E.key_of self.old hash self.new) }
        ensures ready { OnOk result (IsPreparedBelow most (bucket_number (settings_of self.new).skipped
            (bucket_count self.new) hash) self.new) }
        ensures grows { OnOk result (IsListed (λ e. hash_in H.hash_of self.old
            (E.key_of e)) self.old → GrowsBelow (λ e. hash_in H.hash_of self.old
            (E.key_of e)) most (bucket_number (settings_of self.old).skipped (bucket_count self.old) hash) self.old
            self.new) }
        ensures listed { IsListed (λ e. hash_in H.hash_of self.old (E.key_of e)) self.old
            → IsListed (λ e. hash_in H.hash_of self.new (E.key_of e)) self.new }
        ensures err { OnErr result (bucket_count self.old ≡ 0) }
        ensures same { OnErr result (self.new ≡ self.old) }
        ensures marks { most ≡ 2 ^ 63 → MarksPreparation (hash_in H.hash_of self.old)
            E.key_of self.old hash self.new }
        ensures marked { IsMarked self.new → IsMarked self.old ⊎ IsNoteUp self.new }
        ensures first { bucket_count self.old ≡ 0 → waiting_of self.new ≡ [] }
        ensures waiting { 0 < bucket_count self.old → bucket_count self.new ≡ bucket_count self.old
            → waiting_of self.new ≡ waiting_of self.old }
        ensures all { 0 < bucket_count self.old → bucket_count self.new ≢ bucket_count self.old
            → waiting_of self.new ≡ replicate (bucket_count self.new) true }
        ensures settings { settings_of self.new ≡ settings_of self.old }
        ensures unique { IsUniqueBy E.Key.eq E.key_of self.new }
    {
        let bucket = self.bucket_for_new(hash, most)?;
        if self.pending() > 0 {
            return Ok(());
        }
        if self.list_len(bucket) < 32 {
            return Ok(());
        }
        let count = self.bucket_count();
        if self.len() < 16 * count {
            return Ok(());
        }
        if 32 * count >= most {
            return Ok(());
        }
        self.mark(true, true);
        Ok(())
    }

    /// Takes the mark away, so that the next insertion tries a growth that is due.
    #[inline(always)]
    pub fn drop_mark(&mut self)
        ensures cleared { self.new ≡ without_mark self.old }
        ensures lists { lists_of self.new ≡ lists_of self.old }
        ensures settings { settings_of self.new ≡ settings_of self.old }
        ensures waiting { waiting_of self.new ≡ waiting_of self.old }
        ensures noted { notes_of self.new ≡ (note_of self.old, false) }
        ensures listed { IsListed (λ e. hash_in H.hash_of self.old (E.key_of e)) self.old
            → IsListed (λ e. hash_in H.hash_of self.new (E.key_of e)) self.new }
        ensures unique { IsUniqueBy E.Key.eq E.key_of self.new }
    {
        let refused = self.is_resize_refused();
        self.mark(refused, false);
    }
}
