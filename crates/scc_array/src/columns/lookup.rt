//! Searches of the columns that return the entry itself, and searches by a hint.
ghost use Rattle.scc_array.specs.Hints.{IsPassing, IsPassingAt};
ghost use Rattle.scc_array.specs.Windows.{window_of, IsTagged};
ghost use Rattle.std.specs.List.{find, position};
ghost use Rattle.std.specs.Option.{option_copied};
ghost use Rattle.std.specs.Prelude.{◌≡◌, ◌<◌, length, MatchOption, None};

use crate::columns::Columns;
use crate::tags::{lowest_bit, without_lowest_bit};
use scc_common::Keyed;

impl<E: Keyed> Columns<E>
where
    E::Key: Eq,
{
    /// Returns the first entry of the bucket whose key equals `key`. Only entries whose tag is `tag` are compared, in
    /// the order of their slots.
    #[inline(always)]
    pub(crate) fn find_entry(&self, bucket: usize, key: &E::Key, tag: u8) -> Option<&E>
        requires bucket { bucket < length self.now }
        requires tag { 0 < tag }
        requires tagged { IsTagged (λ e. E.Key.eq key.now (E.key_of e)) tag (window_of self.now bucket) }
        ensures { option_copied result ≡ find (λ e. E.Key.eq key.now (E.key_of e)) (window_of self.now bucket).slots }
    {
        match self.search(bucket, key, tag) {
            Some(slot) => Some(self.entry_at(bucket, slot)),
            None => None,
        }
    }

    /// Returns an entry of the bucket whose key equals `key`. If the result is `None` and `tag` is the tag of `key`,
    /// the bucket has no such entry.
    #[inline(always)]
    pub(crate) fn find_hinted(&self, bucket: usize, key: &E::Key, tag: u8) -> Option<&E>
        requires bucket { bucket < length self.now }
        requires tag { 0 < tag }
        ensures { MatchOption result (IsTagged (λ e. E.Key.eq key.now (E.key_of e)) tag (window_of self.now bucket)
            → position (λ e. E.Key.eq key.now (E.key_of e)) (window_of self.now bucket).slots ≡ None)
            (λ b. IsPassing (λ e. E.Key.eq key.now (E.key_of e)) (window_of self.now bucket).slots b.now) }
    {
        match self.search_hinted(bucket, key, tag) {
            Some(slot) => Some(self.entry_at(bucket, slot)),
            None => None,
        }
    }

    /// Returns the slot of an entry of the bucket whose key equals `key`. If the result is `None` and `tag` is the tag of
    /// `key`, the bucket has no such entry.
    #[inline(always)]
    pub(crate) fn search_hinted(&self, bucket: usize, key: &E::Key, tag: u8) -> Option<usize>
        requires bucket { bucket < length self.now }
        requires tag { 0 < tag }
        ensures { MatchOption result (IsTagged (λ e. E.Key.eq key.now (E.key_of e)) tag (window_of self.now bucket)
            → position (λ e. E.Key.eq key.now (E.key_of e)) (window_of self.now bucket).slots ≡ None)
            (IsPassingAt (λ e. E.Key.eq key.now (E.key_of e)) (window_of self.now bucket).slots) }
    {
        let mut bits = self.hits(bucket, tag);
        'hits: while bits != 0 {
            let slot = lowest_bit(bits);
            if *key == *self.entry_at(bucket, slot).key() {
                return Some(slot);
            }
            bits = without_lowest_bit(bits);
        }
        None
    }
}
