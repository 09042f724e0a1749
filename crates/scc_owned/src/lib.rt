//! A hash map and a hash index for one owner, over the table of `scc_table`, and their entries, which also serve locked
//! containers. What both have is generic in the entry of the table: a pair in a map, a version in an index.
#![tactic(auto)]

ghost use Rattle.scc_common.specs.Contents.{entries, bucket_count, hash_in, note_of, HasRoomBy, IsUniqueBy, without_mark};
ghost use Rattle.std.specs.Prelude.{◌≡◌, ◌*◌, ◌↔◌, [], length, IsTrue, ◌==◌, false};

pub mod borrowed;
mod calls;
mod getting;
pub mod held;
pub mod index;
pub mod locked;
mod make;
pub mod map;
mod part;
mod places;
pub mod ruled_index;
pub mod ruled_map;
mod sizes;
pub mod stored;

use scc_common::{Hashes, Keyed, SharedVersion};
use scc_table::Table;
use std::alloc::Global;
use std::hash::{BuildHasher, BuildHasherDefault, FoldHasher, Hash};
use std::marker::Model;
pub use stored::{Stored, Unruled};

/// A container of entries with keys, no two of which are equal. A contract sees its entries in the container's own order
/// as `entries m`, the number of its buckets as `bucket_count m`, and its hasher and sizes as `settings_of m`.
///
/// The default hasher has a fixed seed. For keys that an attacker chooses, use `Owned::with_hasher(alloc,
/// RandomState::new(&rt)?)`.
#[derive(Drop)]
pub struct Owned<E: Keyed, H: BuildHasher = BuildHasherDefault<FoldHasher>>
where
    E::Key: Eq + Hash,
{
    pub(crate) table: Table<E, H>,
}

/// A map from keys to values.
pub type Map<K, V, H = BuildHasherDefault<FoldHasher>> = Owned<(K, V), H>;

/// An index from keys to versions. An entry is a version: a key and a value that never change, and that readers may
/// keep. A contract sees the pair of a version.
pub type Index<K, V, H = BuildHasherDefault<FoldHasher>> = Owned<SharedVersion<K, V>, H>;

impl<E: Keyed, H: BuildHasher> Model for Owned<E, H>
where
    E::Key: Eq + Hash,
{
    ghost use Rattle.scc_common.specs.Contents.{Contents};

    ghost Value = { Contents E H };

    ghost view = { λ m. m.table };
}

impl<E: Keyed, H: BuildHasher> Owned<E, H>
where
    E::Key: Eq + Hash,
{
    /// Returns the allocator of the container.
    pub fn allocator(&self) -> Global {
        self.table.allocator()
    }

    /// Returns the number of pairs.
    #[inline(always)]
    pub fn len(&self) -> usize
        ensures len { result ≡ length (entries self.now) }
        ensures unique { IsUniqueBy E.Key.eq E.key_of self.now }
    {
        self.table.len()
    }

    /// Returns whether there is no pair.
    #[inline(always)]
    pub fn is_empty(&self) -> bool
        ensures { IsTrue result ↔ (entries self.now ≡ []) }
    {
        self.table.len() == 0
    }

    /// Returns whether memory was refused for the last resize that was due. The next resize that is made clears this
    /// note. If the result is false after a call that had to resize, the container has the size that the rules ask for.
    #[inline(always)]
    pub fn is_resize_refused(&self) -> bool
        ensures { result ≡ note_of self.now }
    {
        self.table.is_resize_refused()
    }

    /// Returns the number of slots of the array, 32 a bucket, or 0 without an array. There may be more pairs than
    /// slots.
    #[inline(always)]
    pub fn capacity(&self) -> usize
        ensures { result ≡ 32 * bucket_count self.now }
    {
        32 * self.table.bucket_count()
    }

    /// Returns whether there is an array and the bucket of `k` holds fewer than 32 pairs. If so, an insertion of `k`
    /// into a map can't be refused memory, and one into an index can be refused memory for its version alone; neither
    /// allocates anything else unless it relocates another bucket of more than 32 pairs.
    #[inline(always)]
    pub fn has_room(&self, k: &E::Key) -> bool
        ensures { IsTrue result ↔ HasRoomBy (hash_in ⟦<H as Hashes<E::Key>>⟧.hash_of self.now) E.key_of self.now k.now }
    {
        self.table.has_room(k)
    }

    /// Takes the mark of a refused growth away, and changes nothing else. An insertion then tries a growth that is
    /// due, even if `make_room` was refused memory for it.
    pub fn drop_room(&mut self)
        ensures cleared { self.new ≡ without_mark self.old }
        ensures unique { IsUniqueBy E.Key.eq E.key_of self.new }
    {
        self.table.drop_mark();
    }
}
