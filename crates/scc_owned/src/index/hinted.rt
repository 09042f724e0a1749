//! The insertion of an index that begins with a hint, the hash of the key under some hasher. If the index's own hasher
//! gives the same hash, the key is present and no bucket waits, the key isn't hashed again.
ghost use Rattle.scc_common.specs.Contents.{hash_in};
ghost use Rattle.scc_owned.specs.Hinted.{InsertsVersionByRule};

use crate::Index;
use scc_common::{Hashes, InsertError};
use std::hash::{BuildHasher, Hash};

impl<K: Eq + Hash, V, H: BuildHasher> Index<K, V, H> {
    /// Inserts a version of the pair as `insert_sync` does. The search begins with `hint`, as in `peek_by_hint`: if a key
    /// equals `k`, `k` needn't be hashed.
    #[inline(always)]
    pub fn insert_by_hint(&mut self, hint: u64, k: K, v: V) -> Result<(), InsertError<K, V>>
        ensures { InsertsVersionByRule K.eq (hash_in ⟦<H as Hashes<K>>⟧.hash_of self.old) self.old k v result self.new }
    {
        match self.table.search_by_hint(hint, &k) {
            Ok(_) => Err(InsertError::Exists((k, v))),
            Err(hash) => match self.table.insert_made(hash, (k, v)) {
                Ok(_) => Ok(()),
                Err(pair) => Err(InsertError::Memory(pair)),
            },
        }
    }
}
