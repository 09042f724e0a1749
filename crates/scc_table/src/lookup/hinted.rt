//! Searches that begin with a hint, a hash that another hasher may have made. The key is hashed only if nothing is found
//! by the hint, or if some bucket waits.
ghost use Rattle.scc_common.specs.Contents.{entries, hash_in, IsUniqueBy};
ghost use Rattle.scc_table.specs.Hints.{IsHinted};
ghost use Rattle.scc_table.specs.Places.{IsFoundAt};
ghost use Rattle.std.specs.List.{position};
ghost use Rattle.std.specs.Prelude.{◌≡◌, None, IfOk, IfErr};

use crate::Table;
use scc_buckets::Place;
use scc_common::{Hashes, Keyed};

/// What a search by a hint tells.
#[derive(Clone, Copy, Drop)]
pub enum Hinted {
    /// The place of the entry.
    Found(Place),
    /// There is no entry of the key, and the hint is the hash of the key.
    Missed,
    /// Nothing: the hint isn't the hash of the key, or some bucket waits.
    Unknown,
}

impl<E: Keyed, H: Hashes<E::Key>> Table<E, H>
where
    E::Key: Eq,
{
    /// Searches by `hint` alone for the entry whose key equals `key`. `hint` may be any hash.
    #[inline(always)]
    pub fn look_by_hint(&self, hint: u64, key: &E::Key) -> Hinted
        ensures hinted { IsHinted (λ e. E.Key.eq key.now (E.key_of e)) self.now hint (hash_in H.hash_of self.now key.now)
            result }
        ensures unique { IsUniqueBy E.Key.eq E.key_of self.now }
    {
        if self.draining.pending != 0 {
            return Hinted::Unknown;
        }
        match self.current.search_hinted(hint, key) {
            Some(place) => Hinted::Found(place),
            None => {
                if self.hash(key) == hint {
                    Hinted::Missed
                } else {
                    Hinted::Unknown
                }
            }
        }
    }

    /// Returns the place of the entry whose key equals `key`, or the hash of `key` if there is no such entry. `hint` may
    /// be any hash: if it is the hash of `key`, no bucket waits and the entry is present, `key` isn't hashed.
    #[inline(always)]
    pub fn search_by_hint(&self, hint: u64, key: &E::Key) -> Result<Place, u64>
        ensures found { IfOk result (IsFoundAt (λ e. E.Key.eq key.now (E.key_of e)) self.now) }
        ensures missed { IfErr result (λ h. (h ≡ hash_in H.hash_of self.now key.now)
            × (position (λ e. E.Key.eq key.now (E.key_of e)) (entries self.now) ≡ None)) }
        ensures unique { IsUniqueBy E.Key.eq E.key_of self.now }
    {
        match self.look_by_hint(hint, key) {
            Hinted::Found(place) => Ok(place),
            Hinted::Missed => Err(hint),
            Hinted::Unknown => match self.search_anew(key) {
                Ok(place) => Ok(place),
                Err(hash) => Err(hash),
            },
        }
    }

    /// As `search_by_hint`, if a hint led nowhere.
    #[cold]
    fn search_anew(&self, key: &E::Key) -> Result<Place, u64>
        ensures found { IfOk result (IsFoundAt (λ e. E.Key.eq key.now (E.key_of e)) self.now) }
        ensures missed { IfErr result (λ h. (h ≡ hash_in H.hash_of self.now key.now)
            × (position (λ e. E.Key.eq key.now (E.key_of e)) (entries self.now) ≡ None)) }
    {
        let hash = self.hash(key);
        match self.search(hash, key) {
            Some(place) => Ok(place),
            None => Err(hash),
        }
    }
}
