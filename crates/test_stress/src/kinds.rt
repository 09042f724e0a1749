//! The calls of workers on a container of each kind. Every other call is on a key of the worker's own, and the others
//! are on keys that all workers share.

use crate::plain::Plain;
use crate::turns::Turns;
use scc_calls::{CacheCall, IndexCall, MapCall, Reply, SetCall};
use scc_common::Shared;
use scc_script::same::Same;
use std::alloc::{AllocError, Global};

pub(crate) type Map = scc_owned::map::Owned<u64, u64, Shared<Same>>;

pub(crate) type Set = scc_owned_set::Owned<u64, Shared<Same>>;

pub(crate) type Index = scc_owned::index::Owned<u64, u64, Shared<Same>>;

pub(crate) type Cache = scc_owned_cache::Owned<u64, u64, Shared<Same>>;

/// Inserts the pair into the list, and returns the reply.
fn insert(plain: &mut Plain, key: u64, value: u64) -> Result<Reply<u64, u64>, AllocError> {
    if plain.has(key) {
        return Ok(Reply::Exists(key, value));
    }
    plain.set(key, value)?;
    Ok(Reply::Inserted)
}

/// Puts the pair into the list, and evicts a pair if its bucket is full. Returns whether `reply` is right.
fn put(
    alloc: Global,
    plain: &mut Plain,
    pair: (u64, u64),
    reply: &Reply<u64, u64>,
) -> Result<bool, AllocError> {
    let (key, value) = pair;
    if plain.has(key) {
        return Ok(*reply == Reply::Exists(key, value));
    }
    match reply {
        Reply::Evicted(gone) => {
            let is_right = plain.evict(alloc, key, *gone)?;
            plain.set(key, value)?;
            Ok(is_right)
        }
        _ => Ok(false),
    }
}

impl Turns for Map {
    fn own_turn(key: u64, j: u64) -> (MapCall<u64, u64>, Option<Reply<u64, u64>>) {
        let before = j.wrapping_sub(2);
        match j % 16 {
            0 | 8 => (MapCall::Insert(key, j), Some(Reply::Inserted)),
            2 | 10 => (MapCall::Read(key), Some(Reply::Value(Some(before)))),
            4 | 12 => (
                MapCall::Upsert(key, j),
                Some(Reply::Old(Some(j.wrapping_sub(4)))),
            ),
            6 => (MapCall::Contains(key), Some(Reply::Has(true))),
            _ => (MapCall::Remove(key), Some(Reply::Pair(Some((key, before))))),
        }
    }

    fn shared_turn(key: u64, j: u64) -> MapCall<u64, u64> {
        match j % 8 {
            1 => MapCall::Upsert(key, j),
            3 => MapCall::Remove(key),
            5 => MapCall::Read(key),
            _ => MapCall::Insert(key, j),
        }
    }

    fn plays(
        _alloc: Global,
        plain: &mut Plain,
        call: &MapCall<u64, u64>,
        reply: &Reply<u64, u64>,
    ) -> Result<bool, AllocError> {
        let wanted = match call {
            MapCall::Insert(key, value) => insert(plain, *key, *value)?,
            MapCall::Upsert(key, value) => {
                let old = plain.value(*key);
                plain.set(*key, *value)?;
                Reply::Old(old)
            }
            MapCall::Replace(key) => Reply::Key(plain.key(*key)),
            MapCall::Read(key) => Reply::Value(plain.value(*key)),
            MapCall::Contains(key) => Reply::Has(plain.has(*key)),
            MapCall::Remove(key) => Reply::Pair(plain.remove(*key)),
            MapCall::Clear | MapCall::Len => return Ok(false),
        };
        Ok(*reply == wanted)
    }

    fn collect(&self, met: &mut Vec<(u64, u64)>) -> bool {
        self.iter_sync(|key, value| met.push((*key, *value)).is_ok())
    }

    fn count(&self) -> usize {
        self.len()
    }

    fn is_ordered() -> bool {
        false
    }

    ghost use Rattle.std.proofs.Common.{rules};

    ghost equal_calls = { λ a b h. Prim.search rules };

    ghost equal_replies = { λ a b h. Prim.search rules };
}

impl Turns for Set {
    fn own_turn(key: u64, j: u64) -> (SetCall<u64>, Option<Reply<u64, ()>>) {
        let stored = Some(Reply::Key(Some(key)));
        match j % 16 {
            0 | 8 => (SetCall::Insert(key), Some(Reply::Inserted)),
            2 | 10 => (SetCall::Read(key), stored),
            4 | 12 => (SetCall::Replace(key), stored),
            6 => (SetCall::Contains(key), Some(Reply::Has(true))),
            _ => (SetCall::Remove(key), stored),
        }
    }

    fn shared_turn(key: u64, j: u64) -> SetCall<u64> {
        match j % 8 {
            1 => SetCall::Replace(key),
            3 => SetCall::Remove(key),
            5 => SetCall::Read(key),
            _ => SetCall::Insert(key),
        }
    }

    fn plays(
        _alloc: Global,
        plain: &mut Plain,
        call: &SetCall<u64>,
        reply: &Reply<u64, ()>,
    ) -> Result<bool, AllocError> {
        let wanted = match call {
            SetCall::Insert(key) if plain.has(*key) => Reply::Exists(*key, ()),
            SetCall::Insert(key) => {
                plain.set(*key, 0)?;
                Reply::Inserted
            }
            SetCall::Replace(key) => {
                let old = plain.key(*key);
                plain.set(*key, 0)?;
                Reply::Key(old)
            }
            SetCall::Read(key) => Reply::Key(plain.key(*key)),
            SetCall::Contains(key) => Reply::Has(plain.has(*key)),
            SetCall::Remove(key) => Reply::Key(plain.remove(*key).map(|pair| pair.0)),
            SetCall::Clear | SetCall::Len => return Ok(false),
        };
        Ok(*reply == wanted)
    }

    fn collect(&self, met: &mut Vec<(u64, u64)>) -> bool {
        self.iter_sync(|key| met.push((*key, 0)).is_ok())
    }

    fn count(&self) -> usize {
        self.len()
    }

    fn is_ordered() -> bool {
        false
    }

    ghost use Rattle.std.proofs.Common.{rules};

    ghost equal_calls = { λ a b h. Prim.search rules };

    ghost equal_replies = { λ a b h. Prim.search rules };
}

impl Turns for Index {
    fn own_turn(key: u64, j: u64) -> (IndexCall<u64, u64>, Option<Reply<u64, u64>>) {
        let there = Some(Reply::Has(true));
        match j % 16 {
            0 | 8 => (IndexCall::Insert(key, j), Some(Reply::Inserted)),
            2 | 10 => (
                IndexCall::Read(key),
                Some(Reply::Value(Some(j.wrapping_sub(2)))),
            ),
            4 | 12 => (IndexCall::Update(key, j), there),
            6 => (IndexCall::Contains(key), there),
            _ => (IndexCall::Remove(key), there),
        }
    }

    fn shared_turn(key: u64, j: u64) -> IndexCall<u64, u64> {
        match j % 8 {
            1 => IndexCall::Update(key, j),
            3 => IndexCall::Remove(key),
            5 => IndexCall::Read(key),
            _ => IndexCall::Insert(key, j),
        }
    }

    fn plays(
        _alloc: Global,
        plain: &mut Plain,
        call: &IndexCall<u64, u64>,
        reply: &Reply<u64, u64>,
    ) -> Result<bool, AllocError> {
        let wanted = match call {
            IndexCall::Insert(key, value) => insert(plain, *key, *value)?,
            IndexCall::Update(key, value) => {
                let is_there = plain.has(*key);
                if is_there {
                    plain.set(*key, *value)?;
                }
                Reply::Has(is_there)
            }
            IndexCall::Read(key) => Reply::Value(plain.value(*key)),
            IndexCall::Contains(key) => Reply::Has(plain.has(*key)),
            IndexCall::Remove(key) => Reply::Has(plain.remove(*key).is_some()),
            IndexCall::Clear | IndexCall::Len => return Ok(false),
        };
        Ok(*reply == wanted)
    }

    fn collect(&self, met: &mut Vec<(u64, u64)>) -> bool {
        self.iter_sync(|key, value| met.push((*key, *value)).is_ok())
    }

    fn count(&self) -> usize {
        self.len()
    }

    fn is_ordered() -> bool {
        false
    }

    ghost use Rattle.std.proofs.Common.{rules};

    ghost equal_calls = { λ a b h. Prim.search rules };

    ghost equal_replies = { λ a b h. Prim.search rules };
}

// A put of another worker may evict a worker's key, so no reply of a cache is known in advance.
impl Turns for Cache {
    fn own_turn(key: u64, j: u64) -> (CacheCall<u64, u64>, Option<Reply<u64, u64>>) {
        match j % 16 {
            0 | 8 => (CacheCall::Put(key, j), None),
            2 | 10 => (CacheCall::Get(key), None),
            4 | 12 => (CacheCall::Write(key, j), None),
            6 => (CacheCall::Contains(key), None),
            _ => (CacheCall::Remove(key), None),
        }
    }

    fn shared_turn(key: u64, j: u64) -> CacheCall<u64, u64> {
        match j % 8 {
            1 => CacheCall::Replace(key),
            3 => CacheCall::Remove(key),
            5 => CacheCall::Get(key),
            _ => CacheCall::Put(key, j),
        }
    }

    fn plays(
        alloc: Global,
        plain: &mut Plain,
        call: &CacheCall<u64, u64>,
        reply: &Reply<u64, u64>,
    ) -> Result<bool, AllocError> {
        let wanted = match call {
            CacheCall::Put(key, value) => return put(alloc, plain, (*key, *value), reply),
            CacheCall::Write(key, value) => {
                let old = plain.value(*key);
                if old.is_some() {
                    plain.set(*key, *value)?;
                }
                Reply::Old(old)
            }
            CacheCall::Get(key) => {
                plain.touch(*key)?;
                Reply::Value(plain.value(*key))
            }
            CacheCall::Replace(key) => {
                plain.touch(*key)?;
                Reply::Key(plain.key(*key))
            }
            CacheCall::Read(key) => Reply::Value(plain.value(*key)),
            CacheCall::Contains(key) => Reply::Has(plain.has(*key)),
            CacheCall::Remove(key) => Reply::Pair(plain.remove(*key)),
            CacheCall::Clear | CacheCall::Len => return Ok(false),
        };
        Ok(*reply == wanted)
    }

    fn collect(&self, met: &mut Vec<(u64, u64)>) -> bool {
        self.iter_sync(|key, value| met.push((*key, *value)).is_ok())
    }

    fn count(&self) -> usize {
        self.len()
    }

    fn is_ordered() -> bool {
        true
    }

    ghost use Rattle.std.proofs.Common.{rules};

    ghost equal_calls = { λ a b h. Prim.search rules };

    ghost equal_replies = { λ a b h. Prim.search rules };
}
