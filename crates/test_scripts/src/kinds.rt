// The calls of each kind, by their numbers.
use crate::call_streams::Streamed;
use scc_calls::{CacheCall, IndexCall, MapCall, Reply, SetCall};
use scc_common::Shared;
use scc_script::same::Same;

pub type Map = scc_owned::map::Owned<u64, u64, Shared<Same>>;

pub type Set = scc_owned_set::Owned<u64, Shared<Same>>;

pub type Index = scc_owned::index::Owned<u64, u64, Shared<Same>>;

pub type Cache = scc_owned_cache::Owned<u64, u64, Shared<Same>>;

impl Streamed for Map {
    const KEYED: u64 = 6;

    const LOOK: u64 = 3;

    fn call_of(number: u64, key: u64, value: u64) -> MapCall<u64, u64> {
        match number {
            0 => MapCall::Insert(key, value),
            1 => MapCall::Upsert(key, value),
            2 => MapCall::Replace(key),
            3 => MapCall::Read(key),
            4 => MapCall::Contains(key),
            5 => MapCall::Remove(key),
            6 => MapCall::Len,
            _ => MapCall::Clear,
        }
    }

    fn number_of(call: &MapCall<u64, u64>) -> usize {
        match call {
            MapCall::Insert(_, _) => 0,
            MapCall::Upsert(_, _) => 1,
            MapCall::Replace(_) => 2,
            MapCall::Read(_) => 3,
            MapCall::Contains(_) => 4,
            MapCall::Remove(_) => 5,
            MapCall::Len => 6,
            MapCall::Clear => 7,
        }
    }

    fn has(&self, key: Option<&u64>) -> bool {
        match key {
            Some(key) => self.contains_sync(key),
            None => !self.is_empty(),
        }
    }

    fn is_eviction(_reply: &Reply<u64, u64>) -> bool {
        false
    }
}

impl Streamed for Set {
    const KEYED: u64 = 5;

    const LOOK: u64 = 2;

    fn call_of(number: u64, key: u64, _value: u64) -> SetCall<u64> {
        match number {
            0 => SetCall::Insert(key),
            1 => SetCall::Replace(key),
            2 => SetCall::Read(key),
            3 => SetCall::Contains(key),
            4 => SetCall::Remove(key),
            5 => SetCall::Len,
            _ => SetCall::Clear,
        }
    }

    fn number_of(call: &SetCall<u64>) -> usize {
        match call {
            SetCall::Insert(_) => 0,
            SetCall::Replace(_) => 1,
            SetCall::Read(_) => 2,
            SetCall::Contains(_) => 3,
            SetCall::Remove(_) => 4,
            SetCall::Len => 5,
            SetCall::Clear => 6,
        }
    }

    fn has(&self, key: Option<&u64>) -> bool {
        match key {
            Some(key) => self.contains_sync(key),
            None => !self.is_empty(),
        }
    }

    fn is_eviction(_reply: &Reply<u64, ()>) -> bool {
        false
    }
}

impl Streamed for Index {
    const KEYED: u64 = 5;

    const LOOK: u64 = 2;

    fn call_of(number: u64, key: u64, value: u64) -> IndexCall<u64, u64> {
        match number {
            0 => IndexCall::Insert(key, value),
            1 => IndexCall::Update(key, value),
            2 => IndexCall::Read(key),
            3 => IndexCall::Contains(key),
            4 => IndexCall::Remove(key),
            5 => IndexCall::Len,
            _ => IndexCall::Clear,
        }
    }

    fn number_of(call: &IndexCall<u64, u64>) -> usize {
        match call {
            IndexCall::Insert(_, _) => 0,
            IndexCall::Update(_, _) => 1,
            IndexCall::Read(_) => 2,
            IndexCall::Contains(_) => 3,
            IndexCall::Remove(_) => 4,
            IndexCall::Len => 5,
            IndexCall::Clear => 6,
        }
    }

    fn has(&self, key: Option<&u64>) -> bool {
        match key {
            Some(key) => self.contains(key),
            None => !self.is_empty(),
        }
    }

    fn is_eviction(_reply: &Reply<u64, u64>) -> bool {
        false
    }
}

impl Streamed for Cache {
    const KEYED: u64 = 7;

    const LOOK: u64 = 4;

    fn call_of(number: u64, key: u64, value: u64) -> CacheCall<u64, u64> {
        match number {
            0 => CacheCall::Put(key, value),
            1 => CacheCall::Get(key),
            2 => CacheCall::Write(key, value),
            3 => CacheCall::Replace(key),
            4 => CacheCall::Read(key),
            5 => CacheCall::Contains(key),
            6 => CacheCall::Remove(key),
            7 => CacheCall::Len,
            _ => CacheCall::Clear,
        }
    }

    fn number_of(call: &CacheCall<u64, u64>) -> usize {
        match call {
            CacheCall::Put(_, _) => 0,
            CacheCall::Get(_) => 1,
            CacheCall::Write(_, _) => 2,
            CacheCall::Replace(_) => 3,
            CacheCall::Read(_) => 4,
            CacheCall::Contains(_) => 5,
            CacheCall::Remove(_) => 6,
            CacheCall::Len => 7,
            CacheCall::Clear => 8,
        }
    }

    fn has(&self, key: Option<&u64>) -> bool {
        match key {
            Some(key) => self.contains_sync(key),
            None => !self.is_empty(),
        }
    }

    fn is_eviction(reply: &Reply<u64, u64>) -> bool {
        matches!(reply, Reply::Evicted(Some(_)))
    }
}
