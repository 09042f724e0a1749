//! The names of the calls of each kind in a script.
ghost use Rattle.std.specs.Prelude.{◌≡◌, ℕ};
ghost use Rattle.scc_script.specs.Grammar.{Names, either, map_keyed, map_paired, set_keyed, index_keyed, index_paired, cache_keyed, cache_paired};

use scc_calls::{CacheCall, IndexCall, MapCall, SetCall};

/// Calls that a script may name.
pub trait Named: Copy {
    // The names of the calls.
    ghost names: { Names Self };

    /// Returns the call named `name` that takes no argument, or `None` if there is none.
    fn bare(name: &[u8]) -> Option<Self>
        ensures { result ≡ names.bare name.now };

    /// Returns the call named `name` that takes a key, or `None` if there is none.
    fn keyed(name: &[u8], key: u64) -> Option<Self>
        ensures { result ≡ names.keyed name.now key };

    /// Returns the call named `name` that takes a key and a value, or `None` if there is none.
    fn paired(name: &[u8], key: u64, value: u64) -> Option<Self>
        ensures { result ≡ names.paired name.now key value };
}

/// Returns the one of `len` and `clear` that `name` names, or `None`. All kinds have these two calls without an
/// argument.
fn either_call<C: Copy>(name: &[u8], len: C, clear: C) -> Option<C>
    ensures { result ≡ either len clear name.now }
{
    if name == b"len".as_slice() {
        Some(len)
    } else if name == b"clear".as_slice() {
        Some(clear)
    } else {
        None
    }
}

/// Returns the map call named `name` that takes a key, or `None` if there is none.
fn map_call_at(name: &[u8], key: u64) -> Option<MapCall<u64, u64>>
    ensures { result ≡ map_keyed name.now key }
{
    if name == b"read".as_slice() {
        Some(MapCall::Read(key))
    } else if name == b"contains".as_slice() {
        Some(MapCall::Contains(key))
    } else if name == b"remove".as_slice() {
        Some(MapCall::Remove(key))
    } else if name == b"replace".as_slice() {
        Some(MapCall::Replace(key))
    } else {
        None
    }
}

/// Returns the map call named `name` that takes a key and a value, or `None` if there is none.
fn map_call_of(name: &[u8], key: u64, value: u64) -> Option<MapCall<u64, u64>>
    ensures { result ≡ map_paired name.now key value }
{
    if name == b"insert".as_slice() {
        Some(MapCall::Insert(key, value))
    } else if name == b"upsert".as_slice() {
        Some(MapCall::Upsert(key, value))
    } else {
        None
    }
}

/// Returns the set call named `name` that takes a key, or `None` if there is none.
fn set_call_at(name: &[u8], key: u64) -> Option<SetCall<u64>>
    ensures { result ≡ set_keyed name.now key }
{
    if name == b"insert".as_slice() {
        Some(SetCall::Insert(key))
    } else if name == b"replace".as_slice() {
        Some(SetCall::Replace(key))
    } else if name == b"remove".as_slice() {
        Some(SetCall::Remove(key))
    } else if name == b"read".as_slice() {
        Some(SetCall::Read(key))
    } else if name == b"contains".as_slice() {
        Some(SetCall::Contains(key))
    } else {
        None
    }
}

/// Returns the index call named `name` that takes a key, or `None` if there is none.
fn index_call_at(name: &[u8], key: u64) -> Option<IndexCall<u64, u64>>
    ensures { result ≡ index_keyed name.now key }
{
    if name == b"read".as_slice() {
        Some(IndexCall::Read(key))
    } else if name == b"contains".as_slice() {
        Some(IndexCall::Contains(key))
    } else if name == b"remove".as_slice() {
        Some(IndexCall::Remove(key))
    } else {
        None
    }
}

/// Returns the index call named `name` that takes a key and a value, or `None` if there is none.
fn index_call_of(name: &[u8], key: u64, value: u64) -> Option<IndexCall<u64, u64>>
    ensures { result ≡ index_paired name.now key value }
{
    if name == b"insert".as_slice() {
        Some(IndexCall::Insert(key, value))
    } else if name == b"update".as_slice() {
        Some(IndexCall::Update(key, value))
    } else {
        None
    }
}

/// Returns the cache call named `name` that takes a key, or `None` if there is none.
fn cache_call_at(name: &[u8], key: u64) -> Option<CacheCall<u64, u64>>
    ensures { result ≡ cache_keyed name.now key }
{
    if name == b"get".as_slice() {
        Some(CacheCall::Get(key))
    } else if name == b"read".as_slice() {
        Some(CacheCall::Read(key))
    } else if name == b"contains".as_slice() {
        Some(CacheCall::Contains(key))
    } else if name == b"remove".as_slice() {
        Some(CacheCall::Remove(key))
    } else if name == b"replace".as_slice() {
        Some(CacheCall::Replace(key))
    } else {
        None
    }
}

/// Returns the cache call named `name` that takes a key and a value, or `None` if there is none.
fn cache_call_of(name: &[u8], key: u64, value: u64) -> Option<CacheCall<u64, u64>>
    ensures { result ≡ cache_paired name.now key value }
{
    if name == b"put".as_slice() {
        Some(CacheCall::Put(key, value))
    } else if name == b"write".as_slice() {
        Some(CacheCall::Write(key, value))
    } else {
        None
    }
}

impl Named for MapCall<u64, u64> {
    ghost use Rattle.scc_script.specs.Grammar.{map_names};

    ghost names = { map_names };

    fn bare(name: &[u8]) -> Option<Self> {
        either_call(name, MapCall::Len, MapCall::Clear)
    }

    fn keyed(name: &[u8], key: u64) -> Option<Self> {
        map_call_at(name, key)
    }

    fn paired(name: &[u8], key: u64, value: u64) -> Option<Self> {
        map_call_of(name, key, value)
    }
}

impl Named for SetCall<u64> {
    ghost use Rattle.scc_script.specs.Grammar.{set_names};

    ghost names = { set_names };

    fn bare(name: &[u8]) -> Option<Self> {
        either_call(name, SetCall::Len, SetCall::Clear)
    }

    fn keyed(name: &[u8], key: u64) -> Option<Self> {
        set_call_at(name, key)
    }

    fn paired(_name: &[u8], _key: u64, _value: u64) -> Option<Self> {
        None
    }
}

impl Named for IndexCall<u64, u64> {
    ghost use Rattle.scc_script.specs.Grammar.{index_names};

    ghost names = { index_names };

    fn bare(name: &[u8]) -> Option<Self> {
        either_call(name, IndexCall::Len, IndexCall::Clear)
    }

    fn keyed(name: &[u8], key: u64) -> Option<Self> {
        index_call_at(name, key)
    }

    fn paired(name: &[u8], key: u64, value: u64) -> Option<Self> {
        index_call_of(name, key, value)
    }
}

impl Named for CacheCall<u64, u64> {
    ghost use Rattle.scc_script.specs.Grammar.{cache_names};

    ghost names = { cache_names };

    fn bare(name: &[u8]) -> Option<Self> {
        either_call(name, CacheCall::Len, CacheCall::Clear)
    }

    fn keyed(name: &[u8], key: u64) -> Option<Self> {
        cache_call_at(name, key)
    }

    fn paired(name: &[u8], key: u64, value: u64) -> Option<Self> {
        cache_call_of(name, key, value)
    }
}
