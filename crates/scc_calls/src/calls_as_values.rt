//! The calls of each kind of container as values.

use std::fmt::Debug;

/// A call of a map. Each variant names the call of the owned map that it makes.
#[derive(Clone, Copy, Debug, PartialEq)]
pub enum MapCall<K, V> {
    /// `insert_sync`. The reply is [`Reply::Inserted`], or [`Reply::Exists`] with the supplied pair.
    Insert(K, V),
    /// `upsert_sync`. The reply is [`Reply::Old`] with the old value, or with `None` if the key was missing.
    Upsert(K, V),
    /// `replace_sync`; the entry is dropped. The reply is [`Reply::Key`] with the old key, or with `None` if the key
    /// was missing.
    Replace(K),
    /// `read_sync`, which clones the value. The reply is [`Reply::Value`].
    Read(K),
    /// `contains_sync`. The reply is [`Reply::Has`].
    Contains(K),
    /// `remove_sync`. The reply is [`Reply::Pair`].
    Remove(K),
    /// `clear_sync`. The reply is [`Reply::Cleared`].
    Clear,
    /// `len`. The reply is [`Reply::Count`].
    Len,
}

/// A call of an index. Each variant names the call of the owned index that it makes.
#[derive(Clone, Copy, Debug, PartialEq)]
pub enum IndexCall<K, V> {
    /// `insert_sync`. The reply is [`Reply::Inserted`], or [`Reply::Exists`] with the supplied pair.
    Insert(K, V),
    /// `get_sync`, and `update` of the entry. The reply is [`Reply::Has`], with false if the key is missing.
    Update(K, V),
    /// `remove_sync`. The reply is [`Reply::Has`].
    Remove(K),
    /// `read_sync`, which clones the value. The reply is [`Reply::Value`].
    Read(K),
    /// `contains`. The reply is [`Reply::Has`].
    Contains(K),
    /// `clear_sync`. The reply is [`Reply::Cleared`].
    Clear,
    /// `len`. The reply is [`Reply::Count`].
    Len,
}

/// A call of a set. Each variant names the call of the owned set that it makes.
#[derive(Clone, Copy, Debug, PartialEq)]
pub enum SetCall<K> {
    /// `insert_sync`. The reply is [`Reply::Inserted`], or [`Reply::Exists`] with the supplied key.
    Insert(K),
    /// `replace_sync`. The reply is [`Reply::Key`] with the old key, or with `None` if the key was missing; then the
    /// key is inserted.
    Replace(K),
    /// `remove_sync`. The reply is [`Reply::Key`].
    Remove(K),
    /// `read_sync`, which clones the stored key. The reply is [`Reply::Key`].
    Read(K),
    /// `contains_sync`. The reply is [`Reply::Has`].
    Contains(K),
    /// `clear_sync`. The reply is [`Reply::Cleared`].
    Clear,
    /// `len`. The reply is [`Reply::Count`].
    Len,
}

/// A call of a cache. Each variant names the call of the owned cache that it makes.
#[derive(Clone, Copy, Debug, PartialEq)]
pub enum CacheCall<K, V> {
    /// `put_sync`. The reply is [`Reply::Evicted`] with the pair that was evicted, if one was, or [`Reply::Exists`]
    /// with the supplied pair.
    Put(K, V),
    /// `get_sync`, which clones the value and refreshes the pair; the entry is dropped. The reply is [`Reply::Value`].
    Get(K),
    /// `put` at the entry of `entry_sync` if the entry is occupied; a vacant entry inserts nothing. The reply is
    /// [`Reply::Old`] with the old value, or with `None` if the key was missing.
    Write(K, V),
    /// `replace_sync`; the entry is dropped. The reply is [`Reply::Key`] with the old key, or with `None` if the key
    /// was missing.
    Replace(K),
    /// `remove_sync`. The reply is [`Reply::Pair`].
    Remove(K),
    /// `read_sync`, which clones the value. The reply is [`Reply::Value`].
    Read(K),
    /// `contains_sync`. The reply is [`Reply::Has`].
    Contains(K),
    /// `clear_sync`. The reply is [`Reply::Cleared`].
    Clear,
    /// `len`. The reply is [`Reply::Count`].
    Len,
}
