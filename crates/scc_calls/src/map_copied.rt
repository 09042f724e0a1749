//! The calls of the owned map that search once and copy their replies.
ghost use Rattle.scc_calls.specs.Copies.{ClonesEqual};
ghost use Rattle.scc_calls.specs.MapCopied.{MapCallsCopied};
ghost use Rattle.scc_calls.specs.declared.calls_as_values.MapCall.TheVariants.{Insert, Upsert, Replace, Read, Contains, Remove, Clear, Len};

use crate::replies::{clone_pair, clone_twice, equals, exists_copied};
use crate::{Copied, Refused, Reply};
use scc_common::{Hashes, InsertError};
use scc_owned::map::Owned;
use std::hash::{BuildHasher, Hash};

/// Makes the call `Insert(k, v)`, and returns its reply with two copies.
pub(crate) fn insert<K: Eq + Hash + Clone, V: Clone + PartialEq, H: BuildHasher>(
    map: &mut Owned<K, V, H>,
    k: K,
    v: V,
) -> Result<Copied<Reply<K, V>>, Refused>
    requires clones { ClonesEqual ⟦<Reply<K, V> as Clone>⟧.is_clone ⟦<Reply<K, V> as PartialEq>⟧.eq }
    ensures { MapCallsCopied K.eq ⟦<H as Hashes<K>>⟧.hash_of V.is_clone ⟦<Reply<K, V> as PartialEq>⟧.eq
        ⟦<Reply<K, V> as Clone>⟧.is_infallible map.old (Insert k v) result map.new }
{
    match map.insert_sync(k, v) {
        Ok(()) => Ok(Copied {
            reply: Reply::Inserted,
            noted: Reply::Inserted,
            kept: Reply::Inserted,
        }),
        Err(InsertError::Exists((k, v))) => match exists_copied(k, v) {
            Ok(copied) => Ok(copied),
            Err(Refused) => Err(Refused),
        },
        Err(InsertError::Memory(_)) => Err(Refused),
    }
}

/// Makes the call `Upsert(k, v)`, and returns its reply with two copies.
pub(crate) fn upsert<K: Eq + Hash + Clone, V: Clone + PartialEq, H: BuildHasher>(
    map: &mut Owned<K, V, H>,
    k: K,
    v: V,
) -> Result<Copied<Reply<K, V>>, Refused>
    requires clones { ClonesEqual ⟦<Reply<K, V> as Clone>⟧.is_clone ⟦<Reply<K, V> as PartialEq>⟧.eq }
    ensures { MapCallsCopied K.eq ⟦<H as Hashes<K>>⟧.hash_of V.is_clone ⟦<Reply<K, V> as PartialEq>⟧.eq
        ⟦<Reply<K, V> as Clone>⟧.is_infallible map.old (Upsert k v) result map.new }
{
    let hash = map.hash_of(&k);
    match map.place_of(hash, &k) {
        Some(place) => {
            let (noted, kept) = clone_twice(map.pair_at(place).1)?;
            let old = map.write_at(place, v);
            Ok(Copied {
                reply: Reply::Old(Some(old)),
                noted: Reply::Old(Some(noted)),
                kept: Reply::Old(Some(kept)),
            })
        }
        None => match map.insert_new(hash, k, v) {
            Ok(_) => Ok(Copied {
                reply: Reply::Old(None),
                noted: Reply::Old(None),
                kept: Reply::Old(None),
            }),
            Err(_) => Err(Refused),
        },
    }
}

/// Makes the call `Replace(k)`, and returns its reply with two copies.
pub(crate) fn replace<K: Eq + Hash + Clone, V: Clone + PartialEq, H: BuildHasher>(
    map: &mut Owned<K, V, H>,
    k: K,
) -> Result<Copied<Reply<K, V>>, Refused>
    requires clones { ClonesEqual ⟦<Reply<K, V> as Clone>⟧.is_clone ⟦<Reply<K, V> as PartialEq>⟧.eq }
    ensures { MapCallsCopied K.eq ⟦<H as Hashes<K>>⟧.hash_of V.is_clone ⟦<Reply<K, V> as PartialEq>⟧.eq
        ⟦<Reply<K, V> as Clone>⟧.is_infallible map.old (Replace k) result map.new }
{
    let hash = map.hash_of(&k);
    match map.place_of(hash, &k) {
        Some(place) => {
            let (noted, kept) = clone_twice(map.pair_at(place).0)?;
            let old = map.replace_key_at(place, k);
            Ok(Copied {
                reply: Reply::Key(Some(old)),
                noted: Reply::Key(Some(noted)),
                kept: Reply::Key(Some(kept)),
            })
        }
        None => Ok(Copied {
            reply: Reply::Key(None),
            noted: Reply::Key(None),
            kept: Reply::Key(None),
        }),
    }
}

/// Makes the call `Read(k)`, and returns its reply with two copies.
pub(crate) fn read<K: Eq + Hash + Clone, V: Clone + PartialEq, H: BuildHasher>(
    map: &mut Owned<K, V, H>,
    k: K,
) -> Result<Copied<Reply<K, V>>, Refused>
    requires clones { ClonesEqual ⟦<Reply<K, V> as Clone>⟧.is_clone ⟦<Reply<K, V> as PartialEq>⟧.eq }
    ensures { MapCallsCopied K.eq ⟦<H as Hashes<K>>⟧.hash_of V.is_clone ⟦<Reply<K, V> as PartialEq>⟧.eq
        ⟦<Reply<K, V> as Clone>⟧.is_infallible map.old (Read k) result map.new }
{
    equals::<Reply<K, V>>();
    let hash = map.hash_of(&k);
    match map.place_of(hash, &k) {
        Some(place) => {
            let value = map.pair_at(place).1;
            let (noted, kept) = clone_twice(value)?;
            let Ok(own) = value.clone() else {
                return Err(Refused);
            };
            Ok(Copied {
                reply: Reply::Value(Some(own)),
                noted: Reply::Value(Some(noted)),
                kept: Reply::Value(Some(kept)),
            })
        }
        None => Ok(Copied {
            reply: Reply::Value(None),
            noted: Reply::Value(None),
            kept: Reply::Value(None),
        }),
    }
}

/// Makes the call `Remove(k)`, and returns its reply with two copies.
pub(crate) fn remove<K: Eq + Hash + Clone, V: Clone + PartialEq, H: BuildHasher>(
    map: &mut Owned<K, V, H>,
    k: K,
) -> Result<Copied<Reply<K, V>>, Refused>
    requires clones { ClonesEqual ⟦<Reply<K, V> as Clone>⟧.is_clone ⟦<Reply<K, V> as PartialEq>⟧.eq }
    ensures { MapCallsCopied K.eq ⟦<H as Hashes<K>>⟧.hash_of V.is_clone ⟦<Reply<K, V> as PartialEq>⟧.eq
        ⟦<Reply<K, V> as Clone>⟧.is_infallible map.old (Remove k) result map.new }
{
    let hash = map.hash_of(&k);
    match map.place_of(hash, &k) {
        Some(place) => {
            let (key, value) = map.pair_at(place);
            let noted = clone_pair(key, value)?;
            let kept = clone_pair(key, value)?;
            let pair = map.remove_at(place);
            Ok(Copied {
                reply: Reply::Pair(Some(pair)),
                noted: Reply::Pair(Some(noted)),
                kept: Reply::Pair(Some(kept)),
            })
        }
        None => Ok(Copied {
            reply: Reply::Pair(None),
            noted: Reply::Pair(None),
            kept: Reply::Pair(None),
        }),
    }
}

/// Makes the call `Contains(k)`, and returns its reply with two copies.
pub(crate) fn contains<K: Eq + Hash + Clone, V: Clone + PartialEq, H: BuildHasher>(
    map: &mut Owned<K, V, H>,
    k: K,
) -> Result<Copied<Reply<K, V>>, Refused>
    requires clones { ClonesEqual ⟦<Reply<K, V> as Clone>⟧.is_clone ⟦<Reply<K, V> as PartialEq>⟧.eq }
    ensures { MapCallsCopied K.eq ⟦<H as Hashes<K>>⟧.hash_of V.is_clone ⟦<Reply<K, V> as PartialEq>⟧.eq
        ⟦<Reply<K, V> as Clone>⟧.is_infallible map.old (Contains k) result map.new }
{
    let found = map.contains_sync(&k);
    Ok(Copied {
        reply: Reply::Has(found),
        noted: Reply::Has(found),
        kept: Reply::Has(found),
    })
}

/// Makes the call `Clear`, and returns its reply with two copies.
pub(crate) fn clear<K: Eq + Hash + Clone, V: Clone + PartialEq, H: BuildHasher>(
    map: &mut Owned<K, V, H>,
) -> Result<Copied<Reply<K, V>>, Refused>
    ensures { MapCallsCopied K.eq ⟦<H as Hashes<K>>⟧.hash_of V.is_clone ⟦<Reply<K, V> as PartialEq>⟧.eq
        ⟦<Reply<K, V> as Clone>⟧.is_infallible map.old Clear result map.new }
{
    map.clear_sync();
    Ok(Copied {
        reply: Reply::Cleared,
        noted: Reply::Cleared,
        kept: Reply::Cleared,
    })
}

/// Makes the call `Len`, and returns its reply with two copies.
pub(crate) fn count<K: Eq + Hash + Clone, V: Clone + PartialEq, H: BuildHasher>(
    map: &mut Owned<K, V, H>,
) -> Result<Copied<Reply<K, V>>, Refused>
    ensures { MapCallsCopied K.eq ⟦<H as Hashes<K>>⟧.hash_of V.is_clone ⟦<Reply<K, V> as PartialEq>⟧.eq
        ⟦<Reply<K, V> as Clone>⟧.is_infallible map.old Len result map.new }
{
    let count = map.len();
    Ok(Copied {
        reply: Reply::Count(count),
        noted: Reply::Count(count),
        kept: Reply::Count(count),
    })
}
