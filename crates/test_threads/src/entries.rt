// An entry that is dropped releases its lock, in whatever state it is: the next call on its stripe gets through.
use crate::expect::{expect, expect_eq};
use scc_owned::held::{HeldEntry, HeldReplace};
use scc_script::same::Same;
use scc_shared::map::HashMap;
use std::process::Abort;
use std::sync::Wait;

type Map = HashMap<u64, u64, Same>;

/// Makes calls that take the lock of the only stripe, and that restore the pair of key 1.
fn comes_through(rt: &impl Wait, map: &Map) -> bool {
    let _old = map.remove_sync(rt, &2);
    map.upsert_sync(rt, 1, 10).is_ok() && map.len(rt) == 1
}

// An entry that is dropped. Key 1 is there, and the keys 2 and 7 are missing.
#[derive(Clone, Copy, Debug)]
enum Dropped {
    Got,
    Entered,
    Begun,
    Met,
    NotMet,
    NotGot,
    Vacant,
    Key,
    Inserted,
    Filled,
    Modified,
    Removed,
    Stepped,
    RemovedAndStepped,
    Replaced,
    NotReplaced,
}

const OCCUPIED: [Dropped; 5] = [
    Dropped::Got,
    Dropped::Entered,
    Dropped::Begun,
    Dropped::Met,
    Dropped::NotMet,
];

const VACANT: [Dropped; 5] = [
    Dropped::NotGot,
    Dropped::Vacant,
    Dropped::Key,
    Dropped::Inserted,
    Dropped::Filled,
];

const CHANGED: [Dropped; 4] = [
    Dropped::Modified,
    Dropped::Removed,
    Dropped::Stepped,
    Dropped::RemovedAndStepped,
];

const REPLACED: [Dropped; 2] = [Dropped::Replaced, Dropped::NotReplaced];

/// Drops an entry that was asked for, and calls nothing on it.
fn drops_asked(rt: &impl Wait, map: &Map, dropped: Dropped) {
    match dropped {
        Dropped::Got => drop(map.get_sync(rt, &1)),
        Dropped::Begun => drop(map.begin_sync(rt)),
        Dropped::Met => drop(map.any_sync(rt, |k, _| *k == 1)),
        Dropped::NotMet => drop(map.any_sync(rt, |k, _| *k == 7)),
        _ => drop(map.get_sync(rt, &2)),
    }
}

/// Drops what a call on an entry returns.
fn drops_entered(rt: &impl Wait, map: &Map, dropped: Dropped) {
    let key = match dropped {
        Dropped::Entered | Dropped::Modified => 1,
        _ => 2,
    };
    let entry = map.entry_sync(rt, key);
    match dropped {
        Dropped::Inserted => drop(entry.or_insert(5)),
        Dropped::Filled => drop(entry.insert_entry(5)),
        Dropped::Modified => drop(entry.and_modify(|v| *v = 3)),
        _ => drop(entry),
    }
}

/// Takes the key of a vacant entry.
fn takes_key(rt: &impl Wait, map: &Map) -> bool {
    match map.entry_sync(rt, 2) {
        HeldEntry::Vacant(entry) => entry.into_key() == 2,
        HeldEntry::Occupied(_entry) => false,
    }
}

/// Removes the pair through its entry, or steps past it, or both.
fn leaves(rt: &impl Wait, map: &Map, dropped: Dropped) -> bool {
    let Some(entry) = map.get_sync(rt, &1) else {
        return false;
    };
    match dropped {
        Dropped::Removed => entry.remove() == 10,
        Dropped::Stepped => entry.next_sync(rt).is_none(),
        _ => {
            let (pair, next) = entry.remove_and_sync(rt);
            pair == (1, 10) && next.is_none()
        }
    }
}

/// Replaces a key, and looks at the entry. Returns whether the key was there.
fn replaces(rt: &impl Wait, map: &Map, key: u64) -> Option<bool> {
    match map.replace_sync(rt, key) {
        HeldReplace::Replaced(entry, old) => {
            if old == key && *entry.get() == 10 {
                Some(true)
            } else {
                None
            }
        }
        HeldReplace::NotReplaced(entry) => {
            if *entry.key() == key {
                Some(false)
            } else {
                None
            }
        }
    }
}

/// Drops an entry. Returns whether the calls on it returned what they must.
fn is_dropped(rt: &impl Wait, map: &Map, dropped: Dropped) -> bool {
    match dropped {
        Dropped::Removed | Dropped::Stepped | Dropped::RemovedAndStepped => {
            leaves(rt, map, dropped)
        }
        Dropped::Key => takes_key(rt, map),
        Dropped::Replaced => replaces(rt, map, 1) == Some(true),
        Dropped::NotReplaced => replaces(rt, map, 2) == Some(false),
        Dropped::Entered
        | Dropped::Vacant
        | Dropped::Inserted
        | Dropped::Filled
        | Dropped::Modified => {
            drops_entered(rt, map, dropped);
            true
        }
        _ => {
            drops_asked(rt, map, dropped);
            true
        }
    }
}

/// Returns the number of the first row whose entry isn't dropped as it must or keeps its lock. A lock that is kept lets
/// the thread wait for itself, up to the limit of a test.
fn first_kept(rt: &impl Wait, map: &Map, rows: &[Dropped]) -> Option<usize> {
    for (number, dropped) in rows.iter().enumerate() {
        if !is_dropped(rt, map, *dropped) || !comes_through(rt, map) {
            return Some(number);
        }
    }
    None
}

/// Returns what each group of rows shows.
fn lets_go(rt: &impl Wait, map: &Map) -> [Option<usize>; 4] {
    [
        first_kept(rt, map, &OCCUPIED),
        first_kept(rt, map, &VACANT),
        first_kept(rt, map, &CHANGED),
        first_kept(rt, map, &REPLACED),
    ]
}

#[test]
fn shared_map_entries_let_their_lock_go(rt: HostRuntime) {
    match HashMap::with_capacity_and_hasher(rt.alloc(), 64, Same) {
        Ok(map) => {
            expect(&rt, comes_through(&rt, &map));
            expect_eq(&rt, lets_go(&rt, &map), [None; 4]);
        }
        Err(_) => expect(&rt, false),
    }
}
