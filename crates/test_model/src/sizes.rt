//! Containers with more than a million slots, a cache that fills its maximum, and a snapshot of many versions.

use std::alloc::{AllocError, Global};
use test_forms::answers::{Answer, Kind};
use test_forms::form::{Form, Way};
use test_forms::numbered::Seen;
use test_forms::token::Token;
use test_kit::lines::say;
use test_kit::masked::{Masked, SAME};

/// So many keys make an array grow past 2^20 slots, although half of its buckets are never used.
const MANY: u64 = (1 << 19) + 1;

/// The maximum of a cache.
const MAXIMUM: u64 = 1 << 17;

/// The number of versions in a snapshot.
const VERSIONS: usize = 100_000;

/// Returns the key of `number`. If keys are their own hashes, these keys fill the first half of all buckets evenly.
fn key_of(number: u64) -> Token {
    Token::of(number.reverse_bits() / 2)
}

/// Returns the value of `number`.
fn value_of(number: u64) -> u64 {
    number.wrapping_mul(3)
}

/// Returns the pair of `number`, as its kind shows it.
fn pair_of(kind: Kind, number: u64) -> Seen {
    let value = if kind.shows_values() {
        value_of(number)
    } else {
        0
    };
    (key_of(number).number(), 0, value)
}

/// Adds the pairs of the numbers from `from` on and before `to`. Returns whether each was added.
fn fills<F: Form>(form: &mut F, from: u64, to: u64) -> bool {
    let mut added = true;
    for number in from..to {
        added &= form.add(Way::Insert, key_of(number), Token::of(value_of(number)))
            == Answer::Added(None);
    }
    added
}

/// Returns whether the pairs of the numbers from `from` on and before `to` are there, and that of `to` is missing.
fn finds<F: Form>(form: &F, kind: Kind, from: u64, to: u64) -> bool {
    let mut found = form.read(&key_of(to)) == Answer::Found(None);
    for number in from..to {
        found &= form.read(&key_of(number)) == Answer::Found(Some(pair_of(kind, number)));
    }
    found
}

/// Removes the pairs of the numbers from `from` on and before `to`. Returns whether each was removed.
fn goes<F: Form>(form: &mut F, kind: Kind, from: u64, to: u64) -> bool {
    let mut gone = true;
    for number in from..to {
        let wanted = if kind == Kind::Index {
            Answer::Yes(true)
        } else {
            Answer::Found(Some(pair_of(kind, number)))
        };
        gone &= form.remove(&key_of(number)) == wanted;
    }
    gone
}

/// Returns whether an empty container grows past 2^20 slots by insertions, and shrinks to the least array when all but
/// 16 pairs are removed.
fn grows<F: Form>(form: &mut F, kind: Kind) -> bool {
    fills(form, 0, MANY - 1)
        && form.sizes().used() == (1 << 19, 1 << 20)
        && fills(form, MANY - 1, MANY)
        && form.sizes().used() == (1 + (1 << 19), 1 << 21)
        && finds(form, kind, 0, MANY)
        && goes(form, kind, 16, MANY)
        && form.sizes().used() == (16, 64)
        && finds(form, kind, 0, 16)
}

/// Returns whether a container of 1000 pairs gets more than 2^20 slots by a reservation, finds its pairs while all its
/// buckets wait, and shrinks back when the reservation is released.
fn reserves<F: Form>(form: &mut F, kind: Kind) -> bool {
    let filled = fills(form, 0, 1000) && form.sizes().used() == (1000, 2048);
    let Some(token) = form.reserve_slots(1 + (1 << 20)) else {
        return false;
    };
    let has_grown = form.sizes().used() == (1000, 1 << 21) && form.waiting() == Some(1 << 16);
    let found = finds(form, kind, 0, 1000);
    let relocated = fills(form, 1000, 1001) && form.waiting() == Some((1 << 16) - 2);
    let released = form.release_slots(token).is_ok() && form.sizes().used() == (1001, 2048);
    filled && has_grown && found && relocated && released && finds(form, kind, 0, 1001)
}

fn of_maps(alloc: Global) -> Result<bool, AllocError> {
    let mut large: scc_owned::map::Owned<Token, Token, Masked> = scc_owned::map::Owned::with_hasher(
        alloc, SAME,
    );
    let mut small: scc_owned::map::Owned<Token, Token, Masked> = scc_owned::map::Owned::with_hasher(
        alloc, SAME,
    );
    Ok(grows(&mut large, Kind::Map) && reserves(&mut small, Kind::Map))
}

fn of_sets(alloc: Global) -> Result<bool, AllocError> {
    let mut large: scc_owned_set::Owned<Token, Masked> = scc_owned_set::Owned::with_hasher(
        alloc, SAME,
    );
    let mut small: scc_owned_set::Owned<Token, Masked> = scc_owned_set::Owned::with_hasher(
        alloc, SAME,
    );
    Ok(grows(&mut large, Kind::Set) && reserves(&mut small, Kind::Set))
}

fn of_indexes(alloc: Global) -> Result<bool, AllocError> {
    let mut large: scc_owned::index::Owned<Token, Token, Masked> =
        scc_owned::index::Owned::with_hasher(alloc, SAME);
    let mut small: scc_owned::index::Owned<Token, Token, Masked> =
        scc_owned::index::Owned::with_hasher(alloc, SAME);
    Ok(grows(&mut large, Kind::Index) && reserves(&mut small, Kind::Index))
}

/// Returns whether each put of these numbers evicts the pair that was put `MAXIMUM` puts before it, the least recent
/// pair of its bucket.
fn evicts<F: Form>(form: &mut F, from: u64, to: u64) -> bool {
    let mut evicted = true;
    for number in from..to {
        let key = Token::of(number.reverse_bits());
        let least = number.wrapping_sub(MAXIMUM);
        let gone = (least.reverse_bits(), 0, value_of(least));
        evicted &= form.add(Way::Insert, key, Token::of(value_of(number)))
            == Answer::Added(Some(gone));
    }
    evicted
}

/// Shows that a cache takes as many pairs as its maximum without an eviction, and then evicts one pair for each put.
fn of_caches(alloc: Global) -> Result<bool, AllocError> {
    let maximum = MAXIMUM as usize;
    let Ok(mut cache) = scc_owned_cache::Owned::<Token, Token, Masked>::with_capacity_and_hasher(
        alloc, 0, maximum, SAME,
    ) else {
        return Err(AllocError);
    };
    let mut added = true;
    for number in 0..MAXIMUM {
        let key = Token::of(number.reverse_bits());
        let answer = cache.add(Way::Insert, key, Token::of(value_of(number)));
        added &= answer == Answer::Added(None);
    }
    let full = cache.sizes().used() == (maximum, maximum);
    let evicted = evicts(&mut cache, MAXIMUM, MAXIMUM + MAXIMUM / 2);
    Ok(added && full && evicted && cache.sizes().used() == (maximum, maximum))
}

/// Returns whether the snapshot has each version once, and ends for good after them.
fn has_each_once(
    alloc: Global,
    versions: scc_owned::index::Iter<Token, Token>,
) -> Result<bool, AllocError> {
    let mut met = vec![in alloc; false; VERSIONS]?;
    let mut count = 0usize;
    let mut right = true;
    let mut versions = versions;
    for _ in 0..VERSIONS {
        let Some(version) = versions.next() else {
            break;
        };
        let number = version.key().number().wrapping_mul(2).reverse_bits();
        let place = number as usize;
        if let Some(is_met) = met.get_mut(place) {
            right &= !*is_met && version.value().number() == value_of(number);
            *is_met = true;
            count = count.saturating_add(1);
        }
    }
    Ok(right && count == VERSIONS && versions.next().is_none() && versions.next().is_none())
}

/// Shows that a snapshot of many versions outlives the pairs of its index.
fn of_snapshots(alloc: Global) -> Result<bool, AllocError> {
    let mut index: scc_owned::index::Owned<Token, Token, Masked> =
        scc_owned::index::Owned::with_hasher(alloc, SAME);
    let filled = fills(&mut index, 0, VERSIONS as u64);
    let Ok(versions) = index.iter() else {
        return Err(AllocError);
    };
    index.clear_sync();
    let emptied = index.is_empty() && fills(&mut index, 0, 1);
    Ok(filled && emptied && has_each_once(alloc, versions)?)
}

/// Prints a line for each kind, and one for a snapshot. Returns the worst status.
pub(crate) fn run_sizes<R: AllocGlobal + Print>(rt: &R) -> u8 {
    let alloc = rt.alloc();
    let what = "more than 2^20 slots";
    let mut worst = say(rt, "owned map", what, of_maps(alloc));
    worst = worst.max(say(rt, "owned set", what, of_sets(alloc)));
    worst = worst.max(say(rt, "owned index", what, of_indexes(alloc)));
    let full = "a maximum of 2^17 filled";
    worst = worst.max(say(rt, "owned cache", full, of_caches(alloc)));
    let kept = "a snapshot of 100000 versions";
    worst.max(say(rt, "owned index", kept, of_snapshots(alloc)))
}
