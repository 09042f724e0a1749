// Streams of calls in which each call of a kind is made with keys that are present and with missing keys, while the
// container grows, is cleared and grows again.
use scc_calls::Calls;
use scc_play::printed::Printed;
use std::alloc::{AllocError, Global};

/// The greatest number of slots of a cache. Its array then has 4 buckets, and the keys lie in two of them.
pub const MAXIMUM: usize = 128;

/// The number of calls of a stream.
const CALLS: u64 = 200;

/// The calls before this place insert new keys.
const FIRST: u64 = 80;

/// The place of the first of two calls that clear. The second clears an empty container. A call that counts follows.
const CLEARING: u64 = 140;

/// The calls after the clearing and before this place insert new keys again.
const AGAIN: u64 = 175;

/// Half of `FIRST`.
const HALF: u64 = 40;

/// The number of keys of the stream.
const KEYS: u64 = 120;

/// The factor by which a call's place is multiplied for its key.
const SPREAD: u64 = 0x9e37_79b9_7f4a_7c15;

/// The number of calls of the kind that has most, including the calls without a key.
const MOST: usize = 9;

/// A kind of container, by the calls that it has.
pub trait Streamed: Printed + Drop {
    /// The number of calls with a key. They are numbered from 0. The call that counts and the call that clears follow.
    const KEYED: u64;

    /// The number of a call that reads a key.
    const LOOK: u64;

    /// Returns the call with this number. Call 0 inserts a key.
    fn call_of(number: u64, key: u64, value: u64) -> Self::Call;

    /// Returns the number of `call`.
    fn number_of(call: &Self::Call) -> usize;

    /// Returns whether `key` is present, or without a key, whether any key is present.
    fn has(&self, key: Option<&Self::Key>) -> bool;

    /// Returns whether `reply` tells of an evicted pair.
    fn is_eviction(reply: &Self::Reply) -> bool;
}

/// Returns the key of this number. Even keys lie in the first quarter of all hashes, and odd keys in the second.
fn key_of(number: u64) -> u64 {
    (number % 2) << 62 | number
}

/// Returns the number of the call at place `j`.
fn number_at<C: Streamed>(j: u64) -> u64 {
    if j < FIRST {
        0
    } else if j == CLEARING || j == CLEARING + 1 {
        C::KEYED.wrapping_add(1)
    } else if j == CLEARING + 2 {
        C::KEYED
    } else if CLEARING < j && j < AGAIN {
        0
    } else {
        j % C::KEYED.saturating_add(1)
    }
}

/// Returns the number of the key at place `j`: a new key for a call that inserts keys, or else, in turns, a key that is
/// mostly present and one that is mostly missing.
fn drawn_at<C: Streamed>(j: u64) -> u64 {
    if j < FIRST || CLEARING < j && j < AGAIN {
        return j % FIRST;
    }
    let drawn = (j.wrapping_mul(SPREAD) >> 32) % HALF;
    let turn = j / C::KEYED.saturating_add(1);
    if turn % 2 == 0 {
        HALF.wrapping_add(drawn)
    } else {
        FIRST.wrapping_add(drawn)
    }
}

/// Returns the calls of a stream.
pub(crate) fn stream<C: Streamed>(alloc: Global) -> Result<Vec<C::Call>, AllocError> {
    let mut calls = Vec::new(alloc);
    for j in 0..CALLS {
        let key = key_of(drawn_at::<C>(j));
        calls.push(C::call_of(number_at::<C>(j), key, j))?;
    }
    Ok(calls)
}

/// The number of calls that show what a container has.
pub const LOOKS: u64 = 400;

/// Returns one of the calls that show which keys a container has and in which order it evicts them: reads of all keys,
/// insertions of new keys, and reads again.
pub(crate) fn look<C: Streamed>(number: u64) -> C::Call {
    if number < KEYS {
        C::call_of(C::LOOK, key_of(number), 0)
    } else if number < KEYS + FIRST {
        C::call_of(0, key_of(number), number)
    } else {
        C::call_of(C::LOOK, key_of(number.wrapping_sub(KEYS + FIRST)), 0)
    }
}

/// What was seen in a stream.
#[derive(Drop)]
pub struct Came {
    // How often each call was made with a missing key and with a present one, or, if it has no key, on an empty
    // container and on one with keys.
    times: [[u64; 2]; MOST],
    /// The numbers of buckets, one for each change.
    pub sizes: Vec<usize>,
    /// The number of evicted pairs.
    pub evictions: u64,
}

impl Came {
    /// Returns whether each of the first `calls` calls was made with both.
    pub(crate) fn has_all(&self, calls: u64) -> bool {
        let mut all = true;
        for times in self.times.iter().take(calls as usize) {
            all = all && times[0] > 0 && times[1] > 0;
        }
        all
    }

    /// Returns whether an array grew to twice its buckets.
    pub(crate) fn has_grown(&self) -> bool {
        let mut last = 0usize;
        let mut grown = false;
        for size in self.sizes.iter() {
            grown = grown || 0 < last && *size == last.saturating_mul(2);
            last = *size;
        }
        grown
    }

    /// Counts a call, by whether its key is present.
    fn note(&mut self, number: usize, there: bool) {
        if let Some(times) = self.times.get_mut(number) {
            let place = usize::from(there);
            times[place] = times[place].saturating_add(1);
        }
    }
}

/// Makes one call, and returns whether it evicted a pair, or `None` if it was refused.
fn make<C: Streamed>(container: &mut C, call: &C::Call) -> Option<bool> {
    match container.call(C::same_call(call)) {
        Ok(reply) => Some(C::is_eviction(&reply)),
        Err(_) => None,
    }
}

/// Makes one call, and notes what is seen.
fn step<C: Streamed>(container: &mut C, call: &C::Call, came: &mut Came) -> Result<(), AllocError> {
    came.note(C::number_of(call), container.has(C::key(call)));
    let before = container.buckets();
    match make(container, call) {
        Some(evicted) => came.evictions = came.evictions.saturating_add(u64::from(evicted)),
        None => return Err(AllocError),
    }
    let after = container.buckets();
    if after != before {
        came.sizes.push(after)?;
    }
    Ok(())
}

/// Makes the calls one after another, and returns what was seen.
fn count_on<C: Streamed>(
    alloc: Global,
    container: &mut C,
    calls: &[C::Call],
) -> Result<Came, AllocError> {
    let mut came = Came {
        times: [[0; 2]; MOST],
        sizes: Vec::new(alloc),
        evictions: 0,
    };
    for call in calls {
        step(container, call, &mut came)?;
    }
    Ok(came)
}

/// Makes the calls one after another on a container of its own, and returns what was seen.
pub(crate) fn count<C: Streamed>(
    alloc: Global,
    hasher: C::Hasher,
    calls: &[C::Call],
) -> Result<Came, AllocError>
where
    C::Hasher: Drop,
{
    match C::make(alloc, 0, 0, MAXIMUM, hasher) {
        Ok(made) => {
            let mut container: C = made;
            count_on(alloc, &mut container, calls)
        }
        Err(_) => Err(AllocError),
    }
}
