// Which locks a call holds: a stripe's alone, readers share it, and a walk releases a stripe's lock before it takes
// the next. So one lock round the whole container fails these tests, and so does one lock for each stripe that readers
// don't share.
use crate::expect::expect_eq;
use crate::kinds::{
    Cache, HALF, Index, Look, Map, RuledCache, RuledIndex, RuledMap, RuledSet, Set, Threaded,
    Visit, Way,
};
use crate::trials::{Trial, holds_in, holds_in_each};
use std::alloc::Global;
use std::process::Abort;
use std::sync::Wait;
use std::sync::atomic::AtomicU64;
use std::thread::{Threads, join, map_indices};
use test_kit::flags::{Flags, raise, sees};

/// The ways over all keys. A cache has the first three.
const WAYS: [Way; 6] = [
    Way::Walk,
    Way::Keep,
    Way::Take,
    Way::Ask,
    Way::Next,
    Way::Remove,
];

// Raises its flag at one key, and waits until another thread has raised its own.
#[derive(Drop)]
struct Meeting<'a> {
    key: u64,
    mine: &'a AtomicU64,
    other: &'a AtomicU64,
    met: bool,
}

impl Visit for Meeting<'_> {
    fn meet(&mut self, key: u64) {
        if key == self.key {
            raise(self.mine);
            self.met = sees(self.other);
        }
    }
}

fn make_meeting<'a>(key: u64, mine: &'a AtomicU64, other: &'a AtomicU64) -> Meeting<'a> {
    Meeting {
        key,
        mine,
        other,
        met: false,
    }
}

/// Adds a key to each of two stripes. Returns whether both were added.
fn adds_both<C: Threaded, R: Wait>(rt: &R, container: &C) -> bool {
    container.add(rt, 1) && container.add(rt, HALF)
}

/// Holds an entry until another thread has told that it is done.
fn holds<C: Threaded, R: Wait>(
    rt: &R,
    container: &C,
    key: u64,
    mine: &AtomicU64,
    other: &AtomicU64,
) -> bool {
    let mut meeting = make_meeting(key, mine, other);
    container.at_entry(rt, key, &mut meeting) && meeting.met
}

/// Reads a key until another thread reads it too.
fn reads<C: Threaded, R: Wait>(rt: &R, container: &C, mine: &AtomicU64, other: &AtomicU64) -> bool {
    let mut meeting = make_meeting(1, mine, other);
    container.at_read(rt, 1, &mut meeting) && meeting.met
}

/// Adds a key once another thread has told that it holds a lock, and tells that it is done.
fn adds_beside<C: Threaded, R: Wait>(
    rt: &R,
    container: &C,
    key: u64,
    other: &AtomicU64,
    mine: &AtomicU64,
) -> bool {
    let held = sees(other);
    let added = container.add(rt, key);
    raise(mine);
    held && added
}

/// Returns whether a key goes into the second stripe while an entry of the first stripe is held.
pub(crate) fn leaves_other<C: Threaded + Sync, R: Threads + Wait + Sync>(
    rt: &R,
    container: &C,
) -> bool {
    let flags = Flags::new();
    let added_both = adds_both(rt, container);
    let (held, added) = join(
        rt,
        || holds(rt, container, 1, &flags.first, &flags.second),
        || { adds_beside(rt, container, HALF + 1, &flags.first, &flags.second) },
    );
    added_both && held && added && container.count(rt) == 3
}

#[test]
fn held_entry_other_stripe(rt: HostRuntime) {
    let right = holds_in_each(&rt, rt.alloc(), Trial::OtherStripe);
    expect_eq(&rt, right, [true; 8]);
}

/// Returns whether two threads can read one key at once.
pub(crate) fn share<C: Threaded + Sync, R: Threads + Wait + Sync>(rt: &R, container: &C) -> bool {
    let flags = Flags::new();
    let added_both = adds_both(rt, container);
    let (one, other) = join(
        rt,
        || reads(rt, container, &flags.first, &flags.second),
        || reads(rt, container, &flags.second, &flags.first),
    );
    added_both && one && other
}

#[test]
fn two_readers_one_stripe(rt: HostRuntime) {
    let right = holds_in_each(&rt, rt.alloc(), Trial::Readers);
    expect_eq(&rt, right, [true; 8]);
}

/// The ways of reading.
const LOOKS: [Look; 11] = [
    Look::Read,
    Look::Contains,
    Look::Walk,
    Look::Count,
    Look::Empty,
    Look::Compare,
    Look::Bucket,
    Look::Room,
    Look::Peek,
    Look::PeekWith,
    Look::Snapshot,
];

/// Reads by `look` once another thread has told that it reads a key, and tells that it is done.
fn looks<C: Threaded, R: Wait>(
    rt: &R,
    alloc: Global,
    container: &C,
    look: Look,
    flags: &Flags,
) -> bool {
    let read = sees(&flags.first);
    let right = container.look(rt, alloc, look);
    raise(&flags.second);
    read && right
}

/// Returns whether a thread can read by `look` while another thread reads a key of the same stripe.
pub(crate) fn looks_beside<C: Threaded + Sync, R: Threads + Wait + Sync>(
    rt: &R,
    alloc: Global,
    container: &C,
    look: Look,
) -> bool {
    let flags = Flags::new();
    let added_both = adds_both(rt, container);
    let (one, other) = join(
        rt,
        || reads(rt, container, &flags.first, &flags.second),
        || looks(rt, alloc, container, look, &flags),
    );
    added_both && one && other
}

#[test]
fn readers_of_every_way_share_a_stripe(rt: HostRuntime) {
    let mut found = [[false; 8]; 11];
    for (look, found) in LOOKS.iter().zip(found.iter_mut()) {
        *found = holds_in_each(&rt, rt.alloc(), Trial::Beside(*look));
    }
    expect_eq(&rt, found, [[true; 8]; 11]);
}

/// Goes over all keys once the second stripe is held, and tells when it is in the first stripe.
fn goes_over<C: Threaded, R: Wait>(
    rt: &R,
    alloc: Global,
    container: &C,
    way: Way,
    flags: &Flags,
) -> bool {
    let mut meeting = make_meeting(1, &flags.first, &flags.second);
    sees(&flags.second) && container.go_over(rt, alloc, way, &mut meeting) && meeting.met
}

/// Plays the part of one of three threads. The first thread goes over all keys. The second thread holds the second
/// stripe until the third thread has added a key to the first stripe, in which the first thread is when the third sets
/// out.
fn part<C: Threaded, R: Wait>(
    rt: &R,
    alloc: Global,
    container: &C,
    way: Way,
    flags: &Flags,
    thread: usize,
) -> bool {
    match thread {
        0 => goes_over(rt, alloc, container, way, flags),
        1 => holds(rt, container, HALF, &flags.second, &flags.third),
        _ => adds_beside(rt, container, 2, &flags.first, &flags.third),
    }
}

/// Returns whether this way over all keys releases the first stripe before it takes the second. A way that didn't would
/// keep the third thread out for as long as the second thread looks for it.
pub(crate) fn lets_go<C: Threaded + Sync, R: Threads + Wait + Sync>(
    rt: &R,
    alloc: Global,
    container: &C,
    way: Way,
) -> bool {
    if !adds_both(rt, container) {
        return false;
    }
    let flags = Flags::new();
    match map_indices(
        rt,
        alloc,
        3,
        &|thread| part(rt, alloc, container, way, &flags, thread),
    ) {
        Ok(told) => told.as_slice() == [true; 3].as_slice(),
        Err(_) => false,
    }
}

/// Returns whether each of the first `ways` ways releases the first stripe first. Stops at the first way that doesn't.
fn let_go_first<C: Threaded + Sync + Drop, R: Threads + Wait + Sync>(
    rt: &R,
    alloc: Global,
    ways: usize,
) -> bool {
    for way in WAYS.iter().take(ways) {
        if !holds_in::<C, R>(rt, alloc, Trial::LetsGo(*way)) {
            return false;
        }
    }
    true
}

#[test]
fn every_way_lets_its_stripe_go_first(rt: HostRuntime) {
    let right = [
        let_go_first::<Map, _>(&rt, rt.alloc(), 6),
        let_go_first::<Set, _>(&rt, rt.alloc(), 6),
        let_go_first::<Index, _>(&rt, rt.alloc(), 6),
        let_go_first::<Cache, _>(&rt, rt.alloc(), 3),
        let_go_first::<RuledMap, _>(&rt, rt.alloc(), 6),
        let_go_first::<RuledSet, _>(&rt, rt.alloc(), 6),
        let_go_first::<RuledIndex, _>(&rt, rt.alloc(), 6),
        let_go_first::<RuledCache, _>(&rt, rt.alloc(), 3),
    ];
    expect_eq(&rt, right, [true; 8]);
}
