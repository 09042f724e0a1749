// A thread that waits long for a stripe sleeps. It may look at the lock often before, which takes microseconds.
use crate::expect::{expect, expect_eq};
use crate::kinds::{Cache, Index, Map, Passing, Set, Threaded, Visit};
use std::alloc::Global;
use std::fs;
use std::rt::{Clock, Files};
use std::sync::Wait;
use std::sync::atomic::AtomicU64;
use std::thread::{Threads, join, sleep};
use std::time::{Duration, Instant};
use test_kit::flags::{Flags, raise, sees};

/// How many milliseconds a stripe is held once another thread is about to wait for it.
const HELD: u64 = 200;

/// The processor time in nanoseconds that a working thread must get, which shows that the system tells it.
const SEEN: u64 = 5_000_000;

/// How often a thread asks for its processor time until it has had `SEEN`.
const ASKED: u32 = 1_000_000;

/// The only key.
const KEY: u64 = 1;

/// How a thread accesses a key.
#[derive(Clone, Copy)]
enum Hold {
    Entry,
    Read,
}

/// Returns the processor time in nanoseconds that this thread has had, or `None` if the system doesn't tell.
fn processor_time<R: Files + Alloc>(rt: &R) -> Option<u64> {
    let text = fs::read_to_string(rt, "/proc/thread-self/schedstat").ok()?;
    text.as_str().split(' ').next()?.parse::<u64>().ok()
}

/// Returns whether the processor time of a thread that works rises.
fn rises<R: Files + Alloc>(rt: &R) -> bool {
    let Some(start) = processor_time(rt) else {
        return false;
    };
    for _ in 0..ASKED {
        if processor_time(rt).unwrap_or(0).saturating_sub(start) >= SEEN {
            return true;
        }
    }
    false
}

/// Returns whether the system tells processor times. If it doesn't, the tests below check only that nobody gets in.
fn is_told<R: Files + Alloc>(rt: &R) -> bool {
    processor_time(rt).unwrap_or(0) > 0
}

#[test]
fn processor_time_rises_if_it_is_told(rt: HostRuntime) {
    expect(&rt, !is_told(&rt) || rises(&rt));
}

// Tells that it is there, and stays for `HELD` milliseconds once another thread is about to wait.
#[derive(Drop)]
struct Staying<'a, R> {
    rt: &'a R,
    mine: &'a AtomicU64,
    other: &'a AtomicU64,
    met: bool,
}

impl<R: Clock> Visit for Staying<'_, R> {
    fn meet(&mut self, _key: u64) {
        raise(self.mine);
        self.met = sees(self.other);
        sleep(self.rt, Duration::from_millis(HELD));
    }
}

fn stays<C: Threaded, R: Wait + Clock>(
    rt: &R,
    container: &C,
    hold: Hold,
    mine: &AtomicU64,
    other: &AtomicU64,
) -> bool {
    let mut staying = Staying {
        rt,
        mine,
        other,
        met: false,
    };
    let there = match hold {
        Hold::Entry => container.at_entry(rt, KEY, &mut staying),
        Hold::Read => container.at_read(rt, KEY, &mut staying),
    };
    there && staying.met
}

fn passes<C: Threaded, R: Wait>(rt: &R, container: &C, hold: Hold) -> bool {
    match hold {
        Hold::Entry => container.at_entry(rt, KEY, &mut Passing),
        Hold::Read => container.at_read(rt, KEY, &mut Passing),
    }
}

/// Waits for the stripe once it is held. Returns whether the wait took as long as the stripe was held, and less than a
/// tenth of it in this thread's processor time, or `None` if the system tells no time.
fn sleeps<C: Threaded, R: Wait + Clock + Files + Alloc>(
    rt: &R,
    container: &C,
    hold: Hold,
    other: &AtomicU64,
    mine: &AtomicU64,
) -> Option<bool> {
    let held = sees(other);
    let start = Instant::now(rt).ok()?;
    let before = processor_time(rt)?;
    raise(mine);
    let there = passes(rt, container, hold);
    let worked = processor_time(rt)?.saturating_sub(before);
    let waited = start.elapsed(rt).ok()?;
    let worked = Duration::from_nanos(worked.saturating_mul(10));
    Some(held && there && waited >= Duration::from_millis(HELD) && worked < waited)
}

fn sleeps_beside<C: Threaded + Sync, R: Threads + Wait + Clock + Files + Alloc + Sync>(
    rt: &R,
    container: &C,
    held: Hold,
    wanted: Hold,
) -> bool {
    let flags = Flags::new();
    let (stayed, slept) = join(
        rt,
        || stays(rt, container, held, &flags.first, &flags.second),
        || sleeps(rt, container, wanted, &flags.first, &flags.second),
    );
    stayed && slept != Some(false)
}

fn sleeps_in<C: Threaded + Sync + Drop, R: Threads + Wait + Clock + Files + Alloc + Sync>(
    rt: &R,
    alloc: Global,
    held: Hold,
    wanted: Hold,
) -> bool {
    match C::make(alloc, 64) {
        Some(container) => { container.add(rt, KEY) && sleeps_beside(rt, &container, held, wanted) }
        None => false,
    }
}

fn sleep_in_all<R: Threads + Wait + Clock + Files + Alloc + Sync>(
    rt: &R,
    alloc: Global,
    held: Hold,
    wanted: Hold,
) -> [bool; 4] {
    [
        sleeps_in::<Map, _>(rt, alloc, held, wanted),
        sleeps_in::<Set, _>(rt, alloc, held, wanted),
        sleeps_in::<Index, _>(rt, alloc, held, wanted),
        sleeps_in::<Cache, _>(rt, alloc, held, wanted),
    ]
}

#[test]
fn writer_sleeps_while_an_entry_is_held(rt: HostRuntime) {
    let right = sleep_in_all(&rt, rt.alloc(), Hold::Entry, Hold::Entry);
    expect_eq(&rt, right, [true; 4]);
}

#[test]
fn reader_sleeps_while_an_entry_is_held(rt: HostRuntime) {
    let right = sleep_in_all(&rt, rt.alloc(), Hold::Entry, Hold::Read);
    expect_eq(&rt, right, [true; 4]);
}

#[test]
fn writer_sleeps_while_a_reader_stays(rt: HostRuntime) {
    let right = sleep_in_all(&rt, rt.alloc(), Hold::Read, Hold::Entry);
    expect_eq(&rt, right, [true; 4]);
}
