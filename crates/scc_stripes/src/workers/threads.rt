//! One thread for each worker.
ghost use Rattle.std.specs.Prelude.{◌≡◌, ◌↔◌, ◌⊎◌, IsTrue, Ok, Err, true, false};

use super::{Gate, RunError, Work};
use std::alloc::Global;
use std::slice::IterMut;
use std::sync::Wait;
use std::thread::{self, Builder, JoinHandle, Scope, Threads};

/// How one worker ended.
#[derive(Clone, Copy)]
enum End {
    Done,
    Gate,
    Stopped,
}

/// How a thread is started: with the C library's stack if `stack_size` returns `None`, else with a stack of that many
/// bytes.
pub(crate) trait Starter {
    fn stack_size(&self, worker: usize) -> Option<usize>;
}

/// A starter that gives each thread the C library's stack.
#[derive(Drop)]
struct Plain;

impl Starter for Plain {
    fn stack_size(&self, _worker: usize) -> Option<usize> {
        None
    }
}

/// Makes the turns of a worker in their order, until the gate holds one back or a turn returns false.
fn work_through<W: Work, G: Gate>(worker: usize, work: &mut W, gate: &G) -> End {
    for j in 0..work.turns() {
        if !gate.before(worker, j) {
            return End::Gate;
        }
        let goes_on = work.turn(j);
        gate.after(worker, j);
        if !goes_on {
            return End::Stopped;
        }
    }
    End::Done
}

/// Starts a thread for each item and keeps its handle in `handles`. Returns false at the first thread that isn't
/// started, and starts no further thread.
fn start_all<'s, E, S: Starter, W: Work + Send, G: Gate + Sync>(
    starter: &S,
    scope: &Scope<'s, E>,
    handles: &mut Vec<JoinHandle<End>>,
    items: IterMut<'s, W>,
    gate: &'s G,
) -> bool {
    for (worker, item) in items.enumerate() {
        let builder = match starter.stack_size(worker) {
            Some(size) => Builder::new().stack_size(size),
            None => Builder::new(),
        };
        match builder.spawn_scoped(scope, move || work_through(worker, item, gate)) {
            Ok(handle) => {
                if handles.push(handle).is_err() {
                    return false;
                }
            }
            Err(_) => return false,
        }
    }
    true
}

/// Adds the end of one more worker to what is known: whether the gate gave up a worker, and whether a turn returned
/// false.
fn with_end(known: (bool, bool), end: End) -> (bool, bool)
    ensures gave_up { IsTrue result.0 ↔ (IsTrue known.0 ⊎ (end ≡ End.Gate)) }
    ensures stopped { IsTrue result.1 ↔ (IsTrue known.1 ⊎ (end ≡ End.Stopped)) }
{
    let (gave_up, stopped) = known;
    match end {
        End::Done => (gave_up, stopped),
        End::Gate => (true, stopped),
        End::Stopped => (gave_up, true),
    }
}

/// Waits for all threads. Returns whether the gate gave up a worker, and whether a turn returned false.
fn join_all<R: Threads + Wait>(rt: &R, handles: Vec<JoinHandle<End>>) -> (bool, bool) {
    let mut known = (false, false);
    for handle in handles {
        known = with_end(known, handle.join(rt));
    }
    known
}

/// Returns the first cause in the order of `RunError`, or `Ok` if there is none.
fn outcome(started: bool, gave_up: bool, stopped: bool) -> Result<(), RunError>
    ensures start { started ≡ false → result ≡ Err RunError.Start }
    ensures gate { started ≡ true → gave_up ≡ true → result ≡ Err RunError.Gate }
    ensures stopped { started ≡ true → gave_up ≡ false → stopped ≡ true → result ≡ Err RunError.Stopped }
    ensures ok { started ≡ true → gave_up ≡ false → stopped ≡ false → result ≡ Ok tt }
{
    if !started {
        Err(RunError::Start)
    } else if gave_up {
        Err(RunError::Gate)
    } else if stopped {
        Err(RunError::Stopped)
    } else {
        Ok(())
    }
}

/// As `run`, with threads started by `starter`.
pub(crate) fn run_by<S: Starter, R: Threads + Wait + Sync, W: Work + Send, G: Gate + Sync>(
    starter: &S,
    rt: &R,
    alloc: Global,
    work: &mut [W],
    gate: &G,
) -> Result<(), RunError> {
    let Ok(handles) = Vec::with_capacity(alloc, work.len()) else {
        return Err(RunError::Start);
    };
    let items = work.iter_mut();
    thread::scope(thread::scope_env(), rt, move |scope| {
        let mut handles = handles;
        let started = start_all(starter, scope, &mut handles, items, gate);
        let (gave_up, stopped) = join_all(rt, handles);
        outcome(started, gave_up, stopped)
    })
}

/// Starts one thread for each item, and waits until all threads have ended. Worker i makes the turns of item i in
/// their order, and passes the gate before and after each turn.
///
/// Fails with `Start` if a thread was not started, because memory was refused or the machine started none; the threads
/// started before it make their turns all the same. The list of threads takes one block of memory.
pub fn run<R: Threads + Wait + Sync, W: Work + Send, G: Gate + Sync>(
    rt: &R,
    alloc: Global,
    work: &mut [W],
    gate: &G,
) -> Result<(), RunError> {
    run_by(&Plain, rt, alloc, work, gate)
}
