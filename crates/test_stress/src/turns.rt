//! The workers on one recorded container, and their calls.
ghost use Rattle.scc_calls.specs.Copies.{ClonesEqual};

use crate::plain::Plain;
use scc_calls::Calls;
use scc_recorded::{Pass, Recorded, Site};
use scc_stripes::workers::Work;
use std::alloc::{AllocError, Global};
use std::sync::Wait;
use std::sync::ledger::Ledger;

pub(crate) const WORKERS: u64 = 8;

const TURNS: u64 = 200;

// The number of keys that all workers share.
const SHARED: u64 = 8;

// The calls of workers on a container of one kind.
pub(crate) trait Turns: Calls + Drop {
    /// Returns the call of turn `j` on a key of the worker's own, and its reply if no other worker interferes and the
    /// reply can be known.
    fn own_turn(key: u64, j: u64) -> (Self::Call, Option<Self::Reply>);

    /// Returns the call of turn `j` on a key that all workers share.
    fn shared_turn(key: u64, j: u64) -> Self::Call;

    /// Makes a call on a plain list. Returns whether `reply` is right.
    fn plays(
        alloc: Global,
        plain: &mut Plain,
        call: &Self::Call,
        reply: &Self::Reply,
    ) -> Result<bool, AllocError>;

    /// Adds all pairs to `met` in the order of a walk. Returns whether there was room. A set's values are 0.
    fn collect(&self, met: &mut Vec<(u64, u64)>) -> bool;

    /// Returns the number of keys.
    fn count(&self) -> usize;

    /// Returns whether a walk meets pairs bucket by bucket, each bucket's by recency.
    fn is_ordered() -> bool;

    // A clone of a call equals the call.
    ghost equal_calls: { ClonesEqual Self.Call.is_clone Self.Call.eq };

    // A clone of a reply equals the reply.
    ghost equal_replies: { ClonesEqual Self.Reply.is_clone Self.Reply.eq };
}

/// Returns a key of the worker's own. A worker's keys lie in different buckets, and each serves eight turns.
fn own_key(worker: u64, place: u64) -> u64 {
    (place << 59) | (1 << 40) | (worker << 32)
}

/// Returns the call of turn `j`. Every other call is on a key of the worker's own, and the others are on keys that all
/// workers share.
fn turn_of<C: Turns>(worker: u64, j: u64) -> (C::Call, Option<C::Reply>) {
    if j % 2 == 0 {
        C::own_turn(own_key(worker, j / 8), j)
    } else {
        let key = worker.wrapping_add(j / 2) % SHARED;
        (C::shared_turn(key, j), None)
    }
}

fn turns_of<C: Turns>(
    alloc: Global,
    worker: u64,
) -> Result<Vec<(C::Call, Option<C::Reply>)>, AllocError> {
    let mut turns = Vec::new(alloc);
    for j in 0..TURNS {
        turns.push(turn_of::<C>(worker, j))?;
    }
    Ok(turns)
}

/// Returns the turns of all workers.
pub(crate) fn all_turns<C: Turns>(
    alloc: Global,
) -> Result<Vec<Vec<(C::Call, Option<C::Reply>)>>, AllocError> {
    let mut lists = Vec::new(alloc);
    for worker in 0..WORKERS {
        lists.push(turns_of::<C>(alloc, worker)?)?;
    }
    Ok(lists)
}

/// Returns whether `answer` is the known reply. Returns true if no reply is known.
fn matches_alone<A: PartialEq>(wanted: &Option<A>, answer: &A) -> bool {
    match wanted {
        Some(wanted) => wanted == answer,
        None => true,
    }
}

// A worker, with a pass of its own.
#[derive(Drop)]
pub(crate) struct Caller<'a, C: Turns, L: Ledger, M: Site<C::Hasher>, R: Wait> {
    rt: &'a R,
    recorded: &'a Recorded<C, L, M>,
    turns: &'a [(C::Call, Option<C::Reply>)],
    pass: Pass<C, L>,
    // Whether each reply on the worker's own keys was that of a single thread.
    as_alone: bool,
}

impl<C: Turns, L: Ledger, M: Site<C::Hasher>, R: Wait> Work for Caller<'_, C, L, M, R> {
    fn turns(&self) -> usize {
        self.turns.len()
    }

    fn turn(&mut self, j: usize) -> bool {
        let Some((call, alone)) = self.turns.get(j) else {
            return false;
        };
        let Ok(copy) = call.clone() else {
            return false;
        };
        let Some(_key) = C::key(&copy) else {
            return false;
        };
        match self.recorded.call(self.rt, &mut self.pass, copy) {
            Ok(reply) => {
                self.as_alone = self.as_alone && matches_alone(alone, &reply);
                true
            }
            Err(_refused) => false,
        }
    }
}

/// Returns a worker for each pass.
pub(crate) fn callers_of<'a, C: Turns, L: Ledger, M: Site<C::Hasher>, R: Wait>(
    rt: &'a R,
    alloc: Global,
    recorded: &'a Recorded<C, L, M>,
    passes: Vec<Pass<C, L>>,
    lists: &'a [Vec<(C::Call, Option<C::Reply>)>],
) -> Result<Vec<Caller<'a, C, L, M, R>>, AllocError> {
    let mut callers = Vec::with_capacity(alloc, passes.len())?;
    for (pass, turns) in passes.into_iter().zip(lists) {
        callers.push(Caller {
            rt,
            recorded,
            turns: turns.as_slice(),
            pass,
            as_alone: true,
        })?;
    }
    Ok(callers)
}

/// Returns the passes of the workers if each reply on their own keys was that of a single thread.
pub(crate) fn passes_of<C: Turns, L: Ledger, M: Site<C::Hasher>, R: Wait>(
    alloc: Global,
    callers: Vec<Caller<'_, C, L, M, R>>,
) -> Result<Option<Vec<Pass<C, L>>>, AllocError> {
    let mut passes = Vec::with_capacity(alloc, callers.len())?;
    let mut alone = true;
    for caller in callers {
        let Caller {
            rt: _,
            recorded: _,
            turns: _,
            pass,
            as_alone,
        } = caller;
        alone = alone && as_alone;
        passes.push(pass)?;
    }
    Ok(if alone { Some(passes) } else { None })
}
