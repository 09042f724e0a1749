//! Two phases on two stripes: a worker makes its calls on the first stripe, another worker is told of it, and makes
//! its own calls on the second stripe.
ghost use Rattle.std.specs.Prelude.{◌≡◌, Some};
ghost use Rattle.scc_recorded.specs.Setups.{request_of};

use crate::finished::{finish_late, has_each_place};
use crate::kinds::Map;
use crate::turns::{callers_of, passes_of};
use crate::workers::shared;
use scc_calls::{MapCall, Reply};
use scc_common::Shared;
use scc_recorded::{Finished, Pass, Recorded, Setup, Site};
use scc_script::same::Same;
use scc_stripes::workers::{Open, run};
use std::alloc::{AllocError, Global};
use std::marker::Brand;
use std::sync::Wait;
use std::sync::ledger::{Blank, Ledger};
use std::thread::Threads;
use test_kit::lines::say;

/// The first key of the second stripe.
const HIGH: u64 = 1 << 63;

/// The number of calls of each worker.
const CALLS: u64 = 50;

type Made = (MapCall<u64, u64>, Option<Reply<u64, u64>>);

/// Returns insertions of keys from `first` on, as the one list of a worker.
fn insertions(alloc: Global, first: u64) -> Result<Vec<Vec<Made>>, AllocError> {
    let mut calls: Vec<Made> = Vec::new(alloc);
    for number in 0..CALLS {
        let call = MapCall::Insert(first | number, number);
        calls.push((call, Some(Reply::Inserted)))?;
    }
    let mut lists = Vec::new(alloc);
    lists.push(calls)?;
    Ok(lists)
}

/// Lets a worker make its calls on a thread. Returns the worker's pass if each call got the right reply.
fn work_alone<
    L: Ledger + Send + Sync,
    M: Site<Shared<Same>> + Send + Sync,
    R: Threads + Wait + Sync,
>(
    rt: &R,
    alloc: Global,
    recorded: &Recorded<Map, L, M>,
    pass: Pass<Map, L>,
    first: u64,
) -> Result<Option<Pass<Map, L>>, AllocError> {
    let lists = insertions(alloc, first)?;
    let mut handed = Vec::new(alloc);
    handed.push(pass)?;
    let mut callers = callers_of(rt, alloc, recorded, handed, lists.as_slice())?;
    let ended = run(rt, alloc, callers.as_mut_slice(), &Open).is_ok();
    match passes_of(alloc, callers)? {
        Some(mut passes) if ended => Ok(passes.pop()),
        _ => Ok(None),
    }
}

/// Returns whether all receipts of the second pass have greater stamps than those of the first.
fn is_later<L: Ledger>(first: &Pass<Map, L>, second: &Pass<Map, L>) -> bool {
    let clock = first.clock();
    let made = (first.receipts().len(), second.receipts().len());
    made == (CALLS as usize, CALLS as usize)
        && first
            .receipts()
            .iter()
            .all(|receipt| receipt.stripe == 0 && receipt.stamp <= clock)
        && second
            .receipts()
            .iter()
            .all(|receipt| receipt.stripe == 1 && receipt.stamp > clock)
}

/// Returns whether no step of the first stripe stands after a step of the second.
fn goes_in_phases(finished: &Finished<Map>) -> bool {
    let mut right = true;
    let mut last = 0usize;
    for place in finished.order.iter() {
        right = right && last <= place.0;
        last = place.0;
    }
    right && last == 1
}

/// Returns whether the calls of a worker that was told of another come later.
fn work_in_phases<
    L: Ledger + Send + Sync,
    M: Site<Shared<Same>> + Send + Sync,
    R: Threads + Wait + Sync,
>(
    rt: &R,
    alloc: Global,
    hasher: Shared<Same>,
    receipts: Blank,
    records: Blank,
) -> Result<bool, AllocError>
    requires receipts { (receipts.name ≡ L.name) × (receipts.parts ≡ L.parts) × (receipts.parts ≡ 2) }
    requires records { (records.name ≡ M.name) × (records.parts ≡ M.parts) × (records.parts ≡ 2) }
    requires site { (M.chosen ≡ Some (request_of 0 0 hasher 2)) × (M.all ≡ 2) }
{
    let setup = Setup {
        capacity: 0,
        maximum: 0,
        hasher,
    };
    let Ok((recorded, handed)) = Recorded::<Map, L, M>::open(alloc, setup, 2, 2, receipts, records)
    else {
        return Err(AllocError);
    };
    let mut passes = handed;
    let (Some(mut second), Some(first)) = (passes.pop(), passes.pop()) else {
        return Ok(false);
    };
    let Some(first) = work_alone(rt, alloc, &recorded, first, 0)? else {
        return Ok(false);
    };
    second.told(&first);
    let Some(second) = work_alone(rt, alloc, &recorded, second, HIGH)? else {
        return Ok(false);
    };
    let later = is_later(&first, &second);
    passes.push(first)?;
    passes.push(second)?;
    match finish_late(recorded, passes)? {
        Some(finished) => {
            Ok(later && goes_in_phases(&finished) && has_each_place(alloc, &finished)?)
        }
        None => Ok(false),
    }
}

fn in_phases<R: Threads + Wait + Sync>(rt: &R, alloc: Global) -> Result<bool, AllocError> {
    work_in_phases::<Brand, Brand, _>(rt, alloc, shared(alloc)?, Blank::new(2), Blank::new(2))
}

/// Prints a line for the two phases. Returns its status.
pub(crate) fn run_phases<R: Threads + Wait + Sync + AllocGlobal + Print>(rt: &R) -> u8 {
    say(
        rt,
        "recorded map",
        "two phases, one told of the other",
        in_phases(rt, rt.alloc()),
    )
}
