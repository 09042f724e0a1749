//! Recorded calls, and the finish of their run.
ghost use Rattle.std.specs.Prelude.{◌≡◌, ◌<◌, ◌++◌, IfOk, IsTrue, OnOk, Some, map, vec_len};
ghost use Rattle.scc_recorded.specs.Setups.{request_of};

use crate::parts::{Fold, Map, Outcome, PARTS, fold_hasher, nanos, out_of_memory, sum_of_all};
use scc_calls::MapCall;
use scc_recorded::{Finished, Pass, Recorded, Setup, Site};
use std::alloc::Global;
use std::io;
use std::marker::Brand;
use std::rt::Clock;
use std::sync::Wait;
use std::sync::ledger::{Blank, Ledger};
use std::time::Instant;

/// The outcome of recorded calls, and the nanoseconds that their finish took.
#[derive(Clone, Copy, Drop)]
pub struct Recording {
    pub calls: Outcome,
    pub finish: u64,
}

/// Upserts the pairs, and returns whether all calls were made. Then the pass has a receipt for each pair.
fn record_all<L: Ledger, M: Site<Fold>, R: Wait>(
    rt: &R,
    recorded: &Recorded<Map, L, M>,
    pass: &mut Pass<Map, L>,
    pairs: &[(u64, u64)],
) -> bool
    ensures { IsTrue result → map (λ r. r.call) pass.new.log.receipts.items
        ≡ map (λ r. r.call) pass.old.log.receipts.items ++ map (λ p. MapCall.Upsert p.0 p.1) pairs.now }
{
    for (key, value) in pairs {
        let Ok(_reply) = recorded.call(rt, pass, MapCall::Upsert(*key, *value)) else {
            return false;
        };
    }
    true
}

/// Returns the nanoseconds that the calls take, and the time when they ended.
fn time_calls<L: Ledger, M: Site<Fold>, R: Wait + Clock>(
    rt: &R,
    recorded: &Recorded<Map, L, M>,
    pass: &mut Pass<Map, L>,
    pairs: &[(u64, u64)],
) -> io::Result<(u64, Instant)>
    ensures { OnOk result (map (λ r. r.call) pass.new.log.receipts.items
        ≡ map (λ r. r.call) pass.old.log.receipts.items ++ map (λ p. MapCall.Upsert p.0 p.1) pairs.now) }
{
    let start = Instant::now(rt)?;
    if !record_all(rt, recorded, pass, pairs) {
        return Err(out_of_memory());
    }
    let end = Instant::now(rt)?;
    Ok((nanos(end.duration_since(start)), end))
}

/// Finishes the run.
fn finish_run<L: Ledger, M: Site<Fold>>(
    recorded: Recorded<Map, L, M>,
    passes: Vec<Pass<Map, L>>,
) -> io::Result<Finished<Map>>
    ensures { IfOk result (λ f. vec_len f.parts ≡ recorded.stripes) }
{
    match recorded.finish(passes) {
        Ok(finished) => Ok(finished),
        Err(_) => Err(io::Error::from(io::ErrorKind::InvalidData)),
    }
}

/// Finishes the run, and returns the nanoseconds since the calls ended and the sum of all values.
fn time_finish<L: Ledger, M: Site<Fold>, C: Clock>(
    clock: &C,
    ended: Instant,
    recorded: Recorded<Map, L, M>,
    passes: Vec<Pass<Map, L>>,
) -> io::Result<(u64, u64)> {
    let finished = finish_run(recorded, passes)?;
    let spent = nanos(ended.elapsed(clock)?);
    Ok((spent, sum_of_all(finished.parts.as_slice())))
}

/// Upserts all pairs with the first pass, and finishes.
fn record_and_finish<L: Ledger, M: Site<Fold>, R: Wait + Clock>(
    rt: &R,
    recorded: Recorded<Map, L, M>,
    passes: Vec<Pass<Map, L>>,
    pairs: &[(u64, u64)],
) -> io::Result<Recording>
    requires { 0 < vec_len passes }
{
    let mut passes = passes;
    let (spent, ended) = time_calls(rt, &recorded, &mut passes[0], pairs)?;
    let (finish, sum) = time_finish(rt, ended, recorded, passes)?;
    Ok(Recording {
        calls: Outcome { spent, sum },
        finish,
    })
}

/// Upserts all pairs with one pass under two ledgers, and finishes.
fn run_in<L: Ledger, M: Site<Fold>, R: Wait + Clock>(
    rt: &R,
    alloc: Global,
    hasher: Fold,
    receipts: Blank,
    records: Blank,
    pairs: &[(u64, u64)],
) -> io::Result<Recording>
    requires receipts { (receipts.name ≡ L.name) × (receipts.parts ≡ L.parts) × (receipts.parts ≡ 1) }
    requires records { (records.name ≡ M.name) × (records.parts ≡ M.parts) × (records.parts ≡ 16) }
    requires site { (M.chosen ≡ Some (request_of 0 0 hasher 16)) × (M.all ≡ 16) }
{
    let setup = Setup {
        capacity: 0,
        maximum: 0,
        hasher,
    };
    match Recorded::<Map, L, M>::open(alloc, setup, PARTS, 1, receipts, records) {
        Ok((recorded, passes)) => record_and_finish(rt, recorded, passes, pairs),
        Err(_) => Err(out_of_memory()),
    }
}

/// Upserts all pairs with one pass in an empty recorded map, and finishes the run.
pub(crate) fn run<R: Wait + Clock>(
    rt: &R,
    alloc: Global,
    pairs: &[(u64, u64)],
) -> io::Result<Recording> {
    run_in::<Brand, Brand, R>(
        rt,
        alloc,
        fold_hasher(alloc)?,
        Blank::new(1),
        Blank::new(16),
        pairs,
    )
}
