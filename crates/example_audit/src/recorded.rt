//! A recorded index, and the audit of its run.
ghost use Rattle.std.specs.List.{sum_by};
ghost use Rattle.std.specs.Prelude.{◌≡◌, IfOk, Some, map};
ghost use Rattle.scc_recorded.specs.Finished.{IsFinishedRun};
ghost use Rattle.scc_recorded.specs.Setups.{request_of};
ghost use Rattle.scc_recorded.specs.Stamps.{calls_in};

use crate::input::Line;
use scc_recorded::{
    Calls, Finished, IndexCall, OwnedIndex, Pass, Recorded, Reply, Setup, Shared, Site,
    count_all_calls,
};
use std::alloc::{AllocError, Global};
use std::hash::{BuildHasherDefault, FoldHasher};
use std::io;
use std::marker::Brand;
use std::sync::ledger::{Blank, Ledger};
use std::sync::{Arc, Wait};
use std::thread::{Threads, map_vec};

type Fold = Shared<BuildHasherDefault<FoldHasher>>;

type Routes = OwnedIndex<u64, u64, Fold>;

/// The number of stripes of the recorded index.
const STRIPES: usize = 4;

/// The number of passes, which take the lines in turn.
const PASSES: usize = 2;

/// Finishes a run. By contract every merge of the histories is then a run of the whole, from no entries to the entries
/// at the end, and the records of each pass agree with its receipts.
fn audit<C: Calls + Drop, L: Ledger, M: Site<C::Hasher>>(
    recorded: Recorded<C, L, M>,
    passes: Vec<Pass<C, L>>,
) -> io::Result<Finished<C>>
where
    C::Hasher: Drop,
    ensures { IfOk result (IsFinishedRun recorded.hasher recorded.passes passes.items M.chosen) }
{
    match recorded.finish(passes) {
        Ok(finished) => Ok(finished),
        Err(unfinished) => Err(io::Error::from(unfinished.cause)),
    }
}

/// Publishes a route by the pass: the first route to a destination is inserted, a later one is updated.
fn publish_route<L: Ledger, M: Site<Fold>, R: Wait>(
    rt: &R,
    recorded: &Recorded<Routes, L, M>,
    pass: &mut Pass<Routes, L>,
    destination: u64,
    hop: u64,
) -> io::Result<()> {
    if let Reply::Exists(_, _) = recorded.call(rt, pass, IndexCall::Insert(destination, hop))? {
        recorded.call(rt, pass, IndexCall::Update(destination, hop))?;
    }
    Ok(())
}

/// Publishes the routes of every other line, from line `number` on.
fn publish_part<L: Ledger, M: Site<Fold>, R: Wait>(
    rt: &R,
    recorded: &Recorded<Routes, L, M>,
    pass: &mut Pass<Routes, L>,
    lines: &[Line],
    number: usize,
) -> io::Result<()> {
    for line in lines.iter().skip(number).step_by(PASSES) {
        for offset in 0..line.count {
            let destination = line.first.wrapping_add(offset);
            publish_route(rt, recorded, pass, destination, line.hop)?;
        }
    }
    Ok(())
}

/// Publishes the routes of all lines, each pass on a thread of its own, and returns the passes.
fn publish_all<L: Ledger + Send + Sync, M: Site<Fold> + Send + Sync, R: Threads + Sync + Wait>(
    rt: &R,
    alloc: Global,
    recorded: &Recorded<Routes, L, M>,
    passes: Vec<Pass<Routes, L>>,
    lines: &[Line],
) -> io::Result<Vec<Pass<Routes, L>>> {
    let published = map_vec(
        rt,
        passes,
        &|pass: Pass<Routes, L>| {
            let mut pass = pass;
            let number = pass.log.number;
            let made = publish_part(rt, recorded, &mut pass, lines, number);
            (pass, made)
        },
    )?;
    let mut passes = Vec::new(alloc);
    for (pass, made) in published {
        made?;
        passes.push(pass).map_err(AllocError::from)?;
    }
    Ok(passes)
}

/// Returns the number of call records. Fails if it is above `usize::MAX`.
fn calls_of(finished: &Finished<Routes>) -> io::Result<usize>
    ensures { IfOk result (λ n. n ≡ sum_by calls_in (map (λ h. h.items) finished.now.histories.items)) }
{
    match count_all_calls(finished.histories.as_slice()) {
        Some(calls) => Ok(calls),
        None => Err(io::Error::from(io::ErrorKind::FileTooLarge)),
    }
}

/// Makes the calls on four stripes by two passes on two threads, audits the run, and returns the number of call records.
fn record_in<L: Ledger + Send + Sync, M: Site<Fold> + Send + Sync, R: Threads + Sync + Wait>(
    rt: &R,
    alloc: Global,
    hasher: Fold,
    receipts: Blank,
    records: Blank,
    lines: &[Line],
) -> io::Result<usize>
    requires receipts { (receipts.name ≡ L.name) × (receipts.parts ≡ L.parts) × (receipts.parts ≡ 2) }
    requires records { (records.name ≡ M.name) × (records.parts ≡ M.parts) × (records.parts ≡ 4) }
    requires site { (M.chosen ≡ Some (request_of 0 0 hasher 4)) × (M.all ≡ 4) }
{
    let setup = Setup {
        capacity: 0,
        maximum: 0,
        hasher,
    };
    let (recorded, passes) = Recorded::<Routes, L, M>::open(
        alloc, setup, STRIPES, PASSES, receipts, records,
    )?;
    let passes = publish_all(rt, alloc, &recorded, passes, lines)?;
    calls_of(&audit(recorded, passes)?)
}

/// Publishes the routes in a recorded index, and returns the number of recorded calls once the audit has succeeded.
pub fn record<R: Threads + Sync + Wait>(
    rt: &R,
    alloc: Global,
    lines: &[Line],
) -> io::Result<usize> {
    let owner = Arc::new(alloc, BuildHasherDefault::new()).map_err(AllocError::from)?;
    record_in::<Brand, Brand, R>(
        rt,
        alloc,
        Shared::new(owner),
        Blank::new(2),
        Blank::new(4),
        lines,
    )
}
