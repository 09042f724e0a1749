//! Plain and recorded calls on a map of texts, whose keys and values are cloned into memory of their own.
ghost use Rattle.std.specs.Prelude.{◌≡◌, ◌<◌, Some, vec_len};
ghost use Rattle.scc_recorded.specs.Setups.{request_of};

use crate::parts::{Fold, Outcome, PARTS, fold_hasher, nanos, out_of_memory};
use crate::recording::Recording;
use scc_calls::{Calls, MapCall};
use scc_owned::map::Owned;
use scc_recorded::{Finished, Pass, Recorded, Setup, Site};
use std::alloc::{AllocError, Global};
use std::io;
use std::marker::Brand;
use std::rt::Clock;
use std::sync::ledger::{Blank, Ledger};
use std::sync::{Mutex, Wait};
use std::time::Instant;

type Names = Owned<String, String, Fold>;

type TextPair = (String, String);

/// Returns the texts of two numbers.
fn text_pair(alloc: Global, key: u64, value: u64) -> Result<TextPair, AllocError> {
    let key = format!(in alloc; "{key}")?;
    let value = format!(in alloc; "{value}")?;
    Ok((key, value))
}

/// Returns the texts of each pair.
fn text_pairs(alloc: Global, pairs: &[(u64, u64)]) -> Result<Vec<TextPair>, AllocError> {
    let mut texts = Vec::new(alloc);
    for (key, value) in pairs {
        texts.push(text_pair(alloc, *key, *value)?)?;
    }
    Ok(texts)
}

/// Returns the sum of the lengths of all values.
fn sum_of(names: &Names) -> u64 {
    let mut sum = 0u64;
    names.iter_sync(|_, value| {
        sum = sum.wrapping_add(value.len() as u64);
        true
    });
    sum
}

fn sum_of_all(parts: &[Names]) -> u64 {
    let mut sum = 0u64;
    for names in parts {
        sum = sum.wrapping_add(sum_of(names));
    }
    sum
}

/// Upserts the pairs under the lock, and returns whether all calls were made.
fn make_all<R: Wait>(rt: &R, names: &Mutex<Names>, pairs: Vec<TextPair>) -> bool {
    for (key, value) in pairs {
        if names.lock(rt).call(MapCall::Upsert(key, value)).is_err() {
            return false;
        }
    }
    true
}

/// Returns the nanoseconds that the calls take.
fn time_plain<R: Wait + Clock>(
    rt: &R,
    names: &Mutex<Names>,
    pairs: Vec<TextPair>,
) -> io::Result<u64> {
    let start = Instant::now(rt)?;
    if !make_all(rt, names, pairs) {
        return Err(out_of_memory());
    }
    Ok(nanos(start.elapsed(rt)?))
}

fn locked_names(alloc: Global, hasher: Fold) -> io::Result<Mutex<Names>> {
    match <Names as Calls>::make(alloc, 0, 0, 0, hasher) {
        Ok(names) => Ok(Mutex::new(names)),
        Err(_) => Err(out_of_memory()),
    }
}

/// Upserts the texts of all pairs in an empty map behind one lock.
pub(crate) fn run_plain<R: Wait + Clock>(
    rt: &R,
    alloc: Global,
    pairs: &[(u64, u64)],
) -> io::Result<Outcome> {
    let names = locked_names(alloc, fold_hasher(alloc)?)?;
    let texts = text_pairs(alloc, pairs)?;
    let spent = time_plain(rt, &names, texts)?;
    let sum = sum_of(&names.into_inner());
    Ok(Outcome { spent, sum })
}

/// Upserts the pairs with the pass, and returns whether all calls were made.
fn record_all<L: Ledger, M: Site<Fold>, R: Wait>(
    rt: &R,
    recorded: &Recorded<Names, L, M>,
    pass: &mut Pass<Names, L>,
    pairs: Vec<TextPair>,
) -> bool {
    for (key, value) in pairs {
        if recorded
            .call(rt, pass, MapCall::Upsert(key, value))
            .is_err()
        {
            return false;
        }
    }
    true
}

/// Returns the nanoseconds that the calls take, and the time when they ended.
fn time_calls<L: Ledger, M: Site<Fold>, R: Wait + Clock>(
    rt: &R,
    recorded: &Recorded<Names, L, M>,
    pass: &mut Pass<Names, L>,
    pairs: Vec<TextPair>,
) -> io::Result<(u64, Instant)> {
    let start = Instant::now(rt)?;
    if !record_all(rt, recorded, pass, pairs) {
        return Err(out_of_memory());
    }
    let end = Instant::now(rt)?;
    Ok((nanos(end.duration_since(start)), end))
}

fn finish_run<L: Ledger, M: Site<Fold>>(
    recorded: Recorded<Names, L, M>,
    passes: Vec<Pass<Names, L>>,
) -> io::Result<Finished<Names>> {
    match recorded.finish(passes) {
        Ok(finished) => Ok(finished),
        Err(_) => Err(io::Error::from(io::ErrorKind::InvalidData)),
    }
}

/// Finishes the run, and returns the nanoseconds since the calls ended and the sum of the lengths of all values.
fn time_finish<L: Ledger, M: Site<Fold>, C: Clock>(
    clock: &C,
    ended: Instant,
    recorded: Recorded<Names, L, M>,
    passes: Vec<Pass<Names, L>>,
) -> io::Result<(u64, u64)> {
    let finished = finish_run(recorded, passes)?;
    let spent = nanos(ended.elapsed(clock)?);
    Ok((spent, sum_of_all(finished.parts.as_slice())))
}

/// Makes the calls with the first pass, and finishes.
fn record_and_finish<L: Ledger, M: Site<Fold>, R: Wait + Clock>(
    rt: &R,
    recorded: Recorded<Names, L, M>,
    passes: Vec<Pass<Names, L>>,
    pairs: Vec<TextPair>,
) -> io::Result<Recording>
    requires { 0 < vec_len passes }
{
    let mut passes = passes;
    let (spent, ended) = time_calls(rt, &recorded, &mut passes[0], pairs)?;
    let (finish, sum) = time_finish(rt, ended, recorded, passes)?;
    Ok(Recording {
        calls: Outcome { spent, sum },
        finish,
    })
}

/// Makes the calls with one pass under two ledgers, and finishes.
fn run_in<L: Ledger, M: Site<Fold>, R: Wait + Clock>(
    rt: &R,
    alloc: Global,
    hasher: Fold,
    receipts: Blank,
    records: Blank,
    pairs: Vec<TextPair>,
) -> io::Result<Recording>
    requires receipts { (receipts.name ≡ L.name) × (receipts.parts ≡ L.parts) × (receipts.parts ≡ 1) }
    requires records { (records.name ≡ M.name) × (records.parts ≡ M.parts) × (records.parts ≡ 16) }
    requires site { (M.chosen ≡ Some (request_of 0 0 hasher 16)) × (M.all ≡ 16) }
{
    let setup = Setup {
        capacity: 0,
        maximum: 0,
        hasher,
    };
    match Recorded::<Names, L, M>::open(alloc, setup, PARTS, 1, receipts, records) {
        Ok((recorded, passes)) => record_and_finish(rt, recorded, passes, pairs),
        Err(_) => Err(out_of_memory()),
    }
}

/// Upserts the texts of all pairs with one pass in an empty recorded map, and finishes the run.
pub(crate) fn run_recorded<R: Wait + Clock>(
    rt: &R,
    alloc: Global,
    pairs: &[(u64, u64)],
) -> io::Result<Recording> {
    let hasher = fold_hasher(alloc)?;
    let texts = text_pairs(alloc, pairs)?;
    run_in::<Brand, Brand, R>(rt, alloc, hasher, Blank::new(1), Blank::new(16), texts)
}
