//! Eight workers on one recorded stripe of each kind. Every other call is on a key of the worker's own, and the
//! others are on eight keys that all workers share.
ghost use Rattle.std.specs.Prelude.{◌≡◌, Some};
ghost use Rattle.scc_recorded.specs.Setups.{request_of};

use crate::finished::finish_as_plain;
use crate::kinds::{Cache, Index, Map, Set};
use crate::turns::{all_turns, callers_of, passes_of};
use scc_calls::Calls;
use scc_common::{CloneOwner, Shared};
use scc_recorded::{Pass, Recorded, Setup, Site};
use scc_script::same::Same;
use scc_stripes::workers::{Open, run};
use std::alloc::{AllocError, Global};
use std::marker::Brand;
use std::sync::ledger::{Blank, Ledger};
use std::sync::{Arc, Wait};
use std::thread::Threads;
use test_kit::lines::say;

pub(crate) fn shared(alloc: Global) -> Result<Shared<Same>, AllocError> {
    Ok(Shared::new(Arc::new(alloc, Same)?))
}

/// Opens a recorded container of one stripe for eight passes.
fn opened<C: Calls + Drop, L: Ledger, M: Site<C::Hasher>>(
    alloc: Global,
    hasher: C::Hasher,
    receipts: Blank,
    records: Blank,
) -> Result<(Recorded<C, L, M>, Vec<Pass<C, L>>), AllocError>
where
    C::Hasher: CloneOwner + Drop,
    requires receipts { (receipts.name ≡ L.name) × (receipts.parts ≡ L.parts) × (receipts.parts ≡ 8) }
    requires records { (records.name ≡ M.name) × (records.parts ≡ M.parts) × (records.parts ≡ 1) }
    requires site { (M.chosen ≡ Some (request_of 0 128 hasher 1)) × (M.all ≡ 1) }
{
    let setup = Setup {
        capacity: 0,
        maximum: 128,
        hasher,
    };
    match Recorded::<C, L, M>::open(alloc, setup, 1, 8, receipts, records) {
        Ok(opened) => Ok(opened),
        Err(_) => Err(AllocError),
    }
}

/// Lets eight workers call a map. Returns the number of call records if all went as in one thread.
fn work_on_map<
    L: Ledger + Send + Sync,
    M: Site<Shared<Same>> + Send + Sync,
    R: Threads + Wait + Sync,
>(
    rt: &R,
    alloc: Global,
    hasher: Shared<Same>,
    receipts: Blank,
    records: Blank,
) -> Result<Option<usize>, AllocError>
    requires receipts { (receipts.name ≡ L.name) × (receipts.parts ≡ L.parts) × (receipts.parts ≡ 8) }
    requires records { (records.name ≡ M.name) × (records.parts ≡ M.parts) × (records.parts ≡ 1) }
    requires site { (M.chosen ≡ Some (request_of 0 128 hasher 1)) × (M.all ≡ 1) }
{
    let lists = all_turns::<Map>(alloc)?;
    let (recorded, handed) = opened::<Map, L, M>(alloc, hasher, receipts, records)?;
    let mut callers = callers_of(rt, alloc, &recorded, handed, lists.as_slice())?;
    let ended = run(rt, alloc, callers.as_mut_slice(), &Open).is_ok();
    match passes_of(alloc, callers)? {
        Some(passes) if ended => finish_as_plain(alloc, recorded, passes),
        _ => Ok(None),
    }
}

fn of_map<R: Threads + Wait + Sync>(rt: &R, alloc: Global) -> Result<bool, AllocError> {
    let records = work_on_map::<Brand, Brand, _>(
        rt,
        alloc,
        shared(alloc)?,
        Blank::new(8),
        Blank::new(1),
    )?;
    Ok(records == Some(1600))
}

/// Lets eight workers call a set. Returns the number of call records if all went as in one thread.
fn work_on_set<
    L: Ledger + Send + Sync,
    M: Site<Shared<Same>> + Send + Sync,
    R: Threads + Wait + Sync,
>(
    rt: &R,
    alloc: Global,
    hasher: Shared<Same>,
    receipts: Blank,
    records: Blank,
) -> Result<Option<usize>, AllocError>
    requires receipts { (receipts.name ≡ L.name) × (receipts.parts ≡ L.parts) × (receipts.parts ≡ 8) }
    requires records { (records.name ≡ M.name) × (records.parts ≡ M.parts) × (records.parts ≡ 1) }
    requires site { (M.chosen ≡ Some (request_of 0 128 hasher 1)) × (M.all ≡ 1) }
{
    let lists = all_turns::<Set>(alloc)?;
    let (recorded, handed) = opened::<Set, L, M>(alloc, hasher, receipts, records)?;
    let mut callers = callers_of(rt, alloc, &recorded, handed, lists.as_slice())?;
    let ended = run(rt, alloc, callers.as_mut_slice(), &Open).is_ok();
    match passes_of(alloc, callers)? {
        Some(passes) if ended => finish_as_plain(alloc, recorded, passes),
        _ => Ok(None),
    }
}

fn of_set<R: Threads + Wait + Sync>(rt: &R, alloc: Global) -> Result<bool, AllocError> {
    let records = work_on_set::<Brand, Brand, _>(
        rt,
        alloc,
        shared(alloc)?,
        Blank::new(8),
        Blank::new(1),
    )?;
    Ok(records == Some(1600))
}

/// Lets eight workers call an index. Returns the number of call records if all went as in one thread.
fn work_on_index<
    L: Ledger + Send + Sync,
    M: Site<Shared<Same>> + Send + Sync,
    R: Threads + Wait + Sync,
>(
    rt: &R,
    alloc: Global,
    hasher: Shared<Same>,
    receipts: Blank,
    records: Blank,
) -> Result<Option<usize>, AllocError>
    requires receipts { (receipts.name ≡ L.name) × (receipts.parts ≡ L.parts) × (receipts.parts ≡ 8) }
    requires records { (records.name ≡ M.name) × (records.parts ≡ M.parts) × (records.parts ≡ 1) }
    requires site { (M.chosen ≡ Some (request_of 0 128 hasher 1)) × (M.all ≡ 1) }
{
    let lists = all_turns::<Index>(alloc)?;
    let (recorded, handed) = opened::<Index, L, M>(alloc, hasher, receipts, records)?;
    let mut callers = callers_of(rt, alloc, &recorded, handed, lists.as_slice())?;
    let ended = run(rt, alloc, callers.as_mut_slice(), &Open).is_ok();
    match passes_of(alloc, callers)? {
        Some(passes) if ended => finish_as_plain(alloc, recorded, passes),
        _ => Ok(None),
    }
}

fn of_index<R: Threads + Wait + Sync>(rt: &R, alloc: Global) -> Result<bool, AllocError> {
    let records = work_on_index::<Brand, Brand, _>(
        rt,
        alloc,
        shared(alloc)?,
        Blank::new(8),
        Blank::new(1),
    )?;
    Ok(records == Some(1600))
}

/// Lets eight workers call a cache. Returns the number of call records if all went as in one thread.
fn work_on_cache<
    L: Ledger + Send + Sync,
    M: Site<Shared<Same>> + Send + Sync,
    R: Threads + Wait + Sync,
>(
    rt: &R,
    alloc: Global,
    hasher: Shared<Same>,
    receipts: Blank,
    records: Blank,
) -> Result<Option<usize>, AllocError>
    requires receipts { (receipts.name ≡ L.name) × (receipts.parts ≡ L.parts) × (receipts.parts ≡ 8) }
    requires records { (records.name ≡ M.name) × (records.parts ≡ M.parts) × (records.parts ≡ 1) }
    requires site { (M.chosen ≡ Some (request_of 0 128 hasher 1)) × (M.all ≡ 1) }
{
    let lists = all_turns::<Cache>(alloc)?;
    let (recorded, handed) = opened::<Cache, L, M>(alloc, hasher, receipts, records)?;
    let mut callers = callers_of(rt, alloc, &recorded, handed, lists.as_slice())?;
    let ended = run(rt, alloc, callers.as_mut_slice(), &Open).is_ok();
    match passes_of(alloc, callers)? {
        Some(passes) if ended => finish_as_plain(alloc, recorded, passes),
        _ => Ok(None),
    }
}

fn of_cache<R: Threads + Wait + Sync>(rt: &R, alloc: Global) -> Result<bool, AllocError> {
    let records = work_on_cache::<Brand, Brand, _>(
        rt,
        alloc,
        shared(alloc)?,
        Blank::new(8),
        Blank::new(1),
    )?;
    Ok(records == Some(1600))
}

/// Prints a line for each kind. Returns the worst status.
pub(crate) fn run_workers<R: Threads + Wait + Sync + AllocGlobal + Print>(rt: &R) -> u8 {
    let alloc = rt.alloc();
    let what = "eight workers on one stripe";
    let map = say(rt, "recorded map", what, of_map(rt, alloc));
    let set = say(rt, "recorded set", what, of_set(rt, alloc));
    let index = say(rt, "recorded index", what, of_index(rt, alloc));
    let cache = say(rt, "recorded cache", what, of_cache(rt, alloc));
    map.max(set).max(index).max(cache)
}
