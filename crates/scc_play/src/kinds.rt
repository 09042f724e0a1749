//! Plays a script of each kind on several stripes. A thread may be handed only a value whose type is known in full, so
//! the threads of each kind are started here.
ghost use Rattle.std.specs.Prelude.{◌≡◌, IfOk, Some};
ghost use Rattle.scc_recorded.specs.Setups.{request_of};
ghost use Rattle.scc_script.specs.Grammar.{IsWorkerCount, IsStripeCount, IsCacheStripeCount};
ghost use Rattle.scc_play.specs.Ended.{IfPlayed};
ghost use Rattle.scc_play.specs.Kinds.{MapPlayed, SetPlayed, IndexPlayed, CachePlayed, MapPlayedFor, SetPlayedFor, IndexPlayedFor, CachePlayedFor};

use crate::ends::End;
use crate::finishing::{calls_of_workers, finish_run};
use crate::worker::{passes_of, workers_of};
use scc_calls::{CacheCall, IndexCall, MapCall, SetCall};
use scc_common::Shared;
use scc_owned::index::Owned as OwnedIndex;
use scc_owned::map::Owned as OwnedMap;
use scc_owned_cache::Owned as OwnedCache;
use scc_owned_set::Owned as OwnedSet;
use scc_recorded::{Recorded, Setup, Site};
use scc_script::line::WorkerCall;
use scc_script::same::Same;
use scc_stripes::workers::{Open, run};
use std::alloc::{AllocError, Global};
use std::marker::Brand;
use std::sync::ledger::{Blank, Ledger};
use std::sync::{Arc, Wait};
use std::thread::Threads;

/// Returns one owner of a script's hasher. Fails if memory is refused.
fn shared(alloc: Global) -> Result<Shared<Same>, AllocError> {
    Ok(Shared::new(Arc::new(alloc, Same)?))
}

/// Returns what a script's container is made with.
fn setup_of(hasher: Shared<Same>) -> Setup<Shared<Same>>
    ensures { (result.capacity ≡ 0) × (result.maximum ≡ 256) × (result.hasher ≡ hasher) }
{
    Setup {
        capacity: 0,
        maximum: 256,
        hasher,
    }
}

/// Plays calls of a map under two ledgers. Fails if memory or a thread is refused.
fn play_map_in<L, M, R>(
    rt: &R,
    alloc: Global,
    hasher: Shared<Same>,
    receipts: Blank,
    records: Blank,
    workers: usize,
    stripes: usize,
    calls: &[WorkerCall<MapCall<u64, u64>>],
) -> Result<End, AllocError>
where
    L: Ledger + Send + Sync,
    M: Site<Shared<Same>> + Send + Sync,
    R: Threads + Wait + Sync,
    requires receipts { (receipts.name ≡ L.name) × (receipts.parts ≡ L.parts) × (receipts.parts ≡ workers) }
    requires records { (records.name ≡ M.name) × (records.parts ≡ M.parts) × (records.parts ≡ stripes) }
    requires site { (M.chosen ≡ Some (request_of 0 256 hasher stripes)) × (M.all ≡ stripes) }
    requires counts { IsWorkerCount workers × IsStripeCount stripes }
    ensures { IfOk result (λ e. IfPlayed e (MapPlayedFor M.chosen workers stripes calls.now)) }
{
    let lists = calls_of_workers::<OwnedMap<u64, u64, Shared<Same>>>(alloc, workers, calls)?;
    let Ok((recorded, handed)) = Recorded::<OwnedMap<u64, u64, Shared<Same>>, L, M>::open(
        alloc,
        setup_of(hasher),
        stripes,
        workers,
        receipts,
        records,
    ) else {
        return Err(AllocError);
    };
    let mut running = workers_of(rt, alloc, &recorded, handed, lists.as_slice())?;
    if run(rt, alloc, running.as_mut_slice(), &Open).is_err() {
        return Err(AllocError);
    }
    let passes = passes_of(alloc, running)?;
    finish_run(alloc, workers, stripes, calls, recorded.close(), passes)
}

/// Plays calls of a map. Fails if memory or a thread is refused.
pub(crate) fn play_map<R: Threads + Wait + Sync>(
    rt: &R,
    alloc: Global,
    workers: usize,
    stripes: usize,
    calls: &[WorkerCall<MapCall<u64, u64>>],
) -> Result<End, AllocError>
    requires { IsWorkerCount workers × IsStripeCount stripes }
    ensures { IfOk result (λ e. IfPlayed e (MapPlayed workers stripes calls.now)) }
{
    play_map_in::<Brand, Brand, R>(
        rt,
        alloc,
        shared(alloc)?,
        Blank::new(workers as u64),
        Blank::new(stripes as u64),
        workers,
        stripes,
        calls,
    )
}

/// Plays calls of a set under two ledgers. Fails if memory or a thread is refused.
fn play_set_in<L, M, R>(
    rt: &R,
    alloc: Global,
    hasher: Shared<Same>,
    receipts: Blank,
    records: Blank,
    workers: usize,
    stripes: usize,
    calls: &[WorkerCall<SetCall<u64>>],
) -> Result<End, AllocError>
where
    L: Ledger + Send + Sync,
    M: Site<Shared<Same>> + Send + Sync,
    R: Threads + Wait + Sync,
    requires receipts { (receipts.name ≡ L.name) × (receipts.parts ≡ L.parts) × (receipts.parts ≡ workers) }
    requires records { (records.name ≡ M.name) × (records.parts ≡ M.parts) × (records.parts ≡ stripes) }
    requires site { (M.chosen ≡ Some (request_of 0 256 hasher stripes)) × (M.all ≡ stripes) }
    requires counts { IsWorkerCount workers × IsStripeCount stripes }
    ensures { IfOk result (λ e. IfPlayed e (SetPlayedFor M.chosen workers stripes calls.now)) }
{
    let lists = calls_of_workers::<OwnedSet<u64, Shared<Same>>>(alloc, workers, calls)?;
    let Ok((recorded, handed)) = Recorded::<OwnedSet<u64, Shared<Same>>, L, M>::open(
        alloc,
        setup_of(hasher),
        stripes,
        workers,
        receipts,
        records,
    ) else {
        return Err(AllocError);
    };
    let mut running = workers_of(rt, alloc, &recorded, handed, lists.as_slice())?;
    if run(rt, alloc, running.as_mut_slice(), &Open).is_err() {
        return Err(AllocError);
    }
    let passes = passes_of(alloc, running)?;
    finish_run(alloc, workers, stripes, calls, recorded.close(), passes)
}

/// Plays calls of a set. Fails if memory or a thread is refused.
pub(crate) fn play_set<R: Threads + Wait + Sync>(
    rt: &R,
    alloc: Global,
    workers: usize,
    stripes: usize,
    calls: &[WorkerCall<SetCall<u64>>],
) -> Result<End, AllocError>
    requires { IsWorkerCount workers × IsStripeCount stripes }
    ensures { IfOk result (λ e. IfPlayed e (SetPlayed workers stripes calls.now)) }
{
    play_set_in::<Brand, Brand, R>(
        rt,
        alloc,
        shared(alloc)?,
        Blank::new(workers as u64),
        Blank::new(stripes as u64),
        workers,
        stripes,
        calls,
    )
}

/// Plays calls of an index under two ledgers. Fails if memory or a thread is refused.
fn play_index_in<L, M, R>(
    rt: &R,
    alloc: Global,
    hasher: Shared<Same>,
    receipts: Blank,
    records: Blank,
    workers: usize,
    stripes: usize,
    calls: &[WorkerCall<IndexCall<u64, u64>>],
) -> Result<End, AllocError>
where
    L: Ledger + Send + Sync,
    M: Site<Shared<Same>> + Send + Sync,
    R: Threads + Wait + Sync,
    requires receipts { (receipts.name ≡ L.name) × (receipts.parts ≡ L.parts) × (receipts.parts ≡ workers) }
    requires records { (records.name ≡ M.name) × (records.parts ≡ M.parts) × (records.parts ≡ stripes) }
    requires site { (M.chosen ≡ Some (request_of 0 256 hasher stripes)) × (M.all ≡ stripes) }
    requires counts { IsWorkerCount workers × IsStripeCount stripes }
    ensures { IfOk result (λ e. IfPlayed e (IndexPlayedFor M.chosen workers stripes calls.now)) }
{
    let lists = calls_of_workers::<OwnedIndex<u64, u64, Shared<Same>>>(alloc, workers, calls)?;
    let Ok((recorded, handed)) = Recorded::<OwnedIndex<u64, u64, Shared<Same>>, L, M>::open(
        alloc,
        setup_of(hasher),
        stripes,
        workers,
        receipts,
        records,
    ) else {
        return Err(AllocError);
    };
    let mut running = workers_of(rt, alloc, &recorded, handed, lists.as_slice())?;
    if run(rt, alloc, running.as_mut_slice(), &Open).is_err() {
        return Err(AllocError);
    }
    let passes = passes_of(alloc, running)?;
    finish_run(alloc, workers, stripes, calls, recorded.close(), passes)
}

/// Plays calls of an index. Fails if memory or a thread is refused.
pub(crate) fn play_index<R: Threads + Wait + Sync>(
    rt: &R,
    alloc: Global,
    workers: usize,
    stripes: usize,
    calls: &[WorkerCall<IndexCall<u64, u64>>],
) -> Result<End, AllocError>
    requires { IsWorkerCount workers × IsStripeCount stripes }
    ensures { IfOk result (λ e. IfPlayed e (IndexPlayed workers stripes calls.now)) }
{
    play_index_in::<Brand, Brand, R>(
        rt,
        alloc,
        shared(alloc)?,
        Blank::new(workers as u64),
        Blank::new(stripes as u64),
        workers,
        stripes,
        calls,
    )
}

/// Plays calls of a cache under two ledgers. Fails if memory or a thread is refused.
fn play_cache_in<L, M, R>(
    rt: &R,
    alloc: Global,
    hasher: Shared<Same>,
    receipts: Blank,
    records: Blank,
    workers: usize,
    stripes: usize,
    calls: &[WorkerCall<CacheCall<u64, u64>>],
) -> Result<End, AllocError>
where
    L: Ledger + Send + Sync,
    M: Site<Shared<Same>> + Send + Sync,
    R: Threads + Wait + Sync,
    requires receipts { (receipts.name ≡ L.name) × (receipts.parts ≡ L.parts) × (receipts.parts ≡ workers) }
    requires records { (records.name ≡ M.name) × (records.parts ≡ M.parts) × (records.parts ≡ stripes) }
    requires site { (M.chosen ≡ Some (request_of 0 256 hasher stripes)) × (M.all ≡ stripes) }
    requires counts { IsWorkerCount workers × IsCacheStripeCount stripes }
    ensures { IfOk result (λ e. IfPlayed e (CachePlayedFor M.chosen workers stripes calls.now)) }
{
    let lists = calls_of_workers::<OwnedCache<u64, u64, Shared<Same>>>(alloc, workers, calls)?;
    let Ok((recorded, handed)) = Recorded::<OwnedCache<u64, u64, Shared<Same>>, L, M>::open(
        alloc,
        setup_of(hasher),
        stripes,
        workers,
        receipts,
        records,
    ) else {
        return Err(AllocError);
    };
    let mut running = workers_of(rt, alloc, &recorded, handed, lists.as_slice())?;
    if run(rt, alloc, running.as_mut_slice(), &Open).is_err() {
        return Err(AllocError);
    }
    let passes = passes_of(alloc, running)?;
    finish_run(alloc, workers, stripes, calls, recorded.close(), passes)
}

/// Plays calls of a cache. Fails if memory or a thread is refused.
pub(crate) fn play_cache<R: Threads + Wait + Sync>(
    rt: &R,
    alloc: Global,
    workers: usize,
    stripes: usize,
    calls: &[WorkerCall<CacheCall<u64, u64>>],
) -> Result<End, AllocError>
    requires { IsWorkerCount workers × IsCacheStripeCount stripes }
    ensures { IfOk result (λ e. IfPlayed e (CachePlayed workers stripes calls.now)) }
{
    play_cache_in::<Brand, Brand, R>(
        rt,
        alloc,
        shared(alloc)?,
        Blank::new(workers as u64),
        Blank::new(stripes as u64),
        workers,
        stripes,
        calls,
    )
}
