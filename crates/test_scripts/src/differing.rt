// The end of a run finds out that the receipts aren't those of the script's calls.
ghost use Rattle.std.specs.Prelude.{◌≡◌, Some};
ghost use Rattle.scc_recorded.specs.Setups.{request_of};

use crate::expect::expect_eq;
use scc_calls::MapCall;
use scc_common::Shared;
use scc_owned::map::Owned;
use scc_play::ends::End;
use scc_play::finishing::finish_run;
use scc_recorded::{Recorded, Setup, Site};
use scc_script::line::WorkerCall;
use scc_script::same::Same;
use std::alloc::Global;
use std::marker::Brand;
use std::sync::ledger::{Blank, Ledger};
use std::sync::{Arc, Wait};

/// Inserts a pair by the only worker, on one stripe. Returns whether the receipts differ from `calls`, or `None` if
/// the run doesn't come to its end.
fn differs_in<L: Ledger, M: Site<Shared<Same>>, R: Wait>(
    rt: &R,
    alloc: Global,
    hasher: Shared<Same>,
    receipts: Blank,
    records: Blank,
    calls: &[WorkerCall<MapCall<u64, u64>>],
) -> Option<bool>
    requires receipts { (receipts.name ≡ L.name) × (receipts.parts ≡ L.parts) × (receipts.parts ≡ 1) }
    requires records { (records.name ≡ M.name) × (records.parts ≡ M.parts) × (records.parts ≡ 1) }
    requires site { (M.chosen ≡ Some (request_of 0 256 hasher 1)) × (M.all ≡ 1) }
{
    let setup = Setup {
        capacity: 0,
        maximum: 256,
        hasher,
    };
    let Ok((recorded, passes)) = Recorded::<Owned<u64, u64, Shared<Same>>, L, M>::open(
        alloc, setup, 1, 1, receipts, records,
    ) else {
        return None;
    };
    let mut passes = passes;
    for pass in passes.as_mut_slice() {
        if recorded.call(rt, pass, MapCall::Insert(1, 10)).is_err() {
            return None;
        }
    }
    match finish_run(alloc, 1, 1, calls, recorded.close(), passes) {
        Ok(End::Played(_)) => Some(false),
        Ok(End::Differs) => Some(true),
        _ => None,
    }
}

fn differs<R: Wait>(
    rt: &R,
    alloc: Global,
    calls: &[WorkerCall<MapCall<u64, u64>>],
) -> Option<bool> {
    match Arc::new(alloc, Same) {
        Ok(owner) => differs_in::<Brand, Brand, R>(
            rt,
            alloc,
            Shared::new(owner),
            Blank::new(1),
            Blank::new(1),
            calls,
        ),
        Err(_) => None,
    }
}

fn insertion(key: u64, value: u64) -> WorkerCall<MapCall<u64, u64>> {
    WorkerCall {
        worker: 0,
        call: MapCall::Insert(key, value),
    }
}

#[test]
fn receipts_of_another_script_differ(rt: HostRuntime) {
    let alloc = rt.alloc();
    expect_eq(
        &rt,
        [
            differs(&rt, alloc, &[insertion(1, 10)]),
            differs(&rt, alloc, &[insertion(1, 20)]),
            differs(&rt, alloc, &[]),
            differs(&rt, alloc, &[insertion(1, 10), insertion(2, 10)]),
        ],
        [Some(false), Some(true), Some(true), Some(true)],
    );
}
