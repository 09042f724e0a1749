// On one stripe a recorded container of each kind replies to each call as an owned container does in a run of equal
// calls, has equally many buckets after each change, and holds equal entries in the end.
ghost use Rattle.std.specs.Prelude.{◌≡◌, Some};
ghost use Rattle.scc_recorded.specs.Setups.{request_of};

use crate::call_streams::{LOOKS, MAXIMUM, Streamed, count, look, stream};
use crate::expect::expect_eq;
use crate::kinds::{Cache, Index, Map, Set};
use scc_calls::{Step, run};
use scc_common::{CloneOwner, Shared};
use scc_history::Receipt;
use scc_recorded::{Finished, Pass, Recorded, Setup, Site};
use scc_script::same::Same;
use std::alloc::{AllocError, Global};
use std::marker::Brand;
use std::process::Abort;
use std::sync::ledger::{Blank, Ledger};
use std::sync::{Arc, Wait};
use std::test::Fail;

/// Makes one call on the recorded container, and returns whether its reply is `wanted`.
fn answers<C: Streamed, L: Ledger, M: Site<C::Hasher>, R: Wait>(
    rt: &R,
    recorded: &Recorded<C, L, M>,
    pass: &mut Pass<C, L>,
    call: C::Call,
    wanted: &C::Reply,
) -> bool {
    if let Some(_key) = C::key(&call) {
        return match recorded.call(rt, pass, call) {
            Ok(reply) => reply == *wanted,
            Err(_refused) => false,
        };
    }
    match C::counted(wanted) {
        Some(number) => match recorded.len(rt, pass) {
            Ok(count) => count == number,
            Err(_refused) => false,
        },
        None => recorded.clear(rt, pass).is_ok(),
    }
}

/// Makes all calls, and returns whether each reply is as wanted.
fn answers_all<C: Streamed, L: Ledger, M: Site<C::Hasher>, R: Wait>(
    rt: &R,
    recorded: &Recorded<C, L, M>,
    pass: &mut Pass<C, L>,
    calls: &[C::Call],
    wanted: &[C::Reply],
) -> bool {
    let mut right = calls.len() == wanted.len();
    for (call, reply) in calls.iter().zip(wanted) {
        right = answers(rt, recorded, pass, C::same_call(call), reply) && right;
    }
    right
}

/// Returns whether there is a receipt for each call, in the order of the calls, with the wanted reply.
fn are_receipts<C: Streamed>(
    receipts: &[Receipt<C::Call, C::Reply>],
    calls: &[C::Call],
    wanted: &[C::Reply],
) -> bool {
    let mut right = receipts.len() == calls.len();
    for (receipt, call) in receipts.iter().zip(calls) {
        right = right && receipt.stripe == 0 && receipt.call == *call;
    }
    for (receipt, reply) in receipts.iter().zip(wanted) {
        right = right && receipt.reply == *reply;
    }
    right
}

/// Makes all calls with the only pass, and returns whether each reply and each receipt is as wanted.
fn is_answered<C: Streamed, L: Ledger, M: Site<C::Hasher>, R: Wait>(
    rt: &R,
    recorded: &Recorded<C, L, M>,
    passes: &mut [Pass<C, L>],
    calls: &[C::Call],
    wanted: &[C::Reply],
) -> bool {
    match passes {
        [pass] => {
            answers_all(rt, recorded, pass, calls, wanted)
                && are_receipts::<C>(pass.receipts(), calls, wanted)
        }
        _ => false,
    }
}

/// Returns the finished run of `calls` on one recorded stripe, or `None` if a reply or a receipt is not as wanted.
fn record<C: Streamed, L: Ledger, M: Site<C::Hasher>, R: Wait>(
    rt: &R,
    alloc: Global,
    hasher: C::Hasher,
    receipts: Blank,
    records: Blank,
    calls: &[C::Call],
    wanted: &[C::Reply],
) -> Result<Option<Finished<C>>, AllocError>
where
    C::Hasher: CloneOwner + Drop,
    requires receipts { (receipts.name ≡ L.name) × (receipts.parts ≡ L.parts) × (receipts.parts ≡ 1) }
    requires records { (records.name ≡ M.name) × (records.parts ≡ M.parts) × (records.parts ≡ 1) }
    requires site { (M.chosen ≡ Some (request_of 0 128 hasher 1)) × (M.all ≡ 1) }
{
    let setup = Setup {
        capacity: 0,
        maximum: 128,
        hasher,
    };
    match Recorded::<C, L, M>::open(alloc, setup, 1, 1, receipts, records) {
        Ok((recorded, handed)) => {
            let mut passes = handed;
            if is_answered(rt, &recorded, passes.as_mut_slice(), calls, wanted) {
                Ok(recorded.finish(passes).ok())
            } else {
                Ok(None)
            }
        }
        Err(_) => Err(AllocError),
    }
}

/// Returns whether the resizes of a history have exactly these numbers of buckets.
fn has_sizes<A, B>(history: &[Step<A, B>], sizes: &[usize]) -> bool {
    let mut met = 0usize;
    let mut right = true;
    for step in history {
        if let Step::Resize { buckets, .. } = step {
            right = right && sizes.get(met) == Some(buckets);
            met = met.wrapping_add(1);
        }
    }
    right && met == sizes.len()
}

/// Returns whether two containers reply to `call` alike.
fn answer_alike<C: Streamed>(one: &mut C, other: &mut C, call: &C::Call) -> bool {
    match (one.call(C::same_call(call)), other.call(C::same_call(call))) {
        (Ok(first), Ok(second)) => first == second,
        _ => false,
    }
}

/// Returns whether two containers have equally many buckets, and reply to the looks alike.
fn are_alike<C: Streamed>(one: &mut C, other: &mut C) -> bool {
    let mut alike = one.buckets() == other.buckets();
    for number in 0..LOOKS {
        alike = answer_alike(one, other, &look::<C>(number)) && alike;
    }
    alike && one.buckets() == other.buckets()
}

/// Returns whether the one part of a finished run is as `alone`, and had these numbers of buckets.
fn is_as<C: Streamed>(finished: Finished<C>, alone: &mut C, sizes: &[usize]) -> bool {
    let mut finished = finished;
    let had = match finished.histories.as_slice() {
        [history] => has_sizes(history.as_slice(), sizes),
        _ => false,
    };
    match finished.parts.as_mut_slice() {
        [part] => are_alike(part, alone) && had,
        _ => false,
    }
}

/// Makes the calls on an owned container, and adds their replies to `replies`. Returns the container.
fn run_alone<C: Streamed>(
    alloc: Global,
    hasher: C::Hasher,
    calls: &[C::Call],
    replies: &mut Vec<C::Reply>,
) -> Result<C, AllocError>
where
    C::Hasher: Drop,
{
    let Ok(made) = C::make(alloc, 0, 0, MAXIMUM, hasher) else {
        return Err(AllocError);
    };
    let mut alone = made;
    match run(&mut alone, calls, replies) {
        Ok(()) => Ok(alone),
        Err(_refused) => Err(AllocError),
    }
}

/// Returns whether a recorded stripe is as a run on an owned container.
fn compare<C: Streamed, R: Wait>(
    rt: &R,
    alloc: Global,
    hasher: &C::Hasher,
    calls: &[C::Call],
    sizes: &[usize],
) -> Result<bool, AllocError>
where
    C::Hasher: CloneOwner + Drop,
{
    let mut replies = Vec::new(alloc);
    let mut alone: C = run_alone(alloc, hasher.clone_owner()?, calls, &mut replies)?;
    let finished = record::<C, Brand, Brand, R>(
        rt,
        alloc,
        hasher.clone_owner()?,
        Blank::new(1),
        Blank::new(1),
        calls,
        replies.as_slice(),
    )?;
    match finished {
        Some(finished) => Ok(is_as(finished, &mut alone, sizes)),
        None => Ok(false),
    }
}

// What a stream of calls showed.
#[derive(Clone, Copy, Debug, PartialEq)]
struct Shown {
    // Each call was made with keys that are present and with missing ones.
    all_calls: bool,
    // The array grew.
    growth: bool,
    // Pairs were evicted.
    evictions: bool,
    // The recorded container was as the run.
    as_run: bool,
}

/// Returns what `calls` show.
fn show_calls<C: Streamed, R: Wait>(
    rt: &R,
    alloc: Global,
    hasher: &C::Hasher,
    calls: &[C::Call],
) -> Result<Shown, AllocError>
where
    C::Hasher: CloneOwner + Drop,
{
    let came = count::<C>(alloc, hasher.clone_owner()?, calls)?;
    let as_run = compare::<C, R>(rt, alloc, hasher, calls, came.sizes.as_slice())?;
    Ok(Shown {
        all_calls: came.has_all(C::KEYED.saturating_add(2)),
        growth: came.has_grown(),
        evictions: came.evictions > 0,
        as_run,
    })
}

/// Returns what the stream of a kind shows.
fn show<C: Streamed, R: Wait>(rt: &R, alloc: Global, hasher: C::Hasher) -> Result<Shown, AllocError>
where
    C::Hasher: CloneOwner + Drop,
{
    let calls = stream::<C>(alloc)?;
    show_calls::<C, R>(rt, alloc, &hasher, calls.as_slice())
}

fn shared(alloc: Global) -> Result<Shared<Same>, AllocError> {
    Ok(Shared::new(Arc::new(alloc, Same)?))
}

const WANTED: Shown = Shown {
    all_calls: true,
    growth: true,
    evictions: false,
    as_run: true,
};

#[test]
fn recorded_map_as_run(rt: HostRuntime) -> Result<(), Fail> {
    expect_eq(
        &rt,
        show::<Map, _>(&rt, rt.alloc(), shared(rt.alloc())?)?,
        WANTED,
    );
    Ok(())
}

#[test]
fn recorded_set_as_run(rt: HostRuntime) -> Result<(), Fail> {
    expect_eq(
        &rt,
        show::<Set, _>(&rt, rt.alloc(), shared(rt.alloc())?)?,
        WANTED,
    );
    Ok(())
}

#[test]
fn recorded_index_as_run(rt: HostRuntime) -> Result<(), Fail> {
    expect_eq(
        &rt,
        show::<Index, _>(&rt, rt.alloc(), shared(rt.alloc())?)?,
        WANTED,
    );
    Ok(())
}

#[test]
fn recorded_cache_as_run(rt: HostRuntime) -> Result<(), Fail> {
    let wanted = Shown {
        evictions: true,
        ..WANTED
    };
    expect_eq(
        &rt,
        show::<Cache, _>(&rt, rt.alloc(), shared(rt.alloc())?)?,
        wanted,
    );
    Ok(())
}
