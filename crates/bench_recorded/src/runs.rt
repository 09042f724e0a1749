//! Runs of all measures, one after another.
ghost use Rattle.std.specs.Prelude.{◌≡◌, ◌<◌, ◌↔◌, IsTrue};

use crate::arguments::Request;
use crate::pairs::drawn_pairs;
use crate::parts::Outcome;
use crate::recording::Recording;
use crate::report::{check, line};
use crate::{plain, recording, routed, texts};
use std::alloc::Global;
use std::io;
use std::rt::Clock;
use std::sync::Wait;

/// One run of all measures on the same pairs.
#[derive(Clone, Copy, Drop)]
struct Run {
    plain: Outcome,
    routed: Outcome,
    recorded: Recording,
    texts: Outcome,
    recorded_texts: Recording,
}

fn run_once<R: Wait + Clock>(rt: &R, alloc: Global, pairs: &[(u64, u64)]) -> io::Result<Run> {
    Ok(Run {
        plain: plain::run(rt, alloc, pairs)?,
        routed: routed::run(rt, alloc, pairs)?,
        recorded: recording::run(rt, alloc, pairs)?,
        texts: texts::run_plain(rt, alloc, pairs)?,
        recorded_texts: texts::run_recorded(rt, alloc, pairs)?,
    })
}

/// Returns whether all maps hold the same at the end, by their sums.
fn agree(run: &Run) -> bool
    ensures { IsTrue result ↔ ((run.now.routed.sum ≡ run.now.plain.sum)
        × (run.now.recorded.calls.sum ≡ run.now.plain.sum) × (run.now.recorded_texts.calls.sum ≡ run.now.texts.sum)) }
{
    run.routed.sum == run.plain.sum
        && run.recorded.calls.sum == run.plain.sum
        && run.recorded_texts.calls.sum == run.texts.sum
}

fn print_lines(rt: &impl Print, calls: u64, run: &Run) -> io::Result<()> {
    let plain = run.plain.spent;
    line(rt, "plain", plain, calls, plain)?;
    line(rt, "routed", run.routed.spent, calls, plain)?;
    line(rt, "recorded", run.recorded.calls.spent, calls, plain)?;
    line(rt, "finish", run.recorded.finish, calls, plain)?;
    let texts = run.texts.spent;
    line(rt, "texts", texts, calls, texts)?;
    line(
        rt,
        "recorded-texts",
        run.recorded_texts.calls.spent,
        calls,
        texts,
    )?;
    line(rt, "finish-texts", run.recorded_texts.finish, calls, texts)
}

fn print_checks(rt: &impl Print, run: &Run) -> io::Result<()> {
    check(rt, "plain", run.plain.sum)?;
    check(rt, "routed", run.routed.sum)?;
    check(rt, "recorded", run.recorded.calls.sum)?;
    check(rt, "texts", run.texts.sum)?;
    check(rt, "recorded-texts", run.recorded_texts.calls.sum)
}

/// Goes through all measures once to warm up and then `runs` times, and prints a line for each measure of each time.
/// Fails if the sums of one time differ.
pub(crate) fn measure<R: Wait + Clock + Print>(
    rt: &R,
    alloc: Global,
    request: Request,
) -> io::Result<()>
    requires { 0 < request.keys }
{
    let pairs = drawn_pairs(alloc, request.calls, request.keys)?;
    let mut last = run_once(rt, alloc, pairs.as_slice())?;
    let mut agreed = agree(&last);
    for _ in 0..request.runs {
        last = run_once(rt, alloc, pairs.as_slice())?;
        print_lines(rt, request.calls, &last)?;
        agreed = agreed && agree(&last);
    }
    print_checks(rt, &last)?;
    if agreed {
        Ok(())
    } else {
        Err(io::Error::from(io::ErrorKind::InvalidData))
    }
}
