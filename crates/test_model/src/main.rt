//! Calls containers of every kind and form: at random, as a hostile caller, with values that note their drop, and
//! past a million slots. Prints a line for each case that says whether all was as on a plain list.
//!
//! The argument is the number of calls of each random run, 1000 if there is none. A run takes time proportional to
//! the calls times the pairs. The status is 0 if all was right, 1 if something was wrong, 2 if the argument is no
//! number, and 3 if memory was refused or a line could not be written.
#![tactic(auto)]

mod crowded;
mod draws;
mod equal_keys;
mod kept;
mod lives;
mod run;
mod sizes;
mod stops;
mod tally;
mod tokens;
mod twins;
mod versions;

use crowded::run_crowded;
use equal_keys::run_equal_keys;
use lives::run_lives;
use run::{Forgetful, Run};
use sizes::run_sizes;
use std::env;
use std::process::ExitCode;
use std::rt::Env;
use std::sync::Wait;
use stops::run_stops;
use test_forms_ruled::every::in_every_form;
use test_kit::masked::{ALIKE, SAME, ZERO};
use tokens::run_tokens;
use twins::run_twins;
use versions::run_versions;

/// The calls of a run if there is no argument.
const USUAL_CALLS: u64 = 1000;

/// Makes `run` under its hasher, and once more with a list that forgets a pair.
fn run_under<R: Wait + AllocGlobal + Print>(rt: &R, run: Run, what: &str, wrong: &str) -> u8 {
    let right = in_every_form(rt, &run, what, run.hasher);
    right.max(in_every_form(rt, &Forgetful(run), wrong, run.hasher))
}

/// Makes runs of `calls` calls under each hasher.
fn run_all<R: Wait + AllocGlobal + Print>(rt: &R, calls: u64) -> u8 {
    let zero = Run {
        hasher: ZERO,
        calls,
        mask: 255,
        waits: false,
        grows: calls == USUAL_CALLS,
    };
    let alike = Run {
        hasher: ALIKE,
        calls,
        mask: 511,
        waits: calls == USUAL_CALLS,
        grows: false,
    };
    let same = Run {
        hasher: SAME,
        calls,
        mask: 511,
        waits: calls == USUAL_CALLS,
        grows: false,
    };
    let zero = run_under(
        rt,
        zero,
        "random calls, all hashes 0",
        "a lost pair is found out, all hashes 0",
    );
    let alike = run_under(
        rt,
        alike,
        "random calls, one tag",
        "a lost pair is found out, one tag",
    );
    let same = run_under(
        rt,
        same,
        "random calls, keys as hashes",
        "a lost pair is found out, keys as hashes",
    );
    zero.max(alike).max(same)
}

/// Tries the cases of hostile callers, of drops and of great sizes.
fn run_cases<R: Wait + AllocGlobal + Print>(rt: &R) -> u8 {
    let hostile = run_stops(rt).max(run_equal_keys(rt)).max(run_tokens(rt));
    let dropped = run_lives(rt).max(run_versions(rt));
    hostile.max(dropped).max(run_sizes(rt)).max(run_crowded(rt))
}

/// Returns the number in the argument, or the usual number if there is none.
fn calls_asked<R: Env + Alloc>(rt: &R) -> Option<u64> {
    match env::args(rt) {
        Ok(mut words) => match words.nth(1) {
            Some(word) => word.parse().ok(),
            None => Some(USUAL_CALLS),
        },
        Err(_) => None,
    }
}

fn main(rt: HostRuntime) -> ExitCode {
    match calls_asked(&rt) {
        Some(calls) => {
            let worst = run_all(&rt, calls).max(run_twins(&rt));
            ExitCode::from(worst.max(run_cases(&rt)))
        }
        None => ExitCode::from(2),
    }
}
