// The text of each refusal.
use crate::expect::{expect, expect_eq};
use scc_calls::Refused;
use scc_common::{InsertError, KeyError, MakeError, WalkError};
use scc_history::CallError;
use scc_recorded::FinishError;
use scc_stripes::workers::RunError;
use std::fmt::Display;
use std::process::Abort;

/// Checks that a refusal is printed as `text`.
fn expect_text<R: AllocGlobal + Abort, E: Display>(rt: &R, refusal: &E, text: &str) {
    match format!(in rt.alloc(); "{refusal}") {
        Ok(printed) => expect_eq(rt, printed.as_str(), text),
        Err(_) => expect(rt, false),
    }
}

#[test]
fn refusals_of_insertions_have_their_texts(rt: HostRuntime) {
    expect_text(&rt, &InsertError::Exists((1u64, 2u64)), "key exists");
    expect_text(&rt, &InsertError::Memory((1u64, 2u64)), "out of memory");
    expect_text(&rt, &KeyError::Exists(1u64), "key exists");
    expect_text(&rt, &KeyError::Memory(1u64), "out of memory");
}

#[test]
fn refusals_of_making_and_walks_have_their_texts(rt: HostRuntime) {
    expect_text(&rt, &MakeError, "out of memory");
    expect_text(&rt, &WalkError, "out of memory");
    expect_text(&rt, &Refused, "out of memory");
}

#[test]
fn refusals_of_recorded_calls_have_their_texts(rt: HostRuntime) {
    for (refusal, text) in [
        (CallError::Room, "no room for the record"),
        (CallError::Container, "out of memory"),
    ] {
        expect_text(&rt, &refusal, text);
    }
}

#[test]
fn refusals_of_a_finish_have_their_texts(rt: HostRuntime) {
    let misrouted = FinishError::Misrouted {
        stripe: 1,
        index: 2,
    };
    let disagrees = FinishError::Disagrees {
        pass: 1,
        receipt: 2,
    };
    for (refusal, text) in [
        (FinishError::Missing, "a pass is missing"),
        (misrouted, "misrouted record"),
        (disagrees, "receipt disagrees"),
        (FinishError::Memory, "out of memory"),
    ] {
        expect_text(&rt, &refusal, text);
    }
}

#[test]
fn refusals_of_workers_have_their_texts(rt: HostRuntime) {
    for (refusal, text) in [
        (RunError::Start, "no thread"),
        (RunError::Gate, "gate gave up"),
        (RunError::Stopped, "worker stopped"),
    ] {
        expect_text(&rt, &refusal, text);
    }
}
