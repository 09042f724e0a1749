// The errors of a program that refusals become by `?`.
use crate::expect::expect;
use scc_calls::Refused;
use scc_common::{InsertError, KeyError, MakeError, WalkError};
use scc_history::CallError;
use scc_recorded::FinishError;
use scc_stripes::workers::RunError;
use std::alloc::AllocError;
use std::io::{self, ErrorKind};
use std::process::Abort;

/// Checks that the error is of `kind`.
fn expect_kind<R: Abort>(rt: &R, error: &io::Error, kind: ErrorKind) {
    expect(rt, error.kind() == kind);
}

/// Returns the refusal as an error of a program that allocates.
fn allocates<E>(refusal: E) -> Result<(), AllocError>
where
    AllocError: From<E>,
{
    Err(refusal)?
}

#[test]
fn refusals_of_insertions_are_there_or_out_of_memory(rt: HostRuntime) {
    let there = io::Error::from(InsertError::Exists((1u64, 2u64)));
    expect_kind(&rt, &there, ErrorKind::AlreadyExists);
    let refused = io::Error::from(InsertError::Memory((1u64, 2u64)));
    expect_kind(&rt, &refused, ErrorKind::OutOfMemory);
    let there = io::Error::from(KeyError::Exists(1u64));
    expect_kind(&rt, &there, ErrorKind::AlreadyExists);
    let refused = io::Error::from(KeyError::Memory(1u64));
    expect_kind(&rt, &refused, ErrorKind::OutOfMemory);
}

#[test]
fn refusals_of_memory_are_out_of_memory(rt: HostRuntime) {
    for refused in [
        io::Error::from(MakeError),
        io::Error::from(WalkError),
        io::Error::from(Refused),
        io::Error::from(CallError::Room),
        io::Error::from(CallError::Container),
        io::Error::from(FinishError::Memory),
        io::Error::from(RunError::Start),
    ] {
        expect_kind(&rt, &refused, ErrorKind::OutOfMemory);
    }
    expect(&rt, allocates(MakeError).is_err());
    expect(&rt, allocates(WalkError).is_err());
}

#[test]
fn runs_that_are_wrong_are_invalid_data(rt: HostRuntime) {
    let misrouted = FinishError::Misrouted {
        stripe: 1,
        index: 2,
    };
    let disagrees = FinishError::Disagrees {
        pass: 1,
        receipt: 2,
    };
    for cause in [FinishError::Missing, misrouted, disagrees] {
        expect_kind(&rt, &io::Error::from(cause), ErrorKind::InvalidData);
    }
    for cause in [RunError::Gate, RunError::Stopped] {
        expect_kind(&rt, &io::Error::from(cause), ErrorKind::Other);
    }
}
