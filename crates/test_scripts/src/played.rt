// Plays scripts and checks the output.
use crate::expect::{expect, expect_eq};
use scc_play::play::{BAD_CALL, play};
use std::process::Abort;
use std::sync::Wait;
use std::thread::Threads;

/// Plays a script, which must write `text` and end with `status`.
pub(crate) fn expect_run<R: AllocGlobal + Abort + Threads + Wait + Sync>(
    rt: &R,
    script: &[u8],
    text: &str,
    status: u8,
) {
    let mut output = Vec::new(rt.alloc());
    let mut reader = script;
    let ended = play(rt, rt.alloc(), &mut reader, &mut output);
    expect_eq(rt, str::from_utf8(output.as_slice()), Ok(text));
    expect_eq(rt, ended, status);
}

/// Plays a script, whose first bad line must have the number `number`.
pub(crate) fn expect_bad_line<R: AllocGlobal + Abort + Threads + Wait + Sync>(
    rt: &R,
    script: &[u8],
    number: usize,
) {
    match format!(in rt.alloc(); "line {number}: bad call\n") {
        Ok(text) => expect_run(rt, script, text.as_str(), BAD_CALL),
        Err(_) => expect(rt, false),
    }
}
