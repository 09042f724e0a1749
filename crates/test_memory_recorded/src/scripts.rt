// Scripts that are refused memory or a thread: such a script writes one text and has one status, never those of a run
// that isn't finished. The run that succeeds writes what the script must write.
use crate::expect::{expect, expect_eq};
use scc_play::play::{BAD_CALL, FINISHED, NO_MEMORY, play};
use std::io::Print;
use std::process::Abort;
use std::sync::Wait;
use std::thread::Threads;
use test_kit::refusals::{Refusal, TRIES};

/// Plays a script into an output that allocates nothing, until it isn't refused.
fn expect_script<R: AllocGlobal + Abort + Print + Threads + Wait + Sync>(
    rt: &R,
    script: &[u8],
    text: &[u8],
    status: u8,
) {
    let mut refusal = Refusal::new();
    let mut place = [0u8; 128];
    for _ in 0..TRIES {
        let mut reader = script;
        let mut writer = place.as_mut_slice();
        let answered = play(rt, rt.alloc(), &mut reader, &mut writer);
        let written = 128usize.saturating_sub(writer.len());
        if answered != NO_MEMORY {
            expect_eq(rt, answered, status);
            expect_eq(rt, place.get(..written), Some(text));
            return;
        }
        refusal.meet(rt, "a script");
        let wanted = b"out of memory\n".as_slice();
        expect_eq(rt, place.get(..written), Some(wanted));
    }
    expect(rt, false);
}

/// One worker makes its calls on a recorded map of one stripe.
#[test]
fn a_refused_script_says_so_alone(rt: HostRuntime) {
    expect_script(
        &rt,
        b"map 1 1\n0 insert 1 10\n0 len\n",
        b"worker 0\nok\ncount 1\ncontents 1\n1 10\nrecords 2\n",
        FINISHED,
    );
}

#[test]
fn a_refused_bad_script_says_so_alone(rt: HostRuntime) {
    expect_script(
        &rt,
        b"map 1 1\n0 insert 1\n",
        b"line 2: bad call\n",
        BAD_CALL,
    );
}

#[test]
fn a_refused_script_of_a_map_says_so_alone(rt: HostRuntime) {
    expect_script(
        &rt,
        b"map 2 2\n0 insert 1 10\n1 insert 9223372036854775809 20\n",
        b"worker 0\nok\nworker 1\nok\ncontents 2\n1 10\n9223372036854775809 20\nrecords 2\n",
        FINISHED,
    );
}

#[test]
fn a_refused_script_of_a_set_says_so_alone(rt: HostRuntime) {
    expect_script(
        &rt,
        b"set 2 2\n0 insert 1\n1 insert 9223372036854775809\n",
        b"worker 0\nok\nworker 1\nok\ncontents 2\n1\n9223372036854775809\nrecords 2\n",
        FINISHED,
    );
}

#[test]
fn a_refused_script_of_an_index_says_so_alone(rt: HostRuntime) {
    expect_script(
        &rt,
        b"index 2 2\n0 insert 1 10\n1 insert 9223372036854775809 20\n",
        b"worker 0\nok\nworker 1\nok\ncontents 2\n1 10\n9223372036854775809 20\nrecords 2\n",
        FINISHED,
    );
}

#[test]
fn a_refused_script_of_a_cache_says_so_alone(rt: HostRuntime) {
    expect_script(
        &rt,
        b"cache 2 2\n0 put 1 10\n1 put 9223372036854775809 20\n",
        b"worker 0\nok\nworker 1\nok\ncontents 2\n1 10\n9223372036854775809 20\nrecords 2\n",
        FINISHED,
    );
}
