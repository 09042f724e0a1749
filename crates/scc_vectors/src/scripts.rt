// Tests of scripts: the text that the program writes, and its exit status.
use crate::expect::expect_eq;
use scc_play::play::{BAD_CALL, FINISHED, play};
use std::process::Abort;
use std::sync::Wait;
use std::thread::Threads;

/// Plays a script, and checks the text that it writes and the status that it ends with.
fn expect_run<R: AllocGlobal + Abort + Threads + Wait + Sync>(
    rt: &R,
    script: &str,
    text: &str,
    status: u8,
) {
    let mut output = Vec::new(rt.alloc());
    let mut reader = script.as_bytes();
    let ended = play(rt, rt.alloc(), &mut reader, &mut output);
    expect_eq(rt, str::from_utf8(output.as_slice()), Ok(text));
    expect_eq(rt, ended, status);
}

#[test]
fn run_map_first_script(rt: HostRuntime) {
    expect_run(
        &rt,
        "map 1 1\n0 insert 1 10\n0 insert 1 20\n0 read 1\n0 len\n0 remove 2\n",
        "worker 0\nok\nexists 1 20\nvalue 10\ncount 1\nnone\ncontents 1\n1 10\nrecords 5\n",
        FINISHED,
    );
}

#[test]
fn run_bad_first_lines_and_arguments(rt: HostRuntime) {
    for (script, text) in [
        ("", "line 1: bad call\n"),
        ("map 1 3\n", "line 1: bad call\n"),
        ("cache 1 8\n", "line 1: bad call\n"),
        ("map 1 1\n0 insert 1\n", "line 2: bad call\n"),
    ] {
        expect_run(&rt, script, text, BAD_CALL);
    }
}

#[test]
fn run_set_without_calls(rt: HostRuntime) {
    expect_run(
        &rt,
        "set 2 2\n",
        "worker 0\nworker 1\ncontents 0\nrecords 0\n",
        FINISHED,
    );
}

#[test]
fn run_map_on_two_stripes_len_and_clear(rt: HostRuntime) {
    expect_run(
        &rt,
        "map 1 2\n0 insert 9223372036854775809 5\n0 insert 1 6\n0 len\n0 clear\n",
        "worker 0\nok\nok\ncount 2\nok\ncontents 0\nrecords 6\n",
        FINISHED,
    );
}

/// Keys 0 to 32 share a bucket of 32 slots, so the last put evicts key 0.
#[test]
fn run_cache_evicts_the_first(rt: HostRuntime) {
    expect_run(
        &rt,
        "cache 1 1\n\
         0 put 0 0\n0 put 1 1\n0 put 2 2\n0 put 3 3\n0 put 4 4\n0 put 5 5\n0 put 6 6\n0 put 7 7\n\
         0 put 8 8\n0 put 9 9\n0 put 10 10\n0 put 11 11\n0 put 12 12\n0 put 13 13\n0 put 14 14\n0 put 15 15\n\
         0 put 16 16\n0 put 17 17\n0 put 18 18\n0 put 19 19\n0 put 20 20\n0 put 21 21\n0 put 22 22\n0 put 23 23\n\
         0 put 24 24\n0 put 25 25\n0 put 26 26\n0 put 27 27\n0 put 28 28\n0 put 29 29\n0 put 30 30\n0 put 31 31\n\
         0 put 32 32\n",
        "worker 0\nok\nok\nok\nok\nok\nok\nok\nok\nok\nok\nok\nok\nok\nok\nok\nok\n\
         ok\nok\nok\nok\nok\nok\nok\nok\nok\nok\nok\nok\nok\nok\nok\nok\nevicted 0 0\ncontents 32\n\
         1 1\n2 2\n3 3\n4 4\n5 5\n6 6\n7 7\n8 8\n9 9\n10 10\n11 11\n12 12\n\
         13 13\n14 14\n15 15\n16 16\n17 17\n18 18\n19 19\n20 20\n21 21\n22 22\n23 23\n24 24\n\
         25 25\n26 26\n27 27\n28 28\n29 29\n30 30\n31 31\n32 32\n\
         records 33\n",
        FINISHED,
    );
}

#[test]
fn run_map_numbers_at_the_limits(rt: HostRuntime) {
    expect_run(
        &rt,
        "map 1 1\n0 contains 7\n0 insert 007 5\n0 insert 18446744073709551615 6\n0 read 7\n0 remove 7\n",
        "worker 0\nfalse\nok\nok\nvalue 5\npair 7 5\ncontents 1\n18446744073709551615 6\nrecords 5\n",
        FINISHED,
    );
}

#[test]
fn run_map_upsert_and_replace(rt: HostRuntime) {
    expect_run(
        &rt,
        "map 1 1\n0 upsert 1 10\n0 upsert 1 20\n0 replace 1\n0 replace 2\n0 read 2\n0 remove 1\n",
        "worker 0\nnone\nold 10\nkey 1\nnone\nnone\npair 1 20\ncontents 0\nrecords 6\n",
        FINISHED,
    );
}

#[test]
fn run_set_calls(rt: HostRuntime) {
    expect_run(
        &rt,
        "set 1 1\n0 insert 5\n0 insert 5\n0 replace 5\n0 replace 6\n0 remove 5\n",
        "worker 0\nok\nexists 5\nkey 5\nnone\nkey 5\ncontents 1\n6\nrecords 5\n",
        FINISHED,
    );
}

#[test]
fn run_index_calls(rt: HostRuntime) {
    expect_run(
        &rt,
        "index 1 1\n0 update 1 5\n0 insert 1 4\n0 update 1 5\n0 insert 1 6\n0 read 1\n0 remove 1\n0 remove 1\n",
        "worker 0\nfalse\nok\ntrue\nexists 1 6\nvalue 5\ntrue\nfalse\ncontents 0\nrecords 7\n",
        FINISHED,
    );
}

#[test]
fn run_cache_calls(rt: HostRuntime) {
    expect_run(
        &rt,
        "cache 1 1\n0 write 1 5\n0 put 1 6\n0 write 1 7\n0 get 1\n0 read 2\n0 replace 1\n",
        "worker 0\nnone\nok\nold 6\nvalue 7\nnone\nkey 1\ncontents 1\n1 7\nrecords 6\n",
        FINISHED,
    );
}

#[test]
fn run_map_two_workers_two_stripes(rt: HostRuntime) {
    expect_run(
        &rt,
        "map 2 2\n0 insert 1 10\n1 insert 9223372036854775810 20\n0 read 1\n1 read 9223372036854775810\n",
        "worker 0\nok\nvalue 10\nworker 1\nok\nvalue 20\ncontents 2\n1 10\n9223372036854775810 20\nrecords 4\n",
        FINISHED,
    );
}
