// The replies of each kind, on one stripe and on several, and the calls that a kind has.
use crate::expect::expect;
use crate::played::{expect_bad_line, expect_run};
use scc_play::play::FINISHED;
use std::alloc::AllocError;
use std::fmt::Write;
use std::process::Abort;

#[test]
fn run_map_each_reply(rt: HostRuntime) {
    expect_run(
        &rt,
        b"map 1 1\n0 read 3\n0 remove 3\n0 contains 3\n0 insert 3 4\n0 insert 3 5\n0 contains 3\n0 read 3\n0 len\n0 remove 3\n0 len\n",
        "worker 0\nnone\nnone\nfalse\nok\nexists 3 5\ntrue\nvalue 4\ncount 1\npair 3 4\ncount 0\ncontents 0\nrecords 10\n",
        FINISHED,
    );
}

#[test]
fn run_map_clear(rt: HostRuntime) {
    expect_run(
        &rt,
        b"map 1 1\n0 insert 1 10\n0 insert 2 20\n0 clear\n0 len\n0 insert 3 30\n",
        "worker 0\nok\nok\nok\ncount 0\nok\ncontents 1\n3 30\nrecords 5\n",
        FINISHED,
    );
}

#[test]
fn run_set_each_other_reply(rt: HostRuntime) {
    expect_run(
        &rt,
        b"set 1 1\n0 read 6\n0 remove 6\n0 contains 6\n0 insert 6\n0 read 6\n0 contains 6\n0 len\n0 clear\n0 len\n",
        "worker 0\nnone\nnone\nfalse\nok\nkey 6\ntrue\ncount 1\nok\ncount 0\ncontents 0\nrecords 9\n",
        FINISHED,
    );
}

#[test]
fn run_index_each_other_reply(rt: HostRuntime) {
    expect_run(
        &rt,
        b"index 1 1\n0 read 6\n0 contains 6\n0 insert 6 7\n0 contains 6\n0 len\n0 clear\n0 len\n",
        "worker 0\nnone\nfalse\nok\ntrue\ncount 1\nok\ncount 0\ncontents 0\nrecords 7\n",
        FINISHED,
    );
}

#[test]
fn run_cache_each_other_reply(rt: HostRuntime) {
    expect_run(
        &rt,
        b"cache 1 1\n0 get 3\n0 contains 3\n0 remove 3\n0 put 3 4\n0 put 3 5\n0 contains 3\n0 len\n0 remove 3\n0 put 4 4\n0 clear\n0 len\n",
        "worker 0\nnone\nfalse\nnone\nok\nexists 3 5\ntrue\ncount 1\npair 3 4\nok\nok\ncount 0\ncontents 0\nrecords 11\n",
        FINISHED,
    );
}

#[test]
fn run_kinds_have_their_own_calls(rt: HostRuntime) {
    for script in [
        "set 1 1\n0 insert 5 6\n",
        "set 1 1\n0 upsert 5\n",
        "index 1 1\n0 upsert 5 6\n",
        "index 1 1\n0 replace 5\n",
        "map 1 1\n0 update 5 6\n",
        "map 1 1\n0 get 5\n",
        "map 1 1\n0 put 5 6\n",
        "cache 1 1\n0 insert 5 6\n",
        "cache 1 1\n0 put 5\n",
        "cache 1 1\n0 upsert 5 6\n",
    ] {
        expect_bad_line(&rt, script.as_bytes(), 2);
    }
}

#[test]
fn run_each_kind_on_stripes(rt: HostRuntime) {
    for (script, text) in [
        (
            "set 1 4\n0 insert 5\n0 insert 5\n0 replace 6\n0 remove 5\n0 len\n",
            "worker 0\nok\nexists 5\nnone\nkey 5\ncount 1\ncontents 1\n6\nrecords 8\n",
        ),
        (
            "index 1 16\n0 update 1 5\n0 insert 1 4\n0 update 1 5\n0 read 1\n0 contains 2\n",
            "worker 0\nfalse\nok\ntrue\nvalue 5\nfalse\ncontents 1\n1 5\nrecords 5\n",
        ),
        (
            "cache 2 4\n1 write 1 5\n1 put 1 6\n1 get 1\n1 clear\n",
            "worker 0\nworker 1\nnone\nok\nvalue 6\nok\ncontents 0\nrecords 7\n",
        ),
        (
            "map 16 1\n15 insert 7 8\n",
            "worker 0\nworker 1\nworker 2\nworker 3\nworker 4\nworker 5\nworker 6\nworker 7\nworker 8\nworker 9\nworker 10\nworker 11\nworker 12\nworker 13\nworker 14\nworker 15\nok\ncontents 1\n7 8\nrecords 1\n",
        ),
    ] {
        expect_run(&rt, script.as_bytes(), text, FINISHED);
    }
}

/// Writes a worker's calls: insertions and reads of 8 keys with themselves as values.
fn write_calls(script: &mut String, worker: u64) -> Result<(), AllocError> {
    for j in 0..8u64 {
        let key = (j << 61) + worker % 16;
        writeln!(script, "{worker} insert {key} {key}\n{worker} read {key}")?;
    }
    Ok(())
}

/// Writes the calls of all workers.
fn write_script(script: &mut String) -> Result<(), AllocError> {
    script.push_str("map 16 16\n")?;
    for worker in 0..16u64 {
        write_calls(script, worker)?;
    }
    Ok(())
}

/// Writes the replies to a worker.
fn write_replies(text: &mut String, worker: u64) -> Result<(), AllocError> {
    writeln!(text, "worker {worker}")?;
    for j in 0..8u64 {
        let key = (j << 61) + worker % 16;
        writeln!(text, "ok\nvalue {key}")?;
    }
    Ok(())
}

/// Writes the replies to all workers.
fn write_all_replies(text: &mut String) -> Result<(), AllocError> {
    for worker in 0..16u64 {
        write_replies(text, worker)?;
    }
    Ok(())
}

/// Writes the pairs of all workers with rising keys, and the number of records.
fn write_contents(text: &mut String) -> Result<(), AllocError> {
    text.push_str("contents 128\n")?;
    for j in 0..8u64 {
        for worker in 0..16u64 {
            let key = (j << 61) + worker;
            writeln!(text, "{key} {key}")?;
        }
    }
    text.push_str("records 256\n")
}

#[test]
fn run_of_sixteen_workers_is_the_same_each_time(rt: HostRuntime) {
    let mut script = String::new(rt.alloc());
    let mut text = String::new(rt.alloc());
    let is_written = write_script(&mut script).is_ok()
        && write_all_replies(&mut text).is_ok()
        && write_contents(&mut text).is_ok();
    expect(&rt, is_written);
    for _ in 0..20 {
        expect_run(&rt, script.as_bytes(), text.as_str(), FINISHED);
    }
}
