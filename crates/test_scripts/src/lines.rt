// Scripts line by line: the lines of the grammar, and the order of the output.
use crate::expect::expect;
use crate::played::{expect_bad_line, expect_run};
use scc_play::play::FINISHED;
use std::alloc::AllocError;
use std::fmt::Write;
use std::process::Abort;
use std::sync::Wait;
use std::thread::Threads;

#[test]
fn run_contents_in_rising_order(rt: HostRuntime) {
    expect_run(
        &rt,
        b"map 1 1\n0 insert 10 1\n0 insert 9 2\n0 insert 100 3\n0 contains 9\n0 len\n",
        "worker 0\nok\nok\nok\ntrue\ncount 3\ncontents 3\n9 2\n10 1\n100 3\nrecords 5\n",
        FINISHED,
    );
}

#[test]
fn run_bad_headers(rt: HostRuntime) {
    for script in [
        "\n",
        "\r\n",
        "\nmap 1 1\n",
        "map",
        "map 1",
        "map 1 1 \n",
        "map 1 1 1\n",
        " map 1 1\n",
        "map  1 1\n",
        "Map 1 1\n",
        "map 0 1\n",
        "map 17 1\n",
        "map 1 0\n",
        "map 1 3\n",
        "map 1 5\n",
        "map 1 32\n",
        "cache 1 8\n",
        "cache 1 16\n",
        "map +1 1\n",
        "map 1 1\r\r\n",
        "map 1 18446744073709551617\n",
    ] {
        expect_bad_line(&rt, script.as_bytes(), 1);
    }
    expect_bad_line(&rt, b"map 1 1\xff\n", 1);
}

/// Plays a script in which `line` is the first bad line.
fn expect_bad_call<R: AllocGlobal + Abort + Threads + Wait + Sync>(rt: &R, line: &str) {
    match format!(in rt.alloc(); "map 1 1\n0 len\n\n{line}\n0 bad\n") {
        Ok(script) => expect_bad_line(rt, script.as_bytes(), 4),
        Err(_) => expect(rt, false),
    }
}

#[test]
fn run_bad_lines(rt: HostRuntime) {
    for line in [
        "0",
        "0 ",
        " 0 len",
        "0  len",
        "0 len ",
        "0 len 1",
        "0 Len",
        "0 size",
        "1 len",
        "+0 len",
        " len",
        "len",
        "0 read",
        "0 read ",
        "0 read 1 2",
        "0 read 1 ",
        "0 read x",
        "0 read +1",
        "0 read -1",
        "0 read 1x",
        "0 read 18446744073709551616",
        "0 read 99999999999999999999999999",
        "0 read 0x10",
        "0 read \u{661}",
        "0 insert 1",
        "0 insert 1 ",
        "0 insert  1 2",
        "0 insert 1  2",
        "0 insert 1 2 3",
        "0 insert 1 2 ",
        "0 insert 1 18446744073709551616",
        "0 upsert 1",
        "0 upsert 1 2 3",
        "0 replace",
        "0 replace 1 2",
        "0 put 1 2",
        "0\tlen",
        "0 len\r\r",
    ] {
        expect_bad_call(&rt, line);
    }
}

#[test]
fn run_bytes_that_are_no_text(rt: HostRuntime) {
    expect_bad_line(&rt, b"map 1 1\n0 len\n\xff\xfe\n", 3);
    expect_bad_line(&rt, b"map 1 1\n0 read \x80\n", 2);
    expect_bad_line(&rt, b"map 1 1\n0 len\n\0\n", 3);
}

#[test]
fn run_line_ends(rt: HostRuntime) {
    let text = "worker 0\nok\ncount 1\ncontents 1\n1 2\nrecords 2\n";
    for script in [
        "map 1 1\n0 insert 1 2\n0 len\n",
        "map 1 1\n0 insert 1 2\n0 len",
        "map 1 1\r\n0 insert 1 2\r\n0 len\r\n",
        "map 1 1\r\n0 insert 1 2\n0 len\r",
        "map 1 1\n\n0 insert 1 2\n\r\n\n0 len\n\n\r",
        "map 01 0001\n00 insert 01 02\n0 len\n\n\n",
    ] {
        expect_run(&rt, script.as_bytes(), text, FINISHED);
    }
    for script in ["map 1 1", "map 1 1\n", "map 1 1\r\n\n"] {
        let nothing = "worker 0\ncontents 0\nrecords 0\n";
        expect_run(&rt, script.as_bytes(), nothing, FINISHED);
    }
}

/// Returns one of 1000 keys. They differ in their first bits, so they fill different buckets.
fn key_of(number: u64) -> u64 {
    (number % 1000) << 54
}

/// Writes 20,000 insertions. The keys repeat after each 1000.
fn write_calls(text: &mut String) -> Result<(), AllocError> {
    text.push_str("map 1 1\n")?;
    for i in 0..20_000u64 {
        write_line(text, "0 insert ", key_of(i), i)?;
    }
    Ok(())
}

/// Writes the replies of these insertions: the first insertion of a key succeeds, and a later one returns its pair.
fn write_replies(text: &mut String) -> Result<(), AllocError> {
    text.push_str("worker 0\n")?;
    for i in 0..20_000u64 {
        if i < 1000 {
            text.push_str("ok\n")?;
        } else {
            write_line(text, "exists ", key_of(i), i)?;
        }
    }
    Ok(())
}

/// Writes the contents after these insertions.
fn write_contents(text: &mut String) -> Result<(), AllocError> {
    text.push_str("contents 1000\n")?;
    for number in 0..1000u64 {
        write_line(text, "", key_of(number), number)?;
    }
    text.push_str("records 20000\n")
}

/// Writes a line that ends with two numbers.
fn write_line(text: &mut String, begin: &str, first: u64, second: u64) -> Result<(), AllocError> {
    writeln!(text, "{begin}{first} {second}")
}

#[test]
fn run_many_calls(rt: HostRuntime) {
    let mut script = String::new(rt.alloc());
    let mut text = String::new(rt.alloc());
    let is_written = write_calls(&mut script).is_ok()
        && write_replies(&mut text).is_ok()
        && write_contents(&mut text).is_ok();
    expect(&rt, is_written);
    expect_run(&rt, script.as_bytes(), text.as_str(), FINISHED);
}

#[test]
fn run_contents_at_both_ends_of_the_numbers(rt: HostRuntime) {
    expect_run(
        &rt,
        b"map 1 1\n0 insert 18446744073709551615 9223372036854775808\n0 insert 1 18446744073709551615\n0 read 18446744073709551615\n",
        "worker 0\nok\nok\nvalue 9223372036854775808\ncontents 2\n1 18446744073709551615\n18446744073709551615 9223372036854775808\nrecords 3\n",
        FINISHED,
    );
}

#[test]
fn run_bad_workers_and_stripes(rt: HostRuntime) {
    expect_bad_line(&rt, b"map 2 2\n1 len\n2 len\n", 3);
}
