// Why a line is bad, as a line on standard error says.
use crate::expect::{expect, expect_eq};
use scc_play::play::{BAD_CALL, FINISHED, play_explaining};
use std::process::Abort;
use std::sync::Wait;
use std::thread::Threads;

// A script, the number of its first bad line, and the reason.
const BAD: [(&str, usize, &str); 44] = [
    ("", 1, "the script is empty"),
    ("\n", 1, "the first line is empty"),
    ("\r\nmap 1 1\n", 1, "the first line is empty"),
    (
        "map  1 1\n",
        1,
        "one space stands between two fields, and none at an end",
    ),
    (
        "map 1 1 \n",
        1,
        "one space stands between two fields, and none at an end",
    ),
    (
        " map 1 1\n",
        1,
        "one space stands between two fields, and none at an end",
    ),
    (
        "map",
        1,
        "the first line is a kind and the numbers of workers and stripes",
    ),
    (
        "set 1\n",
        1,
        "the first line is a kind and the numbers of workers and stripes",
    ),
    (
        "set 1 1 1\n",
        1,
        "the first line is a kind and the numbers of workers and stripes",
    ),
    (
        "Map 1 1\n",
        1,
        "unknown kind 'Map': a kind is map, set, index or cache",
    ),
    (
        "0 len\n",
        1,
        "unknown kind '0': a kind is map, set, index or cache",
    ),
    (
        "map +1 1\n",
        1,
        "'+1' is no number up to 18446744073709551615",
    ),
    (
        "map 1 one\n",
        1,
        "'one' is no number up to 18446744073709551615",
    ),
    (
        "map 1 1\r\r\n",
        1,
        "'1\\r' is no number up to 18446744073709551615",
    ),
    ("map 0 1\n", 1, "0 workers: a script has 1 to 16"),
    ("map 17 3\n", 1, "17 workers: a script has 1 to 16"),
    ("map 1 3\n", 1, "3 stripes: a map has 1, 2, 4, 8 or 16"),
    ("set 1 0\n", 1, "0 stripes: a set has 1, 2, 4, 8 or 16"),
    (
        "index 1 32\n",
        1,
        "32 stripes: an index has 1, 2, 4, 8 or 16",
    ),
    ("cache 1 8\n", 1, "8 stripes: a cache has 1, 2 or 4"),
    ("map 2 1\n0 len\n4 len\n", 3, "worker 4 isn't below 2"),
    ("map 2 1\n\n\n2 bad\n", 4, "worker 2 isn't below 2"),
    (
        "map 1 1\nlen\n",
        2,
        "'len' is no number up to 18446744073709551615",
    ),
    (
        "map 1 1\n-1 len\n",
        2,
        "'-1' is no number up to 18446744073709551615",
    ),
    ("map 1 1\n0\n", 2, "a call comes after the worker"),
    (
        "map 1 1\n0 \n",
        2,
        "one space stands between two fields, and none at an end",
    ),
    (
        "map 1 1\n0 insert 1  2\n",
        2,
        "one space stands between two fields, and none at an end",
    ),
    ("map 1 1\n0 inser 1 2\n", 2, "unknown call 'inser'"),
    ("map 1 1\n0 Len\n", 2, "unknown call 'Len'"),
    ("map 1 1\r\n0 len\r\r\n", 2, "unknown call 'len\\r'"),
    ("map 1 1\n0 put 1 2\n", 2, "a map has no call 'put'"),
    ("set 1 1\n0 upsert 1 2\n", 2, "a set has no call 'upsert'"),
    (
        "index 1 1\n0 replace 1\n",
        2,
        "an index has no call 'replace'",
    ),
    (
        "cache 1 1\n0 insert 1 2\n",
        2,
        "a cache has no call 'insert'",
    ),
    ("map 1 1\n0 insert 1\n", 2, "insert takes 2 arguments"),
    ("map 1 1\n0 insert 1 2 3\n", 2, "insert takes 2 arguments"),
    ("set 1 1\n0 insert 1 2\n", 2, "insert takes 1 argument"),
    ("cache 1 1\n0 get\n", 2, "get takes 1 argument"),
    ("map 1 1\n0 len 1\n", 2, "len takes no arguments"),
    ("map 1 1\n0 clear x\n", 2, "clear takes no arguments"),
    (
        "map 1 1\n0 read 99999999999999999999\n",
        2,
        "'99999999999999999999' is no number up to 18446744073709551615",
    ),
    (
        "map 1 1\n0 insert 1 0x10\n0 bad\n",
        2,
        "'0x10' is no number up to 18446744073709551615",
    ),
    (
        "map 1 1\n0 1234567890123456789012345678901234567890\n",
        2,
        "unknown call '1234567890123456789012345678901234567890'",
    ),
    (
        "map 1 1\n0 12345678901234567890123456789012345678901\n",
        2,
        "unknown call '1234567890123456789012345678901234567890..'",
    ),
];

/// Plays a script, which writes these texts to standard output and to standard error.
fn expect_texts<R: AllocGlobal + Abort + Threads + Wait + Sync>(
    rt: &R,
    script: &[u8],
    output: &str,
    errors: &str,
    status: u8,
) {
    let mut written = Vec::new(rt.alloc());
    let mut said = Vec::new(rt.alloc());
    let mut reader = script;
    let ended = play_explaining(rt, rt.alloc(), &mut reader, &mut written, &mut said);
    expect_eq(rt, str::from_utf8(written.as_slice()), Ok(output));
    expect_eq(rt, str::from_utf8(said.as_slice()), Ok(errors));
    expect_eq(rt, ended, status);
}

/// Plays a script whose first bad line has this number, and which is bad for this reason.
fn expect_reason<R: AllocGlobal + Abort + Threads + Wait + Sync>(
    rt: &R,
    script: &[u8],
    number: usize,
    reason: &str,
) {
    let output = format!(in rt.alloc(); "line {number}: bad call\n");
    let errors = format!(in rt.alloc(); "line {number}: {reason}\n");
    match (output, errors) {
        (Ok(output), Ok(errors)) => {
            expect_texts(rt, script, output.as_str(), errors.as_str(), BAD_CALL)
        }
        _ => expect(rt, false),
    }
}

#[test]
fn bad_lines_have_their_reasons(rt: HostRuntime) {
    for (script, number, reason) in BAD {
        expect_reason(&rt, script.as_bytes(), number, reason);
    }
}

#[test]
fn reasons_escape_bytes_that_are_no_text(rt: HostRuntime) {
    expect_reason(&rt, b"map 1 1\n0 \xff\n", 2, "unknown call '\\xff'");
    expect_reason(
        &rt,
        b"m\xc3p 1 1\n",
        1,
        "unknown kind 'm\\xc3p': a kind is map, set, index or cache",
    );
    expect_reason(
        &rt,
        b"map 1 1\n0\tlen\n",
        2,
        "'0\\tlen' is no number up to 18446744073709551615",
    );
}

#[test]
fn good_scripts_have_no_reason(rt: HostRuntime) {
    let output = "worker 0\ncount 0\ncontents 0\nrecords 1\n";
    expect_texts(&rt, b"map 1 1\n\n0 len\n", output, "", FINISHED);
}

/// Standard error that fails changes nothing.
#[test]
fn a_reason_that_cannot_be_written_is_passed_over(rt: HostRuntime) {
    let mut written = Vec::new(rt.alloc());
    let mut place = [0u8; 4];
    let mut errors = place.as_mut_slice();
    let mut reader = b"map 1 3\n".as_slice();
    let ended = play_explaining(&rt, rt.alloc(), &mut reader, &mut written, &mut errors);
    expect_eq(&rt, ended, BAD_CALL);
    expect_eq(&rt, written.as_slice(), b"line 1: bad call\n".as_slice());
}
