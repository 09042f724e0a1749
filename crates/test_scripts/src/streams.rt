// Streams that fail at each byte in turn, while a script is read or its output is written.
use crate::expect::expect_eq;
use scc_play::play::{BAD_CALL, FINISHED, STREAM_FAILED, play};
use std::io::{Error, ErrorKind, Read, Result, Write};
use std::process::Abort;
use std::sync::Wait;
use std::thread::Threads;

const GOOD: &[u8] = b"map 1 1\n0 len\n";

const BAD: &[u8] = b"cache 1 8\n";

// Returns the bytes of `first`, and then fails.
#[derive(Drop)]
struct FailingReader<'a> {
    first: &'a [u8],
    kind: ErrorKind,
}

impl Read for FailingReader<'_> {
    fn read(&mut self, buf: &mut [u8]) -> Result<usize> {
        if self.first.is_empty() {
            return Err(Error::from(self.kind));
        }
        self.first.read(buf)
    }
}

/// Plays the script from readers that fail with `kind` after each number of bytes. Each run must write `text` and end
/// with `status`.
fn expect_reader<R: AllocGlobal + Abort + Threads + Wait + Sync>(
    rt: &R,
    script: &[u8],
    kind: ErrorKind,
    text: &[u8],
    status: u8,
) {
    for given in 0..=script.len() {
        let mut place = [0u8; 64];
        let mut reader = FailingReader {
            first: &script[..given],
            kind,
        };
        let mut writer = place.as_mut_slice();
        expect_eq(rt, play(rt, rt.alloc(), &mut reader, &mut writer), status);
        let written = 64usize.saturating_sub(writer.len());
        expect_eq(rt, place.get(..written), Some(text));
    }
}

#[test]
fn run_failing_reader(rt: HostRuntime) {
    expect_reader(&rt, GOOD, ErrorKind::Other, b"", STREAM_FAILED);
    expect_reader(&rt, BAD, ErrorKind::Other, b"", STREAM_FAILED);
}

#[test]
fn run_reader_that_is_refused_memory(rt: HostRuntime) {
    expect_reader(&rt, GOOD, ErrorKind::OutOfMemory, b"", STREAM_FAILED);
    expect_reader(&rt, BAD, ErrorKind::OutOfMemory, b"", STREAM_FAILED);
}

// Keeps the first `room` bytes that are written, and then fails. Fails at a flush if `fails_at_flush`.
#[derive(Drop)]
struct FailingWriter {
    place: [u8; 64],
    taken: usize,
    room: usize,
    fails_at_flush: bool,
}

impl FailingWriter {
    fn new(room: usize, fails_at_flush: bool) -> FailingWriter {
        FailingWriter {
            place: [0u8; 64],
            taken: 0,
            room,
            fails_at_flush,
        }
    }
}

impl Write for FailingWriter {
    fn write(&mut self, buf: &[u8]) -> Result<usize> {
        let given = buf.len().min(self.room.saturating_sub(self.taken));
        if given == 0 {
            return Err(Error::from(ErrorKind::StorageFull));
        }
        for byte in buf.iter().take(given) {
            if let Some(here) = self.place.get_mut(self.taken) {
                *here = *byte;
            }
            self.taken = self.taken.saturating_add(1);
        }
        Ok(given)
    }

    fn flush(&mut self) -> Result<()> {
        if self.fails_at_flush {
            return Err(Error::from(ErrorKind::StorageFull));
        }
        Ok(())
    }
}

/// Plays the script to writers that fail after each number of bytes too small for `text`, or at the flush. Each must
/// get the first bytes of `text`. A writer with enough room must get the whole text.
fn expect_writer<R: AllocGlobal + Abort + Threads + Wait + Sync>(
    rt: &R,
    script: &[u8],
    text: &[u8],
    status: u8,
) {
    for room in 0..=text.len() {
        for fails_at_flush in [false, true] {
            let mut reader = script;
            let mut writer = FailingWriter::new(room, fails_at_flush);
            let whole = room == text.len() && !fails_at_flush;
            expect_eq(
                rt,
                play(rt, rt.alloc(), &mut reader, &mut writer),
                if whole { status } else { STREAM_FAILED },
            );
            expect_eq(rt, writer.taken, room);
            expect_eq(rt, writer.place.get(..room), text.get(..room));
        }
    }
}

#[test]
fn run_failing_writer(rt: HostRuntime) {
    expect_writer(
        &rt,
        GOOD,
        b"worker 0\ncount 0\ncontents 0\nrecords 1\n",
        FINISHED,
    );
    expect_writer(&rt, b"", b"line 1: bad call\n", BAD_CALL);
}
