//! Plays a script from a stream to a stream.
ghost use Rattle.std.specs.Prelude.{◌≡◌, ◌≢◌, ◌⊎◌, ◌<◌, IfOk, IfSome, map};
ghost use Rattle.std.specs.List.{AllByRecursion};
ghost use Rattle.std.specs.String.{string_bytes};
ghost use Rattle.std.specs.Io.KnownBytes.{Appends};
ghost use Rattle.scc_play.specs.Finished.{MapOutput, SetOutput, IndexOutput, CacheOutput};
ghost use Rattle.scc_script.specs.Grammar.{script_of, IsWorkerCount, IsStripeCount, IsCacheStripeCount};
ghost use Rattle.scc_script.specs.Scripts.{HasCounts, meaning_of};
ghost use Rattle.scc_play.specs.Endings.{WritesAnswer, AnswersBy, Ends, HasOwners, all_calls, bad_line_text, finish_text};
ghost use Rattle.scc_play.specs.Ended.{IfPlayed, MatchEnd};
ghost use Rattle.scc_play.specs.Kinds.{MapPlayed, SetPlayed, IndexPlayed, CachePlayed};

use crate::ends::{Cause, End};
use crate::kinds::{play_cache, play_index, play_map, play_set};
use crate::reasons::bad_line_of;
use scc_calls::{CacheCall, IndexCall, MapCall, SetCall};
use scc_script::line::WorkerCall;
use scc_script::script::{Script, parse_script};
use std::alloc::{AllocError, Global};
use std::io::{self, ErrorKind, Read, Write, sink};
use std::sync::Wait;
use std::thread::Threads;

/// The run was finished, and its output is written.
pub const FINISHED: u8 = 0;

/// A line of the script isn't in the grammar. The text names the first such line.
pub const BAD_CALL: u8 = 2;

/// Memory or a thread was refused.
pub const NO_MEMORY: u8 = 3;

/// A read or a write of the streams failed.
pub const STREAM_FAILED: u8 = 4;

/// The run can't be finished: its histories, its receipts and the script don't agree.
pub const UNFINISHED: u8 = 5;

// A stream that notes whether its last read failed. So a stream that is refused memory itself differs from a script for
// which there is none.
#[derive(Drop)]
struct Watched<'r, R> {
    reader: &'r mut R,
    has_failed: bool,
}

impl<R: Read> Read for Watched<'_, R> {
    ghost remaining = { λ w. R.remaining w.reader.now };

    fn read(&mut self, buf: &mut [u8]) -> io::Result<usize> {
        let given = self.reader.read(buf);
        self.has_failed = match &given {
            Ok(_) => false,
            Err(error) => error.kind() != ErrorKind::Interrupted,
        };
        given
    }
}

// Why a script couldn't be read: there is no memory for it, or the stream failed.
enum Unread {
    Memory,
    Stream,
}

/// Reads the whole script.
fn read_script<R: Read>(alloc: Global, reader: &mut R) -> Result<Vec<u8>, Unread>
    ensures { IfOk result (λ script. IfSome (R.remaining reader.old) (λ bytes. script.items ≡ bytes)) }
{
    let mut script = Vec::new(alloc);
    let mut watched = Watched {
        reader,
        has_failed: false,
    };
    if let Err(error) = watched.read_to_end(&mut script) {
        if error.kind() == ErrorKind::OutOfMemory && !watched.has_failed {
            return Err(Unread::Memory);
        }
        return Err(Unread::Stream);
    }
    Ok(script)
}

// The text that is printed if memory is refused.
const OUT_OF_MEMORY: &str = "out of memory\n";

// The answer to a script: a text and a status.
#[derive(Drop)]
struct Answer {
    text: String,
    status: u8,
}

/// Returns the text for a script whose line `number`, counted from 1, isn't in the grammar. Fails if memory is refused.
fn bad_call_text(alloc: Global, number: usize) -> Result<String, AllocError>
    ensures { IfOk result (λ text. string_bytes text ≡ bad_line_text number) }
{
    format!(in alloc; "line {number}: bad call\n")
}

/// Returns the text for a run that was not finished. Fails if memory is refused.
fn unfinished_text(alloc: Global, cause: Cause) -> Result<String, AllocError>
    ensures { IfOk result (λ text. string_bytes text ≡ finish_text cause) }
{
    match cause {
        Cause::Missing => String::from_str(alloc, "finish 7\n"),
        Cause::Misrouted => String::from_str(alloc, "finish 8\n"),
        Cause::Disagrees => String::from_str(alloc, "finish 9\n"),
    }
}

/// Returns the answer to a script whose run is over. Fails if memory is refused.
fn answer_end(alloc: Global, end: End) -> Result<Answer, AllocError>
    ensures { IfOk result (λ a. MatchEnd end (λ text. (a.status ≡ 0) × (string_bytes a.text ≡ text))
        (λ cause. (a.status ≡ 5) × (string_bytes a.text ≡ finish_text cause))
        ((a.status ≡ 5) × (string_bytes a.text ≡ finish_text Cause.Disagrees))) }
{
    match end {
        End::Played(text) => Ok(Answer {
            text,
            status: FINISHED,
        }),
        End::Unfinished(cause) => Ok(Answer {
            text: unfinished_text(alloc, cause)?,
            status: UNFINISHED,
        }),
        End::Differs => Ok(Answer {
            text: unfinished_text(alloc, Cause::Disagrees)?,
            status: UNFINISHED,
        }),
    }
}

/// Plays a script of a map, and returns its answer.
fn answer_map<R: Threads + Wait + Sync>(
    rt: &R,
    alloc: Global,
    workers: usize,
    stripes: usize,
    calls: &[WorkerCall<MapCall<u64, u64>>],
) -> Result<Answer, AllocError>
    requires counts { IsWorkerCount workers × IsStripeCount stripes }
    requires owners { AllByRecursion (λ c. c.worker < workers) calls.now }
    ensures { IfOk result (λ a. AnswersBy (MapOutput (all_calls calls.now)) (MapPlayed workers stripes calls.now)
        workers stripes a.status (string_bytes a.text)) }
{
    answer_end(alloc, play_map(rt, alloc, workers, stripes, calls)?)
}

/// Plays a script of a set, and returns its answer.
fn answer_set<R: Threads + Wait + Sync>(
    rt: &R,
    alloc: Global,
    workers: usize,
    stripes: usize,
    calls: &[WorkerCall<SetCall<u64>>],
) -> Result<Answer, AllocError>
    requires counts { IsWorkerCount workers × IsStripeCount stripes }
    requires owners { AllByRecursion (λ c. c.worker < workers) calls.now }
    ensures { IfOk result (λ a. AnswersBy (SetOutput (all_calls calls.now)) (SetPlayed workers stripes calls.now)
        workers stripes a.status (string_bytes a.text)) }
{
    answer_end(alloc, play_set(rt, alloc, workers, stripes, calls)?)
}

/// Plays a script of an index, and returns its answer.
fn answer_index<R: Threads + Wait + Sync>(
    rt: &R,
    alloc: Global,
    workers: usize,
    stripes: usize,
    calls: &[WorkerCall<IndexCall<u64, u64>>],
) -> Result<Answer, AllocError>
    requires counts { IsWorkerCount workers × IsStripeCount stripes }
    requires owners { AllByRecursion (λ c. c.worker < workers) calls.now }
    ensures { IfOk result (λ a. AnswersBy (IndexOutput (all_calls calls.now)) (IndexPlayed workers stripes calls.now)
        workers stripes a.status (string_bytes a.text)) }
{
    answer_end(alloc, play_index(rt, alloc, workers, stripes, calls)?)
}

/// Plays a script of a cache, and returns its answer.
fn answer_cache<R: Threads + Wait + Sync>(
    rt: &R,
    alloc: Global,
    workers: usize,
    stripes: usize,
    calls: &[WorkerCall<CacheCall<u64, u64>>],
) -> Result<Answer, AllocError>
    requires counts { IsWorkerCount workers × IsCacheStripeCount stripes }
    requires owners { AllByRecursion (λ c. c.worker < workers) calls.now }
    ensures { IfOk result (λ a. AnswersBy (CacheOutput (all_calls calls.now)) (CachePlayed workers stripes calls.now)
        workers stripes a.status (string_bytes a.text)) }
{
    answer_end(alloc, play_cache(rt, alloc, workers, stripes, calls)?)
}

/// Makes the calls of a script and returns the answer, or the answer that names its first bad line.
fn answer_by_kind<R: Threads + Wait + Sync>(
    rt: &R,
    alloc: Global,
    script: Script,
) -> Result<Answer, AllocError>
    requires counts { HasCounts script }
    requires owners { HasOwners (meaning_of script) }
    ensures { IfOk result (λ a. WritesAnswer (meaning_of script) a.status (string_bytes a.text)) }
{
    match script {
        Script::Map(workers, stripes, calls) => {
            answer_map(rt, alloc, workers, stripes, calls.as_slice())
        }
        Script::Set(workers, stripes, calls) => {
            answer_set(rt, alloc, workers, stripes, calls.as_slice())
        }
        Script::Index(workers, stripes, calls) => {
            answer_index(rt, alloc, workers, stripes, calls.as_slice())
        }
        Script::Cache(workers, stripes, calls) => {
            answer_cache(rt, alloc, workers, stripes, calls.as_slice())
        }
        Script::BadLine(number) => Ok(Answer {
            text: bad_call_text(alloc, number)?,
            status: BAD_CALL,
        }),
    }
}

/// Checks the whole script, then makes its calls, and returns the answer.
fn answer_script<R: Threads + Wait + Sync>(
    rt: &R,
    alloc: Global,
    script: &[u8],
) -> Result<Answer, AllocError>
    ensures { IfOk result (λ a. WritesAnswer (script_of script.now) a.status (string_bytes a.text)) }
{
    let script = parse_script(alloc, script)?;
    answer_by_kind(rt, alloc, script)
}

/// Writes `text`, and returns `status`, or `STREAM_FAILED` if the write fails.
fn finish<W: Write>(writer: &mut W, text: &str, status: u8) -> u8
    ensures status { (result ≡ status) ⊎ (result ≡ 4) }
    ensures bytes { result ≢ 4 → Appends (W.contents writer.old) (W.contents writer.new) text.now }
{
    if writer.write_all(text.as_bytes()).is_err() || writer.flush().is_err() {
        return STREAM_FAILED;
    }
    status
}

/// Writes to `errors` the first bad line with its reason, if `status` is `BAD_CALL`. A write that fails is passed over.
fn explain<E: Write>(script: &[u8], status: u8, errors: &mut E) {
    if status == BAD_CALL {
        if let Some(bad) = bad_line_of(script) {
            let _ = writeln!(errors, "{bad}");
        }
    }
}

/// Reads a script, makes its calls on a new container of the kind that the script names, and writes their replies.
/// Returns the exit status.
///
/// The script is read whole before any line is checked. Every line is checked before any call is made. The whole
/// output is written last. Each worker makes its calls on a thread of its own, on a recorded container with the number
/// of stripes that the script names.
///
/// - [`FINISHED`]: writes for each worker, from 0, the line `worker W` and a line for each reply; then `contents N`
///   and N lines `KEY VALUE`, for a set `KEY`, in rising order of keys; then `records R`. R is the number of call
///   records; a clearing and a count make one record in each stripe.
/// - [`BAD_CALL`]: writes only the line `line N: bad call`. N, counted from 1, is the first line that isn't in the
///   grammar. No call was made.
/// - [`NO_MEMORY`]: writes only the line `out of memory`.
/// - [`STREAM_FAILED`]: if the read failed, nothing was written; if a write failed, nothing was written after it.
/// - [`UNFINISHED`]: writes only the line `finish N`. N is 7 if a pass is missing, 8 if a record is misrouted, and 9
///   if a receipt differs from its record or from the script.
pub fn play<T: Threads + Wait + Sync, R: Read, W: Write>(
    rt: &T,
    alloc: Global,
    reader: &mut R,
    writer: &mut W,
) -> u8
    ensures ends { IfSome (R.remaining reader.old)
        (λ script. Ends (W.contents writer.old) (W.contents writer.new) (script_of script) result) }
    ensures status { (result ≡ FINISHED) ⊎ ((result ≡ BAD_CALL)
        ⊎ ((result ≡ NO_MEMORY) ⊎ ((result ≡ STREAM_FAILED) ⊎ (result ≡ UNFINISHED)))) }
{
    play_explaining(rt, alloc, reader, writer, &mut sink())
}

/// Plays a script as `play` does. If a line isn't in the grammar, writes besides to `errors` a line `line N: REASON`,
/// which names the same line. Nothing else is written to `errors`, and a write to `errors` that fails changes neither
/// the output nor the status.
pub fn play_explaining<T: Threads + Wait + Sync, R: Read, W: Write, E: Write>(
    rt: &T,
    alloc: Global,
    reader: &mut R,
    writer: &mut W,
    errors: &mut E,
) -> u8
    ensures ends { IfSome (R.remaining reader.old)
        (λ script. Ends (W.contents writer.old) (W.contents writer.new) (script_of script) result) }
    ensures status { (result ≡ FINISHED) ⊎ ((result ≡ BAD_CALL)
        ⊎ ((result ≡ NO_MEMORY) ⊎ ((result ≡ STREAM_FAILED) ⊎ (result ≡ UNFINISHED)))) }
{
    let script = match read_script(alloc, reader) {
        Ok(script) => script,
        Err(Unread::Memory) => return finish(writer, OUT_OF_MEMORY, NO_MEMORY),
        Err(Unread::Stream) => return STREAM_FAILED,
    };
    let text = script.as_slice();
    match answer_script(rt, alloc, text) {
        Ok(answer) => {
            explain(text, answer.status, errors);
            finish(writer, answer.text.as_str(), answer.status)
        }
        Err(AllocError) => finish(writer, OUT_OF_MEMORY, NO_MEMORY),
    }
}
