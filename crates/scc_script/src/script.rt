//! Reads a whole script.
ghost use Rattle.std.specs.Prelude.{◌≡◌, IfOk};
ghost use Rattle.scc_script.specs.Grammar.{script_of, calls_of_lines, lines_of, meaning_of_kind, IsWorkerCount, IsStripeCountOf};
ghost use Rattle.scc_script.specs.Scripts.{meaning_of, calls_or_line, HasCounts};

use crate::line::{Header, Kind, WorkerCall, parse_header, parse_line};
use crate::lines::first_line;
use crate::names::Named;
use scc_calls::{CacheCall, IndexCall, MapCall, SetCall};
use std::alloc::{AllocError, Global};

/// What a script is, once it is read.
#[derive(Drop)]
pub enum Script {
    /// Every line is good: the numbers of workers and of stripes, and the calls of a map in their order.
    Map(usize, usize, Vec<WorkerCall<MapCall<u64, u64>>>),
    /// As `Map`, with the calls of a set.
    Set(usize, usize, Vec<WorkerCall<SetCall<u64>>>),
    /// As `Map`, with the calls of an index.
    Index(usize, usize, Vec<WorkerCall<IndexCall<u64, u64>>>),
    /// As `Map`, with the calls of a cache.
    Cache(usize, usize, Vec<WorkerCall<CacheCall<u64, u64>>>),
    /// The number of the first line that isn't in the grammar, counted from 1.
    BadLine(usize),
}

// The calls of some lines in their order, or the number of the first bad line.
#[derive(Drop)]
enum Lines<C> {
    Calls(Vec<WorkerCall<C>>),
    BadLine(usize),
}

/// Returns the calls of the lines of `text`, whose first line has the number 2, by `workers` workers. Fails if memory
/// is refused.
fn parse_calls<C: Named>(alloc: Global, workers: usize, text: &[u8]) -> Result<Lines<C>, AllocError>
    ensures { IfOk result (λ lines. calls_or_line lines ≡ calls_of_lines C.names workers 2 (lines_of text.now)) }
{
    let mut calls = Vec::new(alloc);
    let mut number: usize = 2;
    let mut rest = text;
    while !rest.is_empty() {
        let (line, after) = first_line(rest);
        if !line.is_empty() {
            let Some(call) = parse_line::<C>(line, workers) else {
                return Ok(Lines::BadLine(number));
            };
            calls.push(call)?;
        }
        number += 1;
        rest = after;
    }
    Ok(Lines::Calls(calls))
}

/// Returns what the lines behind the header are. Fails if memory is refused.
fn parse_rest(alloc: Global, header: Header, rest: &[u8]) -> Result<Script, AllocError>
    requires { IsWorkerCount header.workers × IsStripeCountOf header.kind header.stripes }
    ensures value { IfOk result (λ script. meaning_of script
        ≡ meaning_of_kind header.kind header.workers header.stripes (lines_of rest.now)) }
    ensures counts { IfOk result HasCounts }
{
    let workers = header.workers;
    let stripes = header.stripes;
    match header.kind {
        Kind::Map => match parse_calls(alloc, workers, rest)? {
            Lines::Calls(calls) => Ok(Script::Map(workers, stripes, calls)),
            Lines::BadLine(number) => Ok(Script::BadLine(number)),
        },
        Kind::Set => match parse_calls(alloc, workers, rest)? {
            Lines::Calls(calls) => Ok(Script::Set(workers, stripes, calls)),
            Lines::BadLine(number) => Ok(Script::BadLine(number)),
        },
        Kind::Index => match parse_calls(alloc, workers, rest)? {
            Lines::Calls(calls) => Ok(Script::Index(workers, stripes, calls)),
            Lines::BadLine(number) => Ok(Script::BadLine(number)),
        },
        Kind::Cache => match parse_calls(alloc, workers, rest)? {
            Lines::Calls(calls) => Ok(Script::Cache(workers, stripes, calls)),
            Lines::BadLine(number) => Ok(Script::BadLine(number)),
        },
    }
}

/// Reads a script: a header, and then a call on each line that isn't empty.
///
/// Returns the calls of all lines in their order, or the number of the first bad line. Fails if memory is refused.
pub fn parse_script(alloc: Global, text: &[u8]) -> Result<Script, AllocError>
    ensures value { IfOk result (λ script. meaning_of script ≡ script_of text.now) }
    ensures counts { IfOk result HasCounts }
{
    if text.is_empty() {
        return Ok(Script::BadLine(1));
    }
    let (header, rest) = first_line(text);
    match parse_header(header) {
        None => Ok(Script::BadLine(1)),
        Some(header) => parse_rest(alloc, header, rest),
    }
}
