//! Reads one line of a script: its header, or a call.
ghost use Rattle.std.specs.Prelude.{◌≡◌, ◌≤◌, ◌<◌, IfSome, IsTrue};
ghost use Rattle.scc_script.specs.Grammar.{parts, call_of_arguments, call_of_name, call_of_line, header_of_line, header_of_numbers, kind_of_name, is_worker_count, is_stripe_count, IsWorkerCount, IsStripeCountOf};

use crate::fields::cut_at;
use crate::names::Named;
use crate::number::parse_number;

/// The kinds of containers.
#[derive(Clone, Copy, Debug, PartialEq)]
pub enum Kind {
    Map,
    Set,
    Index,
    Cache,
}

/// The first line of a script.
#[derive(Clone, Copy, Debug, PartialEq)]
pub struct Header {
    pub kind: Kind,
    pub workers: usize,
    pub stripes: usize,
}

/// A call, and the worker that makes it.
#[derive(Clone, Copy, Debug, PartialEq)]
pub struct WorkerCall<C> {
    pub worker: usize,
    pub call: C,
}

/// Returns the call named `name` whose arguments are the fields of `arguments`, or `None` if there is no such call.
fn call_with<C: Named>(name: &[u8], arguments: &[u8]) -> Option<C>
    ensures { result ≡ call_of_arguments C.names name.now (parts 32 arguments.now) }
{
    let Some((key, rest)) = cut_at(arguments, b' ') else {
        return C::keyed(name, parse_number(arguments)?);
    };
    match cut_at(rest, b' ') {
        Some(_) => None,
        None => C::paired(name, parse_number(key)?, parse_number(rest)?),
    }
}

/// Returns the call whose name and arguments are the fields of `text`, or `None` if there is no such call.
fn named_call<C: Named>(text: &[u8]) -> Option<C>
    ensures { result ≡ call_of_name C.names (parts 32 text.now) }
{
    match cut_at(text, b' ') {
        None => C::bare(text),
        Some((name, arguments)) => call_with(name, arguments),
    }
}

/// Returns the call that `line` means: a worker below `workers`, a call's name and exactly its arguments, with one
/// space between two fields.
///
/// Returns `None` if the line is no such call. The line has neither its line feed nor the carriage return before the
/// line feed.
pub fn parse_line<C: Named>(line: &[u8], workers: usize) -> Option<WorkerCall<C>>
    ensures { result ≡ call_of_line C.names workers line.now }
{
    let Some((worker, call)) = cut_at(line, b' ') else {
        return None;
    };
    let worker = parse_number(worker)? as usize;
    if worker < workers {
        let call = named_call(call)?;
        Some(WorkerCall { worker, call })
    } else {
        None
    }
}

/// Returns the kind named `name`, or `None` if there is no such kind.
fn kind_named(name: &[u8]) -> Option<Kind>
    ensures { result ≡ kind_of_name name.now }
{
    if name == b"map".as_slice() {
        Some(Kind::Map)
    } else if name == b"set".as_slice() {
        Some(Kind::Set)
    } else if name == b"index".as_slice() {
        Some(Kind::Index)
    } else if name == b"cache".as_slice() {
        Some(Kind::Cache)
    } else {
        None
    }
}

/// Returns whether a container of the kind may have `stripes` stripes.
fn may_divide(kind: Kind, stripes: usize) -> bool
    ensures value { result ≡ is_stripe_count kind stripes }
    ensures some { IsTrue result → IsStripeCountOf kind stripes }
{
    match kind {
        Kind::Cache => stripes == 1 || stripes == 2 || stripes == 4,
        _ => stripes == 1 || stripes == 2 || stripes == 4 || stripes == 8 || stripes == 16,
    }
}

/// Returns the header of this kind and these numbers, or `None` if the numbers are not allowed.
fn header_with(kind: Kind, workers: usize, stripes: usize) -> Option<Header>
    ensures value { result ≡ header_of_numbers kind workers stripes }
    ensures counts { IfSome result (λ h. IsWorkerCount h.workers × IsStripeCountOf h.kind h.stripes) }
{
    if workers > 0 && workers < 17 && may_divide(kind, stripes) {
        Some(Header {
            kind,
            workers,
            stripes,
        })
    } else {
        None
    }
}

/// Returns the kind that a script's first line names, with its numbers of workers and of stripes. Returns `None` if
/// `line` is no such line.
pub fn parse_header(line: &[u8]) -> Option<Header>
    ensures value { result ≡ header_of_line line.now }
    ensures counts { IfSome result (λ h. IsWorkerCount h.workers × IsStripeCountOf h.kind h.stripes) }
{
    let Some((kind, rest)) = cut_at(line, b' ') else {
        return None;
    };
    let Some((workers, stripes)) = cut_at(rest, b' ') else {
        return None;
    };
    match cut_at(stripes, b' ') {
        Some(_) => None,
        None => header_with(
            kind_named(kind)?,
            parse_number(workers)? as usize,
            parse_number(stripes)? as usize,
        ),
    }
}
