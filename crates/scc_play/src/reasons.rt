//! Why a line of a script isn't in the grammar. No contract says which reason is found: the answer to a script doesn't
//! depend on it.

use scc_calls::{CacheCall, IndexCall, MapCall, SetCall};
use scc_script::line::{Header, Kind, parse_header, parse_line};
use scc_script::lines::without_return;
use scc_script::names::Named;
use scc_script::number::parse_number;
use std::fmt::{self, Display, Formatter, Write};

/// Why a line isn't in the grammar.
#[derive(Clone, Copy, Debug, PartialEq)]
pub enum Reason<'a> {
    /// The script has no byte.
    EmptyScript,
    /// The first line is empty.
    EmptyHeader,
    /// Two spaces stand side by side, or a space begins or ends the line.
    EmptyField,
    /// The first line hasn't three fields.
    HeaderFields,
    /// The field names no kind.
    UnknownKind(&'a [u8]),
    /// This number of workers isn't from 1 to 16.
    Workers(u64),
    /// A container of the kind can't have this number of stripes.
    Stripes(Kind, u64),
    /// The field is no number below 2^64.
    NotNumber(&'a [u8]),
    /// The first number isn't below the second, which is the number of workers.
    Worker(u64, usize),
    /// A worker stands alone in the line.
    NoCall,
    /// The field names no call of any kind.
    UnknownCall(&'a [u8]),
    /// The field names a call, but none of this kind.
    CallOfAnotherKind(Kind, &'a [u8]),
    /// The call of this name takes this number of arguments.
    Arguments(&'a [u8], usize),
    /// None of the above.
    Other,
}

/// The first line of a script that isn't in the grammar. Its lines are counted from 1.
#[derive(Clone, Copy, Debug, PartialEq)]
pub struct BadLine<'a> {
    pub number: usize,
    pub reason: Reason<'a>,
}

/// The greatest number of bytes of a field that a text shows.
const SHOWN: usize = 40;

/// Writes the first bytes of a field between quotes. A byte that isn't a visible ASCII character is escaped.
fn write_field<W: Write>(f: &mut Formatter<W>, field: &[u8]) -> fmt::Result {
    let shown = field.get(..SHOWN).unwrap_or(field);
    let dots = if field.len() > SHOWN { ".." } else { "" };
    write!(f, "'{}{dots}'", shown.escape_ascii())
}

/// Returns the kind with its article.
fn a_kind(kind: Kind) -> &'static str {
    match kind {
        Kind::Map => "a map",
        Kind::Set => "a set",
        Kind::Index => "an index",
        Kind::Cache => "a cache",
    }
}

/// Returns the numbers of stripes that a container of the kind may have.
fn stripes_of(kind: Kind) -> &'static str {
    match kind {
        Kind::Cache => "1, 2 or 4",
        _ => "1, 2, 4, 8 or 16",
    }
}

impl Display for Reason<'_> {
    fn fmt<W: Write>(&self, f: &mut Formatter<W>) -> fmt::Result {
        match *self {
            Reason::EmptyScript => write!(f, "the script is empty"),
            Reason::EmptyHeader => write!(f, "the first line is empty"),
            Reason::EmptyField => write!(
                f,
                "one space stands between two fields, and none at an end"
            ),
            Reason::HeaderFields => write!(
                f,
                "the first line is a kind and the numbers of workers and stripes"
            ),
            Reason::UnknownKind(field) => {
                write!(f, "unknown kind ")?;
                write_field(f, field)?;
                write!(f, ": a kind is map, set, index or cache")
            }
            Reason::Workers(workers) => write!(f, "{workers} workers: a script has 1 to 16"),
            Reason::Stripes(kind, stripes) => {
                let (kind, few) = (a_kind(kind), stripes_of(kind));
                write!(f, "{stripes} stripes: {kind} has {few}")
            }
            Reason::NotNumber(field) => {
                write_field(f, field)?;
                let most = u64::MAX;
                write!(f, " is no number up to {most}")
            }
            Reason::Worker(worker, workers) => write!(f, "worker {worker} isn't below {workers}"),
            Reason::NoCall => write!(f, "a call comes after the worker"),
            Reason::UnknownCall(name) => {
                write!(f, "unknown call ")?;
                write_field(f, name)
            }
            Reason::CallOfAnotherKind(kind, name) => {
                let kind = a_kind(kind);
                write!(f, "{kind} has no call ")?;
                write_field(f, name)
            }
            Reason::Arguments(name, number) => {
                let name = name.escape_ascii();
                match number {
                    0 => write!(f, "{name} takes no arguments"),
                    1 => write!(f, "{name} takes 1 argument"),
                    _ => write!(f, "{name} takes {number} arguments"),
                }
            }
            Reason::Other => write!(f, "not in the grammar"),
        }
    }
}

impl Display for BadLine<'_> {
    fn fmt<W: Write>(&self, f: &mut Formatter<W>) -> fmt::Result {
        let (number, reason) = (self.number, self.reason);
        write!(f, "line {number}: {reason}")
    }
}

fn is_space(byte: &u8) -> bool {
    *byte == b' '
}

fn is_line_feed(byte: &u8) -> bool {
    *byte == b'\n'
}

/// Returns whether some field of `line` is empty.
fn has_empty_field(line: &[u8]) -> bool {
    line.split(is_space).any(|field| field.is_empty())
}

/// Returns the number of arguments of the call named `name`, or `None` if there is no such call.
fn arguments_of<C: Named>(name: &[u8]) -> Option<usize> {
    if C::bare(name).is_some() {
        Some(0)
    } else if C::keyed(name, 0).is_some() {
        Some(1)
    } else if C::paired(name, 0, 0).is_some() {
        Some(2)
    } else {
        None
    }
}

/// Returns why `name` names no call of the kind.
fn reason_of_name(kind: Kind, name: &[u8]) -> Reason<'_> {
    let is_known = arguments_of::<MapCall<u64, u64>>(name).is_some()
        || arguments_of::<SetCall<u64>>(name).is_some()
        || arguments_of::<IndexCall<u64, u64>>(name).is_some()
        || arguments_of::<CacheCall<u64, u64>>(name).is_some();
    if is_known {
        Reason::CallOfAnotherKind(kind, name)
    } else {
        Reason::UnknownCall(name)
    }
}

/// Returns why the arguments behind the first two fields of `line` aren't those of the call named `name`, which takes
/// `number` of them.
fn reason_of_arguments<'a>(line: &'a [u8], name: &'a [u8], number: usize) -> Reason<'a> {
    if line.split(is_space).skip(2).count() != number {
        return Reason::Arguments(name, number);
    }
    for field in line.split(is_space).skip(2) {
        if parse_number(field).is_none() {
            return Reason::NotNumber(field);
        }
    }
    Reason::Other
}

/// Returns why `line` is no call by one of the workers.
fn reason_of_call<C: Named>(kind: Kind, workers: usize, line: &[u8]) -> Reason<'_> {
    if has_empty_field(line) {
        return Reason::EmptyField;
    }
    let mut fields = line.split(is_space);
    let first = fields.next().unwrap_or(line);
    let Some(worker) = parse_number(first) else {
        return Reason::NotNumber(first);
    };
    if worker >= workers as u64 {
        return Reason::Worker(worker, workers);
    }
    let Some(name) = fields.next() else {
        return Reason::NoCall;
    };
    match arguments_of::<C>(name) {
        Some(number) => reason_of_arguments(line, name, number),
        None => reason_of_name(kind, name),
    }
}

/// Returns the first line behind the header that isn't in the grammar, or `None` if all are.
fn bad_call<C: Named>(header: Header, script: &[u8]) -> Option<BadLine<'_>> {
    for (place, line) in script.split(is_line_feed).enumerate().skip(1) {
        let line = without_return(line);
        if !line.is_empty() && parse_line::<C>(line, header.workers).is_none() {
            return Some(BadLine {
                number: place.saturating_add(1),
                reason: reason_of_call::<C>(header.kind, header.workers, line),
            });
        }
    }
    None
}

/// Returns the kind that `field` names, or `None` if there is none.
fn kind_of(field: &[u8]) -> Option<Kind> {
    if field == b"map".as_slice() {
        Some(Kind::Map)
    } else if field == b"set".as_slice() {
        Some(Kind::Set)
    } else if field == b"index".as_slice() {
        Some(Kind::Index)
    } else if field == b"cache".as_slice() {
        Some(Kind::Cache)
    } else {
        None
    }
}

/// Returns why `line` is no header.
fn reason_of_header(line: &[u8]) -> Reason<'_> {
    if line.is_empty() {
        return Reason::EmptyHeader;
    }
    if has_empty_field(line) {
        return Reason::EmptyField;
    }
    let mut fields = line.split(is_space);
    let first = fields.next().unwrap_or(line);
    let Some(kind) = kind_of(first) else {
        return Reason::UnknownKind(first);
    };
    let (Some(second), Some(third), None) = (fields.next(), fields.next(), fields.next()) else {
        return Reason::HeaderFields;
    };
    match (parse_number(second), parse_number(third)) {
        (None, _) => Reason::NotNumber(second),
        (_, None) => Reason::NotNumber(third),
        (Some(workers), Some(stripes)) => {
            if workers == 0 || workers > 16 {
                Reason::Workers(workers)
            } else {
                Reason::Stripes(kind, stripes)
            }
        }
    }
}

/// Returns the first line of `script` that isn't in the grammar, with the reason, or `None` if all lines are.
pub fn bad_line_of(script: &[u8]) -> Option<BadLine<'_>> {
    if script.is_empty() {
        return Some(BadLine {
            number: 1,
            reason: Reason::EmptyScript,
        });
    }
    let line = without_return(script.split(is_line_feed).next().unwrap_or(script));
    let Some(header) = parse_header(line) else {
        return Some(BadLine {
            number: 1,
            reason: reason_of_header(line),
        });
    };
    match header.kind {
        Kind::Map => bad_call::<MapCall<u64, u64>>(header, script),
        Kind::Set => bad_call::<SetCall<u64>>(header, script),
        Kind::Index => bad_call::<IndexCall<u64, u64>>(header, script),
        Kind::Cache => bad_call::<CacheCall<u64, u64>>(header, script),
    }
}
