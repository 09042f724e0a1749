//! The arguments of a measurement.
ghost use Rattle.std.specs.Prelude.{◌≡◌, ◌≤◌, length, Ok};

use crate::streams::Streams;
use std::{env, io};

/// The number of entries if none is asked for.
const USUAL_ENTRIES: u64 = 1 << 20;

/// Returns the arguments, without the program's name.
pub fn words(rt: &HostRuntime) -> io::Result<Vec<String>> {
    Ok(env::args(rt)?.skip(1).collect(rt.alloc())?)
}

/// Returns the error of an argument that names nothing.
pub fn bad_argument() -> io::Error {
    io::Error::from(io::ErrorKind::InvalidInput)
}

/// Returns the error of a container that was refused memory.
pub fn out_of_memory() -> io::Error {
    io::Error::from(io::ErrorKind::OutOfMemory)
}

/// Returns the number at `place`, or `usual` if there is no argument at this place.
pub fn parse_number(words: &[String], place: usize, usual: u64) -> io::Result<u64>
    ensures { length words.now ≤ place → result ≡ Ok usual }
{
    match words.get(place) {
        Some(word) => match word.parse::<u64>() {
            Ok(number) => Ok(number),
            Err(_) => Err(bad_argument()),
        },
        None => Ok(usual),
    }
}

/// Returns the number of runs, which follows the peer and the group, and then the streams of the entries and the seed.
pub fn parse_streams(words: &[String]) -> io::Result<(u64, Streams)> {
    let runs = parse_number(words, 2, 1)?;
    let entries = parse_number(words, 3, USUAL_ENTRIES)?;
    let seed = parse_number(words, 4, 0)?;
    Ok((runs, Streams { entries, seed }))
}
