//! The arguments that ask for a measurement.
ghost use Rattle.std.specs.Prelude.{◌≡◌, ◌<◌, ◌≤◌, [], length, IfOk};

use std::io;

/// A number of calls with a number of keys, measured a number of times.
#[derive(Clone, Copy, Drop)]
pub struct Request {
    pub calls: u64,
    pub keys: u64,
    pub runs: u64,
}

/// The number of calls if none is asked for.
const USUAL_CALLS: u64 = 1_000_000;

/// The number of keys if none is asked for.
const USUAL_KEYS: u64 = 50_000;

/// The number of runs if none is asked for.
const USUAL_RUNS: u64 = 3;

/// Returns the number at `place`, or `usual` if there is no argument at this place.
fn parse_number(words: &[String], place: usize, usual: u64) -> io::Result<u64>
    ensures { length words.now ≤ place → result ≡ Ok usual }
{
    match words.get(place) {
        Some(word) => word
            .parse::<u64>()
            .map_err(|_| io::Error::from(io::ErrorKind::InvalidInput)),
        None => Ok(usual),
    }
}

/// Reads the words `CALLS KEYS RUNS`. The last ones may be left out. Fails if the number of keys is 0.
pub(crate) fn parse_request(words: &[String]) -> io::Result<Request>
    ensures keys { IfOk result (λ r. 0 < r.keys) }
    ensures usual { words.now ≡ [] → result ≡ Ok (record { calls = 1000000; keys = 50000; runs = 3 }) }
{
    let calls = parse_number(words, 0, USUAL_CALLS)?;
    let keys = parse_number(words, 1, USUAL_KEYS)?;
    let runs = parse_number(words, 2, USUAL_RUNS)?;
    if keys == 0 {
        return Err(io::Error::from(io::ErrorKind::InvalidInput));
    }
    Ok(Request { calls, keys, runs })
}
