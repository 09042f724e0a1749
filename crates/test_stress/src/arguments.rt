//! What the arguments ask for.
ghost use Rattle.std.specs.Prelude.{◌≡◌, ◌≤◌, [], Some, length};

/// What to play, and the numbers of a soak. It makes rounds for `seconds` seconds, and at least one round, each with
/// `threads` threads that make `calls` calls.
#[derive(Clone, Copy, Drop)]
pub struct Request {
    pub soaks: bool,
    pub crowds: bool,
    pub seconds: u64,
    pub threads: u64,
    pub calls: u64,
}

/// The number of seconds if none is given.
const USUAL_SECONDS: u64 = 60;

/// The number of threads if none is given.
const USUAL_THREADS: u64 = 4;

/// The number of calls if none is given.
const USUAL_CALLS: u64 = 100_000;

/// Returns the number in the word at `place`, or `usual` if there is no such word. Returns `None` if the word is no
/// number.
fn parse_number(words: &[String], place: usize, usual: u64) -> Option<u64>
    ensures { length words.now ≤ place → result ≡ Some usual }
{
    match words.get(place) {
        Some(word) => word.parse::<u64>().ok(),
        None => Some(usual),
    }
}

/// Returns whether to soak, and whether to play the crowds. Without a word both are played.
fn parse_parts(words: &[String]) -> Option<(bool, bool)> {
    match words.first() {
        Some(word) => match word.as_str() {
            "soak" => Some((true, false)),
            "crowds" => Some((false, true)),
            "all" => Some((true, true)),
            _ => None,
        },
        None => Some((true, true)),
    }
}

/// Reads the word `soak`, `crowds` or `all`, and `SECONDS THREADS CALLS`. The last words may be missing.
pub(crate) fn parse_request(words: &[String]) -> Option<Request> {
    let (soaks, crowds) = parse_parts(words)?;
    let seconds = parse_number(words, 1, USUAL_SECONDS)?;
    let threads = parse_number(words, 2, USUAL_THREADS)?;
    let calls = parse_number(words, 3, USUAL_CALLS)?;
    Some(Request {
        soaks,
        crowds,
        seconds,
        threads,
        calls,
    })
}
