//! The words that were met, each stored once in a set that workers share.
ghost use Rattle.std.specs.Arc.{arc_str_bytes};
ghost use Rattle.std.specs.Prelude.{◌≡◌, IfOk, IfSome};

use scc::{HashSet, KeyError};
use std::io;
use std::sync::{ArcStr, Wait};

/// A word with several owners. A clone is one more owner of the same text.
pub type Word = ArcStr;

/// The words that were met.
pub type Words = HashSet<Word>;

/// Returns the stored word that equals `word`, or `None` if there is none.
fn stored<R: Wait>(rt: &R, words: &Words, word: &Word) -> io::Result<Option<Word>>
    ensures { IfOk result (λ found. IfSome found (λ first. arc_str_bytes first ≡ arc_str_bytes word.now)) }
{
    match words.read_sync(rt, word, |first| first.clone()) {
        Some(first) => Ok(Some(first?)),
        None => Ok(None),
    }
}

/// Returns the stored word that equals `word`, and stores `word` if there is none. So each word is one text, whichever
/// worker met it first, and a map by words keeps no copies.
pub fn intern<R: Wait>(rt: &R, words: &Words, word: Word) -> io::Result<Word>
    ensures { IfOk result (λ first. arc_str_bytes first ≡ arc_str_bytes word) }
{
    if let Some(first) = stored(rt, words, &word)? {
        return Ok(first);
    }
    match words.insert_sync(rt, word.clone()?) {
        Ok(()) => Ok(word),
        Err(KeyError::Exists(_)) => Ok(stored(rt, words, &word)?.unwrap_or(word)),
        Err(error) => Err(io::Error::from(error)),
    }
}
