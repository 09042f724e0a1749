//! What is known of each word, in a map that workers share.
ghost use Rattle.std.specs.Prelude.{◌≡◌, ◌≤◌, ◌<◌, IfOk};

use crate::words::Word;
use scc::HashMap;
use scc::hash_map::Entry;
use std::io;
use std::sync::Wait;

/// The place at which a word was met first, and how often it was met.
#[derive(Clone, Copy, Debug, Drop)]
pub struct Count {
    pub first: u64,
    pub times: u64,
}

/// What is known of the words that were met.
pub type Counts = HashMap<Word, Count>;

impl Count {
    /// Returns the count of a word that was met once, at `place`.
    fn new(place: u64) -> Count
        ensures { result.first ≡ place }
    {
        Count {
            first: place,
            times: 1,
        }
    }

    /// Returns the count of a word that was met once more, at `place`.
    fn more(self, place: u64) -> Count
        ensures { (result.first ≤ place) × (result.first ≤ self.first) }
    {
        Count {
            first: if place < self.first {
                place
            } else {
                self.first
            },
            times: self.times.saturating_add(1),
        }
    }
}

/// Records that `word` stands at `place`, and returns what is then known of it: it was met at `place` or before.
pub fn note<R: Wait>(rt: &R, counts: &Counts, word: Word, place: u64) -> io::Result<Count>
    ensures { IfOk result (λ count. count.first ≤ place) }
{
    match counts.entry_sync(rt, word) {
        Entry::Occupied(mut entry) => {
            let count = entry.get().more(place);
            let _old = entry.insert(count);
            Ok(*entry.get())
        }
        Entry::Vacant(entry) => {
            let entry = entry.insert_entry(Count::new(place))?;
            Ok(*entry.get())
        }
    }
}
