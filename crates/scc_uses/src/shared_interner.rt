//! One instance of equal words, which workers share.
ghost use Rattle.std.specs.Prelude.{◌≡◌, true, IfErr, IfOk, IfSome};
ghost use Rattle.scc_shared_set.specs.Answers.{Memory};

use scc_common::{KeyError, MakeError};
use scc_shared_set::HashSet;
use std::alloc::Global;
use std::hash::Hash;
use std::sync::Wait;

/// The words that were seen. Workers share the interner by reference. A stored word is only read.
#[derive(Drop)]
pub struct SharedInterner<K: Eq + Hash> {
    words: HashSet<K>,
}

impl<K: Eq + Hash + Drop> SharedInterner<K> {
    /// Returns an interner without words. Fails if memory is refused.
    pub fn new(alloc: Global) -> Result<Self, MakeError> {
        let words = HashSet::new(alloc)?;
        Ok(SharedInterner { words })
    }

    /// Returns a clone of the word that was seen first among the words equal to `word`. A clone of an `Arc` is one
    /// more owner. If memory or the clone is refused, `word` comes back.
    pub fn intern(&self, rt: &impl Wait, word: K) -> Result<K, KeyError<K>>
    where
        K: Clone,
        ensures same { IfOk result (λ w. (q : K) × (K.eq word q ≡ true) × K.is_clone q w) }
        ensures back { IfErr result (λ e. e ≡ Memory word) }
    {
        match self.seen(rt, &word) {
            Some(Some(copy)) => return Ok(copy),
            Some(None) => return Err(KeyError::Memory(word)),
            None => {}
        }
        let Ok(copy) = word.clone() else {
            return Err(KeyError::Memory(word));
        };
        match self.words.insert_sync(rt, word) {
            Ok(()) => Ok(copy),
            Err(KeyError::Memory(word)) => Err(KeyError::Memory(word)),
            Err(KeyError::Exists(word)) => match self.seen(rt, &word) {
                Some(Some(first)) => Ok(first),
                Some(None) => Err(KeyError::Memory(word)),
                None => Ok(copy),
            },
        }
    }

    /// Returns a clone of the stored word that equals `word`, or `None` if there is none. Returns `Some(None)` if the
    /// clone is refused.
    fn seen(&self, rt: &impl Wait, word: &K) -> Option<Option<K>>
    where
        K: Clone,
        ensures { IfSome result (λ found. IfSome found (λ w. (q : K) × (K.eq word.now q ≡ true) × K.is_clone q w)) }
    {
        self.words.read_sync(rt, word, |first| copy_of(first))
    }
}

/// Returns a clone of `word`, or `None` if the clone is refused.
fn copy_of<K: Clone>(word: &K) -> Option<K>
    ensures { IfSome result (K.is_clone word.now) }
{
    match word.clone() {
        Ok(copy) => Some(copy),
        Err(_) => None,
    }
}
