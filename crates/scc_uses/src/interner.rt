//! Words and their numbers.
ghost use Rattle.std.specs.Prelude.{◌≡◌, ◌⊎◌, ◌++◌, ◌∷◌, ◌^◌, ◌≤◌, [], length, slice_get, IfOk, OnErr, IfErr};
ghost use Rattle.scc_uses.specs.Interning.{IsNumberOf};

use scc_owned::map::Owned;
use std::alloc::Global;
use std::marker::Model;

/// An interner: each distinct word has a number, from 0 on. A contract sees the list of the words in the order of
/// their numbers.
#[derive(Drop)]
pub struct Interner {
    numbers: Owned<u64, u32>,
    words: Vec<u64>,
}

impl Model for Interner {
    ghost use Rattle.std.specs.Prelude.{ℕ, List};
    ghost use Rattle.scc_uses.specs.Interning.{IsInverse};

    ghost Value = { List ℕ };

    ghost view = { λ s. s.words.items };

    ghost invariant = { λ s. IsInverse s.numbers s.words.items };
}

/// Why a word got no number.
#[derive(Clone, Copy, Debug, PartialEq)]
pub enum InternError {
    /// All numbers are used.
    Full,
    /// Memory was refused.
    Memory,
}

impl Interner {
    /// Returns an interner without words.
    pub fn new(alloc: Global) -> Self
        ensures { result ≡ [] }
    {
        Interner {
            numbers: Owned::new(alloc),
            words: Vec::new(alloc),
        }
    }

    /// Returns the number of `word`: its number if it has one, else the next number, which becomes its number.
    pub fn intern(&mut self, word: u64) -> Result<u32, InternError>
        ensures number { IfOk result (IsNumberOf self.new word) }
        ensures words { IfOk result (λ n. (self.new ≡ self.old)
            ⊎ ((n ≡ length self.old) × (self.new ≡ self.old ++ word ∷ []))) }
        ensures refused { OnErr result (self.new ≡ self.old) }
        ensures full { IfErr result (λ e. e ≡ InternError.Full → 2 ^ 32 ≤ length self.old) }
    {
        if let Some(number) = self.numbers.read_sync(&word, |_, n| *n) {
            return Ok(number);
        }
        let Ok(number) = u32::try_from(self.words.len()) else {
            return Err(InternError::Full);
        };
        if self.words.push(word).is_err() {
            return Err(InternError::Memory);
        }
        if self.numbers.insert_sync(word, number).is_err() {
            self.words.pop();
            return Err(InternError::Memory);
        }
        Ok(number)
    }

    /// Returns the word with the number `number`, or `None` if there is none.
    pub fn word_of(&self, number: u32) -> Option<u64>
        ensures { result ≡ slice_get self.now number }
    {
        self.words.get(number as usize).copied()
    }
}
