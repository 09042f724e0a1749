//! The keys and values of tests: tokens, which are known by a number and may note when they are dropped.
ghost use Rattle.std.specs.Prelude.{◌≡◌, ◌==◌, IfOk};
ghost use Rattle.std.proofs.Common.{rules};
ghost use Rattle.std.specs.Cmp.Rules.{comparing, hashing};
ghost use Rattle.std.specs.Hash as fed;

use std::alloc::{AllocError, Global};
use std::cell::Cell;
use std::hash::{Hash, Hasher};
use std::rc::Rc;

/// How often each token was dropped.
#[derive(Drop)]
pub struct Book {
    drops: Vec<Cell<u8>>,
    made: Cell<usize>,
}

impl Book {
    /// Returns a book with room for `room` tokens.
    pub fn new(alloc: Global, room: usize) -> Result<Rc<Book>, AllocError> {
        let mut drops = Vec::new(alloc);
        for _ in 0..room {
            drops.push(Cell::new(0))?;
        }
        let book = Book {
            drops,
            made: Cell::new(0),
        };
        Ok(Rc::new(alloc, book)?)
    }

    /// Returns how many tokens were made and not dropped. Returns `None` if a token was dropped twice, or dropped
    /// without being made.
    pub fn alive(&self) -> Option<usize> {
        let made = self.made.get();
        let mut alive = 0usize;
        for (id, count) in self.drops.iter().enumerate() {
            let was_made = id < made;
            match count.get() {
                0 if was_made => alive = alive.wrapping_add(1),
                0 => {}
                1 if was_made => {}
                _ => return None,
            }
        }
        Some(alive)
    }

    /// Returns the number of the next token, if there is room for it.
    fn next(&self) -> Result<usize, AllocError> {
        let id = self.made.get();
        if id >= self.drops.len() {
            return Err(AllocError);
        }
        self.made.set(id.wrapping_add(1));
        Ok(id)
    }

    fn note_drop(&self, id: usize) {
        if let Some(count) = self.drops.get(id) {
            count.set(count.get().saturating_add(1));
        }
    }
}

/// A key or a value with a number, by which alone it is compared. The mark tells equal tokens apart. The clone of a
/// token that is in a book is another token of the book.
pub struct Token {
    number: u64,
    mark: u64,
    place: Option<(usize, Rc<Book>)>,
}

impl Token {
    /// Returns a token of `number` with the mark 0, in no book.
    pub fn of(number: u64) -> Token {
        Token::marked(number, 0)
    }

    /// Returns a token of `number` with a mark, in no book.
    pub fn marked(number: u64, mark: u64) -> Token
        ensures { result.number ≡ number }
    {
        Token {
            number,
            mark,
            place: None,
        }
    }

    /// Returns the number.
    pub fn number(&self) -> u64 {
        self.number
    }

    /// Returns the mark.
    pub fn mark(&self) -> u64 {
        self.mark
    }

    /// Sets the number of a value.
    pub fn write(&mut self, number: u64) {
        self.number = number;
    }

    /// Returns a new token of `number`, which `book` counts.
    pub fn new(book: &Rc<Book>, number: u64) -> Result<Token, AllocError>
        ensures { IfOk result (λ t. t.number ≡ number) }
    {
        let owner = book.clone()?;
        let id = owner.next()?;
        Ok(Token {
            number,
            mark: 0,
            place: Some((id, owner)),
        })
    }
}

impl Drop for Token {
    fn drop(self) {
        let Token {
            number: _,
            mark: _,
            place,
        } = self;
        if let Some((id, book)) = place {
            book.note_drop(id);
        }
    }
}

impl Clone for Token {
    ghost is_clone = { λ t copy. copy.number ≡ t.number };

    fn clone(&self) -> Result<Token, AllocError> {
        match &self.place {
            Some(place) => Token::new(&place.1, self.number),
            None => Ok(Token::marked(self.number, self.mark)),
        }
    }
}

impl Default for Token {
    ghost is_default = { λ t. t.number ≡ 0 };

    fn default() -> Token {
        Token::marked(0, 0)
    }
}

impl PartialEq for Token {
    ghost eq = { λ a b. a.number == b.number };

    ghost laws = { Prim.search (comparing, rules) };

    fn eq(&self, other: &Token) -> bool {
        self.number == other.number
    }
}

impl Eq for Token {
    ghost laws = { Prim.search (comparing, rules) };
}

impl Hash for Token {
    ghost hash_input = { λ a. fed.u64 a.number };

    ghost respects_eq = { Prim.search (hashing, rules) };

    fn hash<S: Hasher>(&self, state: &mut S) {
        self.number.hash(state);
    }
}
