//! An interner that threads share: it gives each different text of a list a number, the place of a text that equals it.
//!
//! A map has the number of each text that was met. It keeps the rule that the list has an equal text at this number, so
//! whoever finds a number need not look at the text. The list has one text at a number, so equal numbers stand for equal
//! texts.
ghost use Rattle.std.specs.Arc.{arc_str_bytes};
ghost use Rattle.std.specs.Prelude.{◌≡◌, ◌<◌, ◌↔◌, ℕ, List, [], IfOk, IsTrue, Some, length, map, slice_get};

use scc::hash_map::ruled::Entry;
use scc::{Rule, RuledMap};
use std::alloc::Global;
use std::io;
use std::marker::{Brand, PhantomData};
use std::sync::{ArcStr, Wait};

/// A text with several owners. A clone is one more owner of the same text.
pub type Text = ArcStr;

/// The name of a list of texts. It is there for the proofs: a symbol of one list is no symbol of another.
pub trait Home {
    // The bytes of each text.
    ghost texts: { List (List ℕ) };
}

impl Home for Brand {
    ghost texts = { [] };
}

/// What stands for a text: the place of an equal one in the list.
#[derive(Drop)]
pub struct Symbol<B: Home> {
    pub number: usize,
    of: PhantomData<B>,
}

impl<B: Home> Symbol<B> {
    /// Returns the symbol of the text at a place.
    fn at(number: usize) -> Symbol<B>
        ensures { result.number ≡ number }
    {
        Symbol {
            number,
            of: PhantomData,
        }
    }

    /// Returns the symbol once more.
    fn again(&self) -> Symbol<B>
        ensures { result.number ≡ self.now.number }
    {
        Symbol::at(self.number)
    }
}

/// The rule that a symbol stands for the text of its key.
pub struct IsOfText;

impl<B: Home> Rule<Text, Symbol<B>> for IsOfText {
    ghost use Rattle.std.proofs.Common.{rules};

    ghost holds = { λ text symbol. slice_get B.texts symbol.number ≡ Some (arc_str_bytes text) };

    ghost alike = { λ j k symbol same h. Prim.search rules };
}

/// A list of texts, and the symbol of each text that was met.
#[derive(Drop)]
pub struct Interner<'a, B: Home> {
    texts: &'a [Text],
    symbols: RuledMap<Text, Symbol<B>, IsOfText>,
    ghost home: { map arc_str_bytes texts.now ≡ B.texts },
}

impl<'a, B: Home> Interner<'a, B> {
    /// Returns an interner of `texts` without symbols. Fails if memory is refused.
    pub fn new(alloc: Global, texts: &'a [Text]) -> io::Result<Interner<'a, B>>
        requires { map arc_str_bytes texts.now ≡ B.texts }
    {
        let symbols = RuledMap::new(alloc)?;
        Ok(Interner { texts, symbols })
    }

    /// Returns the number of texts in the list.
    pub fn len(&self) -> usize
        ensures { result ≡ length B.texts }
    {
        self.texts.len()
    }

    /// Returns the text at a place.
    pub fn text(&self, number: usize) -> &Text
        requires { number < length B.texts }
        ensures { slice_get B.texts number ≡ Some (arc_str_bytes result.now) }
    {
        &self.texts[number]
    }

    /// Returns the symbol of the text at a place. The first of equal texts that is met gives the symbol its number, with
    /// the lock on its stripe of the map, so that no two threads do. Fails if memory is refused.
    pub fn intern<R: Wait>(&self, rt: &R, number: usize) -> io::Result<Symbol<B>>
        requires { number < length B.texts }
        ensures { IfOk result (λ symbol. slice_get B.texts symbol.number ≡ slice_get B.texts number) }
    {
        let text = self.text(number);
        if let Some(symbol) = self.symbols.read_sync(rt, text, |_, symbol| symbol.again()) {
            return Ok(symbol);
        }
        match self.symbols.entry_sync(rt, text.clone()?) {
            Entry::Occupied(entry) => Ok(entry.get().again()),
            Entry::Vacant(entry) => Ok(entry.insert_entry(Symbol::at(number))?.get().again()),
        }
    }

    /// Returns whether two symbols have one number. If so, they stand for one text; no text is looked at.
    pub fn is_same(&self, a: &Symbol<B>, b: &Symbol<B>) -> bool
        ensures { IsTrue result ↔ a.now.number ≡ b.now.number }
    {
        a.number == b.number
    }

    /// Returns how many texts have a number of their own.
    pub fn count<R: Wait>(&self, rt: &R) -> usize {
        self.symbols.len(rt)
    }
}
