//! A token that a run keeps over some calls.

use scc_table::Reservation;
use test_forms::form::Form;

/// A token is reserved before each call whose number divides by this.
const SPAN: u64 = 40;

/// A token is kept over so many calls.
const KEPT: u64 = 30;

/// The number of slots of a token, which the least array has.
const SLOTS: usize = 50;

/// The token that is kept at present, if there is one.
#[derive(Drop)]
pub struct Kept {
    token: Option<Reservation>,
    was_given: bool,
    has_grown: bool,
}

impl Kept {
    /// Returns that no token is kept.
    pub(crate) fn new() -> Kept {
        Kept {
            token: None,
            was_given: false,
            has_grown: false,
        }
    }

    /// Reserves a token before the call of `number`, or releases it, if it is time. Returns whether the container takes
    /// its token back.
    pub(crate) fn turn<F: Form>(&mut self, form: &mut F, number: u64) -> bool {
        if number % SPAN == 0 {
            self.token = form.reserve_slots(SLOTS);
            self.was_given |= self.token.is_some();
        }
        if number % SPAN < KEPT {
            return true;
        }
        match self.token.take() {
            Some(token) => form.release_slots(token).is_ok(),
            None => true,
        }
    }

    /// Notes the number of slots before and after a call that may insert.
    pub(crate) fn note(&mut self, before: usize, after: usize) {
        self.has_grown |= self.token.is_some() && before > 0 && after > before;
    }

    /// Returns whether an array grew in an insertion while a token was kept, or the container gave no token.
    pub(crate) fn has_seen_growth(&self) -> bool {
        self.has_grown || !self.was_given
    }
}
