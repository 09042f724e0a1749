//! Which calls were made, on keys that are there and on keys that are missing.

use std::alloc::{AllocError, Global};
use test_forms::calls::{DRASTIC, GENTLE, What, has_key};

/// The calls that were made.
#[derive(Drop)]
pub struct Tally {
    made: Vec<(What, bool)>,
    waited: usize,
}

impl Tally {
    /// Returns a tally without a call.
    pub(crate) fn new(alloc: Global) -> Tally {
        Tally {
            made: Vec::new(alloc),
            waited: 0,
        }
    }

    /// Notes a call. `is_there` says whether its key is there, and `waits` whether buckets wait.
    pub(crate) fn note(
        &mut self,
        what: What,
        is_there: bool,
        waits: bool,
    ) -> Result<(), AllocError> {
        if waits {
            self.waited = self.waited.wrapping_add(1);
        }
        self.made.push((what, is_there))?;
        Ok(())
    }

    /// Returns whether `what` was made on a key that is there, or that is missing, as `is_there` says.
    fn has(&self, what: What, is_there: bool) -> bool {
        self.made
            .iter()
            .any(|made| made.0 == what && made.1 == is_there)
    }

    /// Returns whether `what` was made, and if its key matters, on keys that are there and on keys that are missing.
    fn came(&self, what: What) -> bool {
        if has_key(what) {
            self.has(what, true) && self.has(what, false)
        } else {
            self.has(what, true) || self.has(what, false)
        }
    }

    /// Returns whether each call was made.
    pub(crate) fn is_whole(&self) -> bool {
        GENTLE.iter().all(|what| self.came(*what)) && DRASTIC.iter().all(|what| self.came(*what))
    }

    /// Returns whether more than an eighth of the calls were made while buckets waited.
    pub(crate) fn has_waited(&self) -> bool {
        self.waited > self.made.len() / 8
    }
}
