//! Calls that are refused memory, and repeated until they succeed.
use std::io::Print;

/// The most times that a call is made. The driver of refused memory refuses fewer requests in a row, and a call that
/// fails for memory had at least one of these requests refused.
pub const TRIES: usize = 32;

/// Whether a test was refused memory in a run.
#[derive(Drop)]
pub struct Refusal {
    is_met: bool,
}

impl Refusal {
    /// Returns a `Refusal` that isn't met yet.
    pub fn new() -> Refusal {
        Refusal { is_met: false }
    }

    /// Returns whether a refusal was met.
    pub fn is_met(&self) -> bool {
        self.is_met
    }

    /// Notes a refusal, and prints what was refused. `./test` fails if a call that a source names here is refused in
    /// no run, or if a test prints a refusal that didn't happen.
    pub fn meet<R: Print>(&mut self, rt: &R, what: &str) {
        self.is_met = true;
        // If the line can't be written, `./test` misses it, because it looks for each name that a test gives.
        let _ = println!(rt; "refused: {what}");
    }

    /// Calls `make` until it isn't refused, and calls `is_left_right` after each refusal. Returns `None` if
    /// `is_left_right` returns false, or if each call of `make` is refused.
    pub fn outlast<T, E: Drop, R: Print, F: Fn() -> Result<T, E>, G: Fn() -> bool>(
        &mut self,
        rt: &R,
        what: &str,
        make: F,
        is_left_right: G,
    ) -> Option<T>
        requires making { F.IsAlwaysCallable make }
        requires looking { G.IsAlwaysCallable is_left_right }
    {
        for _ in 0..TRIES {
            match make() {
                Ok(made) => return Some(made),
                Err(_) => {
                    self.meet(rt, what);
                    if !is_left_right() {
                        return None;
                    }
                }
            }
        }
        None
    }
}
