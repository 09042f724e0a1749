//! `Verdict`: what a closure tells a walk that may take entries out.

/// What becomes of a visited entry, and whether the walk goes on.
#[derive(Clone, Copy, Debug, PartialEq)]
pub enum Verdict {
    /// The entry stays, and the walk goes on.
    Keep,
    /// The entry is taken out, and the walk goes on.
    Take,
    /// The entry stays, and the walk stops.
    KeepStop,
    /// The entry is taken out, and the walk stops.
    TakeStop,
}
