//! What one call adds to a history.
ghost use Rattle.scc_history.specs.Stamps.{recorded, resized};
ghost use Rattle.std.specs.Prelude.{◌≡◌, ◌+◌, ◌<◌, ◌≤◌, ◌⊎◌, ◌++◌, max, None, IfSome, OnSome, MatchOption, vec_len, vec_capacity};

use crate::log::Receipt;
use scc_calls::Step;

/// Returns the stamp of the next call: one more than the greater of the caller's clock and the last stamp of the
/// stripe. Returns `None` if that is the greatest stamp.
pub(crate) fn next_stamp(clock: u64, last: u64) -> Option<u64>
    ensures { MatchOption result (max clock last ≡ 18446744073709551615) (λ stamp. stamp ≡ max clock last + 1) }
{
    clock.max(last).checked_add(1)
}

/// Reserves room for two steps in the history and for one receipt, and returns two clones of the call. Returns `None`
/// if memory for the room or for a clone is refused.
pub(crate) fn reserve_places<A: Clone + Drop, R: Drop>(
    history: &mut Vec<Step<A, R>>,
    receipts: &mut Vec<Receipt<A, R>>,
    call: &A,
) -> Option<(A, A)>
    ensures items { (history.new.items ≡ history.old.items) × (receipts.new.items ≡ receipts.old.items) }
    ensures steps { OnSome result (vec_len history.new + 2 ≤ vec_capacity history.new) }
    ensures receipt { OnSome result (vec_len receipts.new + 1 ≤ vec_capacity receipts.new) }
    ensures clones { IfSome result (λ copies. A.is_clone call.now copies.0 × A.is_clone call.now copies.1) }
    ensures refused { result ≡ None → (vec_capacity history.old < vec_len history.old + 2)
        ⊎ (vec_capacity receipts.old < vec_len receipts.old + 1) ⊎ (A.is_infallible call.now → ⊥) }
{
    if history.reserve(2).is_err() || receipts.reserve(1).is_err() {
        return None;
    }
    let Ok(noted) = call.clone() else {
        return None;
    };
    let Ok(kept) = call.clone() else {
        return None;
    };
    Some((noted, kept))
}

/// Adds a call to the history, with a growth before it or a shrink after it if the number of buckets changed.
pub(crate) fn record_call<A: Drop, R: Drop>(
    history: &mut Vec<Step<A, R>>,
    before: usize,
    after: usize,
    stamp: u64,
    pass: usize,
    call: A,
    reply: R,
)
    requires { vec_len history.old + 2 ≤ vec_capacity history.old }
    ensures { history.new.items ≡ history.old.items ++ recorded before after stamp pass call reply }
{
    let made = Step::Call {
        stamp,
        pass,
        call,
        reply,
    };
    let changed = Step::Resize {
        stamp,
        buckets: after,
    };
    if before < after {
        history.push_reserved(changed);
        history.push_reserved(made);
    } else if after < before {
        history.push_reserved(made);
        history.push_reserved(changed);
    } else {
        history.push_reserved(made);
    }
}

/// Adds the resize of a refused call to the history, if it made one.
pub(crate) fn record_refused<A: Drop, R: Drop>(
    history: &mut Vec<Step<A, R>>,
    before: usize,
    after: usize,
    stamp: u64,
)
    requires { vec_len history.old + 2 ≤ vec_capacity history.old }
    ensures { history.new.items ≡ history.old.items ++ resized before after stamp }
{
    if before != after {
        history.push_reserved(Step::Resize {
            stamp,
            buckets: after,
        });
    }
}
