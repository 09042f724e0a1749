//! How many call records histories have.
ghost use Rattle.scc_history.specs.Stamps.{calls_in};
ghost use Rattle.std.specs.List.{sum_by};
ghost use Rattle.std.specs.Prelude.{◌≡◌, ◌<◌, IfNone, IfSome, map};

use scc_calls::Step;

/// Returns the number of call records in `history`.
pub fn count_calls<A, R>(history: &[Step<A, R>]) -> usize
    ensures { result ≡ calls_in history.now }
{
    let mut count: usize = 0;
    for j in 0..history.len() {
        if let Step::Call { .. } = &history[j] {
            count += 1;
        }
    }
    count
}

/// Returns the number of call records in all `histories`, or `None` if it is above `usize::MAX`.
pub fn count_all_calls<A, R>(histories: &[Vec<Step<A, R>>]) -> Option<usize>
    ensures some { IfSome result (λ n. n ≡ sum_by calls_in (map (λ h. h.items) histories.now)) }
    ensures none { IfNone result (18446744073709551615 < sum_by calls_in (map (λ h. h.items) histories.now)) }
{
    let mut records: usize = 0;
    for history in histories {
        records = records.checked_add(count_calls(history.as_slice()))?;
    }
    Some(records)
}
