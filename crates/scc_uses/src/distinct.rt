//! The distinct words of a list.
ghost use Rattle.std.specs.Prelude.{ℕ, ◌≡◌, IfOk, nat_eq};
ghost use Rattle.std.specs.List.{IsDistinct};
ghost use Rattle.std.specs.Set.{is_member};

use scc_common::{KeyError, MakeError};
use scc_owned_set::Owned;
use std::alloc::Global;

/// Returns the words of `words`, each once. Fails if memory is refused.
pub fn distinct(alloc: Global, words: &[u64]) -> Result<Vec<u64>, MakeError>
    ensures words { IfOk result (λ l. (w : ℕ) → is_member nat_eq l.items w ≡ is_member nat_eq words.now w) }
    ensures once { IfOk result (λ l. IsDistinct nat_eq l.items) }
{
    let mut seen = Owned::new(alloc);
    let mut list = Vec::new(alloc);
    for word in words {
        match seen.insert_sync(*word) {
            Ok(()) => {
                if list.push(*word).is_err() {
                    return Err(MakeError);
                }
            }
            Err(KeyError::Exists(_)) => {}
            Err(KeyError::Memory(_)) => return Err(MakeError),
        }
    }
    Ok(list)
}
