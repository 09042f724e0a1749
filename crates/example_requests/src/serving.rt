//! A cache of answers that all workers share, and what it does for one of them.
ghost use Rattle.std.specs.Prelude.{◌≡◌, IfSome};
ghost use Rattle.example_requests.specs.Service.{answer_to};
ghost use Rattle.example_requests.specs.Tallies.{Counts, Serves};

use crate::service::ask;
use scc::{Rule, RuledCache};
use std::sync::Wait;

/// The rule that under a request stands the service's answer to it.
pub struct IsAnswer;

impl Rule<u64, u64> for IsAnswer {
    ghost use Rattle.std.proofs.Common.{rules};

    ghost holds = { λ request answer. answer ≡ answer_to request };

    ghost alike = { λ j k answer same h. Prim.search rules };
}

/// The answers by their requests. Whatever a worker reads under a request is the answer to it, whichever worker stored
/// it.
pub type Answers = RuledCache<u64, u64, IsAnswer>;

/// The numbers of hits and misses of a worker, and of the answers that its misses evicted.
#[derive(Clone, Copy, Drop)]
pub struct Tally {
    pub hits: u64,
    pub misses: u64,
    pub evictions: u64,
}

/// Returns the stored answer to `request`, which becomes the most recent of its bucket, or `None` if there is none.
/// So the cache keeps what is asked for most.
fn known<R: Wait>(rt: &R, answers: &Answers, request: u64) -> Option<u64>
    ensures { IfSome result (λ answer. answer ≡ answer_to request) }
{
    let entry = answers.get_sync(rt, &request)?;
    Some(*entry.get())
}

/// Returns the answer to `request`, from the cache or else from the service. No stripe of the cache is locked while the
/// service is asked, so two workers may ask it the same. The answer is stored unless another worker was faster or memory
/// is refused.
///
/// The tally has one hit more or one miss more, and only a miss evicts an answer.
pub fn serve<R: Wait>(rt: &R, answers: &Answers, tally: &mut Tally, request: u64) -> u64
    ensures answer { result ≡ answer_to request }
    ensures tally { Serves (record { hits = tally.old.hits; misses = tally.old.misses; evictions = tally.old.evictions })
        (record { hits = tally.new.hits; misses = tally.new.misses; evictions = tally.new.evictions }) }
{
    match known(rt, answers, request) {
        Some(answer) => {
            tally.hits = tally.hits.saturating_add(1);
            answer
        }
        None => {
            let answer = ask(request);
            tally.misses = tally.misses.saturating_add(1);
            if let Ok(Some(_evicted)) = answers.put_sync(rt, request, answer) {
                tally.evictions = tally.evictions.saturating_add(1);
            }
            answer
        }
    }
}
