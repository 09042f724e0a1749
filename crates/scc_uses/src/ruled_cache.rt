//! Callers of caches under a rule: the answers of a slow service, which nobody tests again.
ghost use Rattle.std.specs.Prelude.{◌≡◌, IfSome};

use crate::shared_requests::Service;
use scc_common::Rule;
use scc_shared_cache::RuledCache;
use scc_shared_cache::ruled::Entry;
use std::marker::PhantomData;
use std::sync::Wait;

/// The rule that under a request stands the service's answer to it.
pub struct IsAnswer<S: Service> {
    of: PhantomData<S>,
}

impl<S: Service> Rule<u64, u64> for IsAnswer<S> {
    ghost use Rattle.std.proofs.Common.{rules};

    ghost holds = { λ request answer. answer ≡ S.answer_to request };

    ghost alike = { λ j k answer same h. Prim.search rules };
}

/// The answers of a service by their requests.
pub type Answers<S> = RuledCache<u64, u64, IsAnswer<S>>;

/// Returns the answer to `request`, which another thread may have stored. No stripe is locked while the service is
/// asked.
pub fn served<S: Service, W: Wait>(rt: &W, service: &S, answers: &Answers<S>, request: u64) -> u64
    ensures { result ≡ S.answer_to request }
{
    match answers.read_sync(rt, &request, |_, answer| *answer) {
        Some(answer) => answer,
        None => {
            let answer = service.ask(request);
            let _ = answers.put_sync(rt, request, answer);
            answer
        }
    }
}

/// As `served`, but the stripe of the request is locked while the service is asked. So no two threads ask it the same as
/// long as the answer isn't evicted.
pub fn served_once<S: Service, W: Wait>(
    rt: &W,
    service: &S,
    answers: &Answers<S>,
    request: u64,
) -> u64
    ensures { result ≡ S.answer_to request }
{
    answers.get_or_put_with(rt, request, |request| service.ask(*request))
}

/// Asks the service, stores the answer, and returns the answer that had to go for it, with its request, if one had to.
pub fn displaced<S: Service, W: Wait>(
    rt: &W,
    service: &S,
    answers: &Answers<S>,
    request: u64,
) -> Option<(u64, u64)>
    ensures { IfSome result (λ old. old.1 ≡ S.answer_to old.0) }
{
    let answer = service.ask(request);
    match answers.put_sync(rt, request, answer) {
        Ok(evicted) => evicted,
        Err(_) => None,
    }
}

/// Returns the answer to `request`, which another thread may have stored, and the answer that had to go for it, with its
/// request, if one had to. The stripe of the request is locked while the service is asked.
pub fn served_by_entry<S: Service, W: Wait>(
    rt: &W,
    service: &S,
    answers: &Answers<S>,
    request: u64,
) -> (u64, Option<(u64, u64)>)
    ensures answer { result.0 ≡ S.answer_to request }
    ensures gone { IfSome result.1 (λ old. old.1 ≡ S.answer_to old.0) }
{
    match answers.entry_sync(rt, request) {
        Entry::Occupied(entry) => (*entry.get(), None),
        Entry::Vacant(entry) => {
            let answer = service.ask(*entry.key());
            match entry.put_entry(answer) {
                Ok((evicted, _entry)) => (answer, evicted),
                Err(_) => (answer, None),
            }
        }
    }
}
