//! Answers of a service that threads share. Whatever other threads insert and evict meanwhile, a request gets its
//! answer.
ghost use Rattle.std.specs.Prelude.{◌≡◌, ℕ, ◌<◌, IfOk, IfSome, length, slice_index, slice_index_or};

use scc_common::MakeError;
use scc_shared_cache::HashCache;
use std::alloc::{AllocError, Global};
use std::marker::PhantomData;
use std::sync::Wait;
use std::thread::{Threads, map_indices};

/// A service that gives each request one answer.
pub trait Service {
    // The answer to a request.
    ghost answer_to: { ℕ → ℕ };

    /// Returns the answer to `request`.
    fn ask(&self, request: u64) -> u64
        ensures { result ≡ answer_to request };
}

/// A request, with the answer of the service to it.
#[derive(Drop)]
pub struct Answer<S: Service> {
    request: u64,
    answer: u64,
    of: PhantomData<S>,
    ghost right: { answer ≡ S.answer_to request },
}

/// A service with a cache of its answers.
#[derive(Drop)]
pub struct SharedRequests<S: Service> {
    service: S,
    answers: HashCache<u64, Answer<S>>,
}

impl<S: Service> SharedRequests<S> {
    /// Returns a service without stored answers. At most `bound` answers are stored, raised to a power of two that is
    /// at least 64. Fails if memory is refused.
    pub fn new(alloc: Global, service: S, bound: usize) -> Result<Self, MakeError>
    where
        S: Drop,
        ensures { IfOk result (λ r. r.service ≡ service) }
    {
        let answers = HashCache::with_capacity(alloc, 0, bound)?;
        Ok(SharedRequests { service, answers })
    }

    /// Returns the answer to `request`. Calls the service only if no answer is stored, and holds no stripe during this
    /// call.
    pub fn answer(&self, rt: &impl Wait, request: u64) -> u64
        ensures { result ≡ S.answer_to request }
    {
        match self.known(rt, request) {
            Some(answer) => answer,
            None => {
                let answer = self.service.ask(request);
                let kept = Answer {
                    request,
                    answer,
                    of: PhantomData,
                };
                let _ = self.answers.put_sync(rt, request, kept);
                answer
            }
        }
    }

    /// Returns the stored answer to `request`, or `None` if there is none. A stored answer becomes the most recent of
    /// its bucket.
    fn known(&self, rt: &impl Wait, request: u64) -> Option<u64>
        ensures { IfSome result (λ a. a ≡ S.answer_to request) }
    {
        let entry = self.answers.get_sync(rt, &request)?;
        let found = entry.get();
        if found.request == request {
            Some(found.answer)
        } else {
            None
        }
    }
}

/// Returns the answers to `requests` in their order. Each answer is found in a thread of its own if one can be made.
/// Fails if memory is refused.
pub fn answer_all<S: Service + Send + Sync, R: Threads + Wait + Sync>(
    rt: &R,
    alloc: Global,
    shared: &SharedRequests<S>,
    requests: &[u64],
) -> Result<Vec<u64>, AllocError>
    ensures { IfOk result (λ answers. (i : ℕ) (d : _) → i < length requests.now
        → slice_index answers.items i ≡ S.answer_to (slice_index_or requests.now i d)) }
{
    map_indices(
        rt,
        alloc,
        requests.len(),
        &|i| shared.answer(rt, requests[i]),
    )
}
