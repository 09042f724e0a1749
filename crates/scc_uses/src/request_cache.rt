//! A cache of answers to requests, which counts its hits and its misses.
ghost use Rattle.std.specs.Prelude.{◌≡◌, ℕ, ◌≤◌, [], nat_eq, length, IfOk};
ghost use Rattle.std.specs.Hash as fed;
ghost use Rattle.scc_common.specs.Contents.{entries, hash_in};
ghost use Rattle.scc_common.specs.Sizes.{IsArraySize};
ghost use Rattle.scc_owned_cache.specs.CacheSteps.{IsAbsent, IsPresent};

use scc_common::{Hashes, MakeError};
use scc_owned_cache::Owned;
use std::alloc::Global;
use std::hash::BuildHasher;

/// Answers to requests, with the numbers of hits and of misses.
#[derive(Drop)]
pub struct RequestCache<H: BuildHasher> {
    pub answers: Owned<u64, u64, H>,
    pub hits: u64,
    pub misses: u64,
}

impl<H: BuildHasher> RequestCache<H> {
    ghost use Rattle.scc_uses.specs.RequestCounts.{one_more};

    /// Returns a cache without answers. It has room for the least power of two of answers that is at least `bound` and
    /// at least 64. Fails if memory is refused.
    pub fn new(alloc: Global, bound: usize, hasher: H) -> Result<Self, MakeError>
    where
        H: Drop,
        ensures { IfOk result (λ c. (entries c.answers.contents ≡ []) × IsArraySize bound c.answers.maximum
            × (c.hits ≡ 0) × (c.misses ≡ 0)) }
    {
        let answers = Owned::with_capacity_and_hasher(alloc, 0, bound, hasher)?;
        Ok(RequestCache {
            answers,
            hits: 0,
            misses: 0,
        })
    }

    /// Returns the answer to `request`: from the cache if it has one, else by `ask`. There are never more answers than
    /// the bound. A new answer is stored; if its bucket is full, it evicts the answer of the bucket that wasn't looked
    /// at for longest. A count stays at the greatest number once it is there.
    pub fn answer<F: FnOnce(u64) -> u64>(&mut self, request: u64, ask: F) -> u64
        requires { F.pre ask request }
        ensures hit { (p : ℕ × ℕ) → IsPresent (hash_in ⟦<H as Hashes<u64>>⟧.hash_of self.old.answers.contents) nat_eq
            self.old.answers.contents request p → (result ≡ p.1) × (self.new.hits ≡ one_more self.old.hits) ×
            (self.new.misses ≡ self.old.misses) }
        ensures miss { IsAbsent (hash_in ⟦<H as Hashes<u64>>⟧.hash_of self.old.answers.contents) nat_eq
            self.old.answers.contents request → F.post ask request result × (self.new.hits ≡ self.old.hits) ×
            (self.new.misses ≡ one_more self.old.misses) }
        ensures bound { length (entries self.new.answers.contents) ≤ self.new.answers.maximum }
        ensures same_bound { self.new.answers.maximum ≡ self.old.answers.maximum }
    {
        let known = match self.answers.get_sync(&request) {
            Some(entry) => Some(*entry.get()),
            None => None,
        };
        let answer = match known {
            Some(answer) => {
                self.hits = self.hits.saturating_add(1);
                answer
            }
            None => {
                self.misses = self.misses.saturating_add(1);
                let answer = ask(request);
                let _ = self.answers.put_sync(request, answer);
                answer
            }
        };
        prove!(self.answers.len() <= self.answers.capacity());
        answer
    }
}
