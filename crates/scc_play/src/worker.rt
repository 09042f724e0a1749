//! One worker of a script.
ghost use Rattle.std.specs.Prelude.{◌≡◌, length, map, true, IfOk, IsSomeAnd, slice_get};
ghost use Rattle.scc_common.specs.Routing.{stripe_of};
ghost use Rattle.scc_play.specs.Making.{AddsCall};

use crate::printed::Printed;
use scc_recorded::{Pass, Recorded, Site};
use scc_stripes::workers::Work;
use std::alloc::{AllocError, Global};
use std::sync::Wait;
use std::sync::ledger::Ledger;

/// A worker with a pass of its own. It makes its calls of a script one after another.
#[derive(Drop)]
pub(crate) struct Worker<'a, P: Printed, L: Ledger, M: Site<P::Hasher>, R: Wait> {
    rt: &'a R,
    recorded: &'a Recorded<P, L, M>,
    calls: &'a [P::Call],
    pass: Pass<P, L>,
}

/// Makes a call on one stripe or on all stripes. Returns false if the call is refused.
fn make_call<P: Printed, L: Ledger, M: Site<P::Hasher>, R: Wait>(
    rt: &R,
    recorded: &Recorded<P, L, M>,
    pass: &mut Pass<P, L>,
    call: P::Call,
) -> bool
    ensures made { result ≡ true → AddsCall P.key_of P.Call.is_clone P.Reply.eq P.means
        (stripe_of P.Hasher.BuildHasher P.Hasher.Hasher.Hasher P.Key.Hash.hash_input recorded.now.hasher
        recorded.now.stripes) recorded.now.stripes call pass.old.log.clock pass.new.log.clock
        pass.old.log.receipts.items pass.new.log.receipts.items }
    ensures number { pass.new.log.number ≡ pass.old.log.number }
{
    if let Some(_key) = P::key(&call) {
        recorded.call(rt, pass, call).is_ok()
    } else if call == P::clear_call() {
        recorded.clear(rt, pass).is_ok()
    } else if call == P::len_call() {
        recorded.len(rt, pass).is_ok()
    } else {
        false
    }
}

impl<P: Printed, L: Ledger, M: Site<P::Hasher>, R: Wait> Work for Worker<'_, P, L, M, R> {
    fn turns(&self) -> usize
        ensures { result ≡ length self.now.calls.now }
    {
        self.calls.len()
    }

    fn turn(&mut self, j: usize) -> bool
        ensures made { result ≡ true → IsSomeAnd (slice_get self.old.calls.now j)
            (λ call. AddsCall P.key_of P.Call.is_clone P.Reply.eq P.means
            (stripe_of P.Hasher.BuildHasher P.Hasher.Hasher.Hasher P.Key.Hash.hash_input self.old.recorded.now.hasher
            self.old.recorded.now.stripes) self.old.recorded.now.stripes call self.old.pass.log.clock
            self.new.pass.log.clock self.old.pass.log.receipts.items self.new.pass.log.receipts.items) }
        ensures number { self.new.pass.log.number ≡ self.old.pass.log.number }
    {
        match self.calls.get(j) {
            Some(call) => make_call(self.rt, self.recorded, &mut self.pass, P::same_call(call)),
            None => false,
        }
    }
}

/// Returns a worker for each pass, with the calls of the same number in `lists`. Fails if there aren't as many passes
/// as lists, or if memory is refused.
pub(crate) fn workers_of<'a, P: Printed, L: Ledger, M: Site<P::Hasher>, R: Wait>(
    rt: &'a R,
    alloc: Global,
    recorded: &'a Recorded<P, L, M>,
    passes: Vec<Pass<P, L>>,
    lists: &'a [Vec<P::Call>],
) -> Result<Vec<Worker<'a, P, L, M, R>>, AllocError>
    ensures passes { IfOk result (λ v. map (λ w. w.pass) v.items ≡ passes.items) }
    ensures calls { IfOk result (λ v. map (λ w. w.calls.now) v.items ≡ map (λ l. l.items) lists.now) }
{
    if passes.len() != lists.len() {
        return Err(AllocError);
    }
    let mut workers = Vec::with_capacity(alloc, passes.len())?;
    let mut passes = passes;
    for calls in lists {
        let pass = passes.remove(0);
        workers.push(Worker {
            rt,
            recorded,
            calls: calls.as_slice(),
            pass,
        })?;
    }
    Ok(workers)
}

/// Returns the passes of the workers. Fails if memory is refused.
pub(crate) fn passes_of<P: Printed, L: Ledger, M: Site<P::Hasher>, R: Wait>(
    alloc: Global,
    workers: Vec<Worker<'_, P, L, M, R>>,
) -> Result<Vec<Pass<P, L>>, AllocError>
    ensures { IfOk result (λ v. v.items ≡ map (λ w. w.pass) workers.entry.items) }
{
    let mut passes = Vec::with_capacity(alloc, workers.len())?;
    for worker in workers {
        let Worker {
            rt: _,
            recorded: _,
            calls: _,
            pass,
        } = worker;
        passes.push(pass)?;
    }
    Ok(passes)
}
