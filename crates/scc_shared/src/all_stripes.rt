//! Calls on a whole container: clearing, comparing, cloning. They look at the stripes one after another.
ghost use Rattle.scc_common.specs.Rules.{ClonesKeep};
ghost use Rattle.std.specs.Prelude.{◌≡◌, ◌<◌, IfOk};
ghost use Rattle.scc_stripes.specs.Stripes.{stripe_count};
ghost use Rattle.scc_shared.specs.Stripes.{hasher_of};

use super::unlocked::Unlocked;
use super::{HashContainer, Paired};
use scc_common::{Keyed, MakeError};
use std::cell::Cell;
use std::hash::{BuildHasher, Hash};
use std::sync::Wait;

impl<E: Keyed, H: BuildHasher> HashContainer<E, H>
where
    E::Key: Eq + Hash,
{
    /// Removes the entries of each stripe in turn. Whoever keeps a removed version of an index still has it.
    pub fn clear_sync(&self, rt: &impl Wait)
    where
        E: Drop,
    {
        for stripe in 0..self.stripes.stripes() {
            let mut guard = self.stripes.write(rt, stripe);
            guard.clear_sync();
            self.stripes.follow(&mut *guard);
        }
    }

    /// Waits until stripe `stripe` can be read. Returns at once if there is no such stripe.
    fn wait_until_readable(&self, rt: &impl Wait, stripe: usize) {
        if stripe < self.stripes.stripes() {
            drop(self.stripes.read(rt, stripe));
        }
    }
}

impl<E: Paired, H: BuildHasher> HashContainer<E, H>
where
    E::Key: Eq + Hash,
    E::Value: PartialEq,
{
    /// Returns whether each pair of either container has an equal key with an equal value in the other container. Each
    /// stripe is looked at as it is at that moment. One stripe of each container is locked at a time, for reading. A
    /// container may be compared with itself.
    pub fn eq_sync(&self, rt: &impl Wait, other: &Self) -> bool {
        self.is_within(rt, other) && other.is_within(rt, self)
    }

    fn is_within(&self, rt: &impl Wait, other: &Self) -> bool {
        for stripe in 0..self.stripes.stripes() {
            if !self.is_stripe_within(rt, stripe, other) {
                return false;
            }
        }
        true
    }

    /// Returns whether each pair of stripe `stripe` is in `other`. It never waits while it holds that stripe. If a
    /// stripe of `other` can't be read at once, it releases its own stripe, waits for the stripe of `other`, and
    /// begins again.
    fn is_stripe_within(&self, rt: &impl Wait, stripe: usize, other: &Self) -> bool
        requires { stripe < stripe_count self.now.stripes }
    {
        for _ in rt.forever() {
            let busy = Cell::new(None);
            let within = E::all(&self.stripes.read(rt, stripe), |k, v| {
                other.has_pair(k, v, &busy)
            });
            match busy.get() {
                None => return within,
                Some(there) => other.wait_until_readable(rt, there),
            }
        }
        unreachable!()
    }

    /// Returns whether `k` is in this container with a value that equals `v`. If the stripe of `k` can't be read at
    /// once, writes the number of that stripe to `busy` and returns false.
    fn has_pair(&self, k: &E::Key, v: &E::Value, busy: &Cell<Option<usize>>) -> bool {
        let stripe = self.stripes.route(k);
        match self.stripes.try_read(stripe) {
            Some(guard) => E::has_equal(&guard, k, v),
            None => {
                busy.set(Some(stripe));
                false
            }
        }
    }
}

impl<E: Paired + Drop, H: BuildHasher + Drop> HashContainer<E, H>
where
    E::Key: Eq + Hash + Clone + Drop,
    E::Value: Clone + Drop,
{
    /// Returns a container with clones of the pairs that each stripe holds when it is looked at, under the same hasher.
    /// It asks for the capacity of this container. One stripe of this container is locked at a time, for reading. The
    /// new stripes get their locks after the last clone. Under a rule, a clone of a pair must keep it. Fails if memory is refused, if a clone fails, or if two clones
    /// have equal keys.
    pub fn try_clone(&self, rt: &impl Wait) -> Result<Self, MakeError>
        requires { ClonesKeep E.allows E.Key.is_clone E.Value.is_clone }
        ensures hasher { IfOk result (λ m. hasher_of m ≡ hasher_of self.now) }
    {
        let mut made = Unlocked::alike(self.alloc, self, self.capacity(rt))?;
        for stripe in 0..self.stripes.stripes() {
            if !made.insert_all(&self.stripes.read(rt, stripe)) {
                return Err(MakeError);
            }
        }
        made.lock(self.alloc)
    }
}
