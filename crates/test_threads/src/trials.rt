// What is tried on a container of each kind. One function makes the container and tries it.
use crate::comparing::{compares_both_ways, equals_its_copy, equals_refreshed, is_itself};
use crate::kinds::{
    Cache, Index, Look, Map, RuledCache, RuledIndex, RuledMap, RuledSet, Set, Threaded, Way,
};
use crate::locks::{leaves_other, lets_go, looks_beside, share};
use crate::stripes::{goes_in_order, grows};
use crate::walks::walks_beside;
use std::alloc::Global;
use std::sync::Wait;
use std::thread::Threads;

/// A trial.
#[derive(Clone, Copy)]
pub enum Trial {
    /// A container equals itself each time, also beside a writer.
    EqualsItself,
    /// Two containers that two threads compare with one another come to an end.
    BothWays,
    /// A container equals its clone and differs from it as it must, whether its kind has values or not.
    Copy(bool),
    /// A cache equals another one in which other keys were used last, and differs from it as it must.
    Refreshed,
    /// A key goes into the second stripe while an entry of the first stripe is held.
    OtherStripe,
    /// Two threads read one key at once.
    Readers,
    /// A thread reads this way while another thread reads a key of the same stripe.
    Beside(Look),
    /// This way over all keys releases the first stripe before it takes the second.
    LetsGo(Way),
    /// This way over all keys goes from each stripe to the next.
    InOrder(Way),
    /// A stripe grows until it has room for a hundred keys.
    Grows,
    /// Walks of every way are right beside writers of so many keys, in a container for so many slots.
    Walks(u64, usize),
}

impl Trial {
    /// Returns the number of slots of the container.
    fn slots(self) -> usize {
        match self {
            Trial::EqualsItself | Trial::BothWays | Trial::Copy(_) | Trial::Refreshed => 512,
            Trial::OtherStripe | Trial::Readers | Trial::Beside(_) | Trial::LetsGo(_) => 128,
            Trial::InOrder(_) => 1024,
            Trial::Grows => 0,
            Trial::Walks(_, slots) => slots,
        }
    }
}

/// Tries an empty container.
fn holds<C: Threaded + Sync + Drop, R: Threads + Wait + Sync>(
    rt: &R,
    alloc: Global,
    container: &C,
    trial: Trial,
) -> bool {
    match trial {
        Trial::EqualsItself => is_itself(rt, container),
        Trial::BothWays => compares_both_ways(rt, alloc, container),
        Trial::Copy(has_values) => equals_its_copy(rt, container, has_values),
        Trial::Refreshed => equals_refreshed(rt, alloc, container),
        Trial::OtherStripe => leaves_other(rt, container),
        Trial::Readers => share(rt, container),
        Trial::Beside(look) => looks_beside(rt, alloc, container, look),
        Trial::LetsGo(way) => lets_go(rt, alloc, container, way),
        Trial::InOrder(way) => goes_in_order(rt, alloc, container, way),
        Trial::Grows => grows(rt, container),
        Trial::Walks(moved, _) => walks_beside(rt, alloc, container, moved),
    }
}

/// Tries a container of one kind. Returns false if memory is refused.
pub(crate) fn holds_in<C: Threaded + Sync + Drop, R: Threads + Wait + Sync>(
    rt: &R,
    alloc: Global,
    trial: Trial,
) -> bool {
    match C::make(alloc, trial.slots()) {
        Some(container) => holds(rt, alloc, &container, trial),
        None => false,
    }
}

/// Tries a map, a set, an index and a cache, and each of them under a rule.
pub(crate) fn holds_in_each<R: Threads + Wait + Sync>(
    rt: &R,
    alloc: Global,
    trial: Trial,
) -> [bool; 8] {
    [
        holds_in::<Map, R>(rt, alloc, trial),
        holds_in::<Set, R>(rt, alloc, trial),
        holds_in::<Index, R>(rt, alloc, trial),
        holds_in::<Cache, R>(rt, alloc, trial),
        holds_in::<RuledMap, R>(rt, alloc, trial),
        holds_in::<RuledSet, R>(rt, alloc, trial),
        holds_in::<RuledIndex, R>(rt, alloc, trial),
        holds_in::<RuledCache, R>(rt, alloc, trial),
    ]
}
