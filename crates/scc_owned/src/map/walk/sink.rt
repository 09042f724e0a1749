//! A list that receives the pairs which a walk takes out of a map.
ghost use Rattle.scc_owned.specs.Sinks.{with_units};
ghost use Rattle.std.specs.Prelude.{◌≡◌, ℕ, ◌<◌, ◌≤◌, ◌++◌, ◌∷◌, [], List, length, OnOk, OnErr};
ghost use Rattle.std.specs.Vec.{vec_capacity};

use std::alloc::AllocError;

/// A list that takes pairs at its end. Room for a pair is made before the pair comes, so that nothing is lost.
pub trait Sink<K, V> {
    // The pairs, in order.
    ghost pairs: { Self → List (K × V) };

    // The number of pairs that the list has memory for.
    ghost capacity: { Self → ℕ };

    /// Makes room for one more pair.
    fn reserve_one(&mut self) -> Result<(), AllocError>
        ensures pairs { pairs self.new ≡ pairs self.old }
        ensures room { OnOk result (length (pairs self.new) < capacity self.new) }
        ensures full { OnErr result (capacity self.new ≤ length (pairs self.new)) }
        ensures capacity { capacity self.old ≤ capacity self.new };

    /// Adds `pair` at the end, in room that is there.
    fn push_pair(&mut self, pair: (K, V))
        requires { length (pairs self.old) < capacity self.old }
        ensures pairs { pairs self.new ≡ pairs self.old ++ pair ∷ [] }
        ensures capacity { capacity self.new ≡ capacity self.old };
}

impl<K, V> Sink<K, V> for Vec<(K, V)> {
    ghost pairs = { λ v. v.items };

    ghost capacity = { vec_capacity };

    #[inline(always)]
    fn reserve_one(&mut self) -> Result<(), AllocError> {
        self.reserve(1)
    }

    #[inline(always)]
    fn push_pair(&mut self, pair: (K, V))
        requires { length self.old.items < vec_capacity self.old }
        ensures pairs { self.new.items ≡ self.old.items ++ pair ∷ [] }
        ensures capacity { vec_capacity self.new ≡ vec_capacity self.old }
    {
        self.push_reserved(pair);
    }
}

/// A list of keys takes pairs with unit values, and keeps their keys alone.
impl<K> Sink<K, ()> for Vec<K> {
    ghost pairs = { λ v. with_units v.items };

    ghost capacity = { vec_capacity };

    #[inline(always)]
    fn reserve_one(&mut self) -> Result<(), AllocError> {
        self.reserve(1)
    }

    #[inline(always)]
    fn push_pair(&mut self, pair: (K, ()))
        requires { length (with_units self.old.items) < vec_capacity self.old }
        ensures pairs { with_units self.new.items ≡ with_units self.old.items ++ pair ∷ [] }
        ensures capacity { vec_capacity self.new ≡ vec_capacity self.old }
    {
        self.push_reserved(pair.0);
    }
}
