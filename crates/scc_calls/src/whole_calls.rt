//! The calls that concern a whole part, and their forms for the map.
ghost use Rattle.std.specs.Prelude.{◌≡◌, ℕ, List, [], length, Option, None, Some, MatchOption};
ghost use Rattle.scc_calls.specs.declared.fixed.Setting.{Setting};
ghost use Rattle.scc_calls.specs.WholeLaws.{counted_by};

use crate::{Calls, MapCall, Reply};
use std::hash::{BuildHasher, Hash};

/// A container with a call that clears it and a call that counts its entries.
pub trait WholeCalls: Calls {
    ghost clears: { Self.Call };

    ghost counts: { Self.Call };

    // The number in a reply, if the reply has one.
    ghost counted: { Self.Reply → Option ℕ };

    /// Returns the call that clears a part.
    fn clear_call() -> Self::Call
        ensures { result ≡ clears };

    /// Returns the call that counts the entries of a part.
    fn len_call() -> Self::Call
        ensures { result ≡ counts };

    /// Returns the number in `reply`, or `None` if the reply has none.
    fn counted(reply: &Self::Reply) -> Option<usize>
        ensures { result ≡ counted reply.now };

    // After the call that clears it, a part has no keys.
    ghost clears_all: { (Self.key_of clears ≡ None) × ((g : Setting Self.Hasher) (s t : Self.State) (r : Self.Reply)
        → Self.means g s clears r t → Self.keys t ≡ []) };

    // The count of a part is the number of its keys.
    ghost counts_all: { (Self.key_of counts ≡ None) × ((g : Setting Self.Hasher) (s t : Self.State) (r : Self.Reply)
        → Self.means g s counts r t → counted r ≡ Some (length (Self.keys s))) };

    // Neither call is ever refused for memory.
    ghost never_refused: { (g : Setting Self.Hasher) (s : Self.State) → (Self.may_refuse g s clears → ⊥)
        × (Self.may_refuse g s counts → ⊥) };
}

impl<K: Eq + Hash + Clone, V: Clone + PartialEq, H: BuildHasher> WholeCalls
    for scc_owned::map::Owned<K, V, H> {
    ghost use Rattle.std.proofs.Common.{refl, rules, ◌∙◌};
    ghost use Rattle.scc_calls.specs.Means.{means_of, told_alike};
    ghost use Rattle.scc_calls.specs.MapCalls.{MapMoves};
    ghost use Rattle.scc_calls.specs.WholeLaws.{counted_by, map_clears, map_counts};
    ghost use Rattle.scc_calls.specs.declared.calls_as_values.MapCall.TheVariants.{Clear, Len};

    ghost clears = { Clear };

    ghost counts = { Len };

    ghost counted = { counted_by };

    fn clear_call() -> MapCall<K, V> {
        MapCall::Clear
    }

    fn len_call() -> MapCall<K, V> {
        MapCall::Len
    }

    fn counted(reply: &Reply<K, V>) -> Option<usize> {
        count_of(reply)
    }

    ghost clears_all = { (
      refl,
      λ g s t r m. means_of ⟦<MapCall<K, V> as PartialEq>⟧.eq ⟦<Reply<K, V> as PartialEq>⟧.eq
          (MapMoves K.eq) Clear (Prim.search rules) s t r (λ given a h. map_clears K.eq s t given h) m,
    ) };

    ghost counts_all = { (
      refl,
      λ g s t r m. means_of ⟦<MapCall<K, V> as PartialEq>⟧.eq ⟦<Reply<K, V> as PartialEq>⟧.eq
          (MapMoves K.eq) Len (Prim.search rules) s t r (λ given a h. told_alike ⟦<Reply<K, V> as PartialEq>⟧.eq
          counted_by (Prim.search rules) given r a ∙ map_counts K.eq s t given h) m,
    ) };

    ghost never_refused = { λ g s. (λ m. m, λ m. m) };
}

/// Returns the number in `reply`, or `None` if the reply has none.
pub(super) fn count_of<K, V>(reply: &Reply<K, V>) -> Option<usize>
    ensures { result ≡ counted_by reply.now }
{
    match reply {
        Reply::Count(n) => Some(*n),
        _ => None,
    }
}
