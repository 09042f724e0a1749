//! The calls that concern a whole part, for the set, the index and the cache.

use crate::whole_calls::count_of;
use crate::{CacheCall, IndexCall, Reply, SetCall, WholeCalls};
use scc_common::Hashes;
use std::hash::{BuildHasher, Hash};

impl<K: Eq + Hash + Clone, H: BuildHasher> WholeCalls for scc_owned_set::Owned<K, H> {
    ghost use Rattle.std.proofs.Common.{refl, rules, ◌∙◌};
    ghost use Rattle.scc_calls.specs.Means.{means_of, told_alike};
    ghost use Rattle.scc_calls.specs.SetCalls.{SetMoves};
    ghost use Rattle.scc_calls.specs.WholeKinds.{set_clears, set_counts};
    ghost use Rattle.scc_calls.specs.WholeLaws.{counted_by};
    ghost use Rattle.scc_calls.specs.declared.calls_as_values.SetCall.TheVariants.{Clear, Len};

    ghost clears = { Clear };

    ghost counts = { Len };

    ghost counted = { counted_by };

    fn clear_call() -> SetCall<K> {
        SetCall::Clear
    }

    fn len_call() -> SetCall<K> {
        SetCall::Len
    }

    fn counted(reply: &Reply<K, ()>) -> Option<usize> {
        count_of(reply)
    }

    ghost clears_all = { (
      refl,
      λ g s t r m. means_of ⟦<SetCall<K> as PartialEq>⟧.eq ⟦<Reply<K, ()> as PartialEq>⟧.eq
          (SetMoves K.eq) Clear (Prim.search rules) s t r (λ given a h. set_clears K.eq s t given h) m,
    ) };

    ghost counts_all = { (
      refl,
      λ g s t r m. means_of ⟦<SetCall<K> as PartialEq>⟧.eq ⟦<Reply<K, ()> as PartialEq>⟧.eq
          (SetMoves K.eq) Len (Prim.search rules) s t r (λ given a h. told_alike ⟦<Reply<K, ()> as PartialEq>⟧.eq
          counted_by (Prim.search rules) given r a ∙ set_counts K.eq s t given h) m,
    ) };

    ghost never_refused = { λ g s. (λ m. m, λ m. m) };
}

impl<K: Eq + Hash + Clone, V: Clone + PartialEq, H: BuildHasher> WholeCalls
    for scc_owned::index::Owned<K, V, H> {
    ghost use Rattle.std.proofs.Common.{refl, rules, ◌∙◌};
    ghost use Rattle.scc_calls.specs.Means.{means_of, told_alike};
    ghost use Rattle.scc_calls.specs.IndexCalls.{IndexMoves};
    ghost use Rattle.scc_calls.specs.WholeLaws.{counted_by, map_clears, map_counts};
    ghost use Rattle.scc_calls.specs.declared.calls_as_values.IndexCall.TheVariants.{Clear, Len};

    ghost clears = { Clear };

    ghost counts = { Len };

    ghost counted = { counted_by };

    fn clear_call() -> IndexCall<K, V> {
        IndexCall::Clear
    }

    fn len_call() -> IndexCall<K, V> {
        IndexCall::Len
    }

    fn counted(reply: &Reply<K, V>) -> Option<usize> {
        count_of(reply)
    }

    ghost clears_all = { (
      refl,
      λ g s t r m. means_of ⟦<IndexCall<K, V> as PartialEq>⟧.eq
          ⟦<Reply<K, V> as PartialEq>⟧.eq (IndexMoves K.eq K.is_clone) Clear (Prim.search rules) s t r
          (λ given a h. map_clears K.eq s t given h) m,
    ) };

    ghost counts_all = { (
      refl,
      λ g s t r m. means_of ⟦<IndexCall<K, V> as PartialEq>⟧.eq
          ⟦<Reply<K, V> as PartialEq>⟧.eq (IndexMoves K.eq K.is_clone) Len (Prim.search rules) s t r
          (λ given a h. told_alike ⟦<Reply<K, V> as PartialEq>⟧.eq counted_by (Prim.search rules) given r a ∙ map_counts
          K.eq s t given h) m,
    ) };

    ghost never_refused = { λ g s. (λ m. m, λ m. m) };
}

impl<K: Eq + Hash + Clone, V: Clone + PartialEq, H: BuildHasher> WholeCalls
    for scc_owned_cache::Owned<K, V, H> {
    ghost use Rattle.std.proofs.Common.{refl, rules, ◌∙◌};
    ghost use Rattle.scc_calls.specs.Means.{means_of, told_alike};
    ghost use Rattle.scc_calls.specs.CacheCalls.{number_by, CacheMoves};
    ghost use Rattle.scc_calls.specs.WholeKinds.{cache_clears, cache_counts};
    ghost use Rattle.scc_calls.specs.WholeLaws.{counted_by};
    ghost use Rattle.scc_calls.specs.declared.calls_as_values.CacheCall.TheVariants.{Clear, Len};

    ghost clears = { Clear };

    ghost counts = { Len };

    ghost counted = { counted_by };

    fn clear_call() -> CacheCall<K, V> {
        CacheCall::Clear
    }

    fn len_call() -> CacheCall<K, V> {
        CacheCall::Len
    }

    fn counted(reply: &Reply<K, V>) -> Option<usize> {
        count_of(reply)
    }

    ghost clears_all = { (
      refl,
      λ g s t r m. means_of ⟦<CacheCall<K, V> as PartialEq>⟧.eq
          ⟦<Reply<K, V> as PartialEq>⟧.eq (CacheMoves K.eq (number_by ⟦<H as Hashes<K>>⟧.hash_of g)) Clear
          (Prim.search rules) s t r (λ given a h. cache_clears K.eq (number_by ⟦<H as Hashes<K>>⟧.hash_of g) s t given
          h) m,
    ) };

    ghost counts_all = { (
      refl,
      λ g s t r m. means_of ⟦<CacheCall<K, V> as PartialEq>⟧.eq
          ⟦<Reply<K, V> as PartialEq>⟧.eq (CacheMoves K.eq (number_by ⟦<H as Hashes<K>>⟧.hash_of g)) Len
          (Prim.search rules) s t r (λ given a h. told_alike ⟦<Reply<K, V> as PartialEq>⟧.eq counted_by
          (Prim.search rules) given r a ∙ cache_counts K.eq (number_by ⟦<H as Hashes<K>>⟧.hash_of g) s t given h) m,
    ) };

    ghost never_refused = { λ g s. (λ m. m, λ m. m) };
}
