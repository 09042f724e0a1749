// What equal calls have in common, and equal replies: equal keys and equal values.
ghost use Rattle.std.specs.Prelude.{◌≡◌, true};
ghost use Rattle.scc_uses.specs.Alikeness.{MapCallsAlike, RepliesAlike};
ghost use Rattle.scc_uses.specs.AlikeIndexes.{IndexCallsAlike};
ghost use Rattle.scc_uses.specs.AlikeSets.{SetCallsAlike};

use scc_calls::{IndexCall, MapCall, Reply, SetCall};

/// States that equal replies are alike.
pub fn equal_replies<K: PartialEq, V: PartialEq>()
    ensures { (a : Reply K V) → (b : Reply K V) → ⟦<Reply<K, V> as PartialEq>⟧.eq a b ≡ true
        → RepliesAlike K.eq V.eq a b }
{}

/// States that equal replies of a set are alike.
pub fn equal_key_replies<K: PartialEq>()
    ensures { (a : Reply K (Unit {0})) → (b : Reply K (Unit {0})) → ⟦<Reply<K, ()> as PartialEq>⟧.eq a b ≡ true
        → RepliesAlike K.eq (λ _ _. true) a b }
{}

/// States that equal calls of a map are alike.
pub fn equal_map_calls<K: PartialEq, V: PartialEq>()
    ensures { (a : MapCall K V) → (b : MapCall K V) → ⟦<MapCall<K, V> as PartialEq>⟧.eq a b ≡ true
        → MapCallsAlike K.eq V.eq a b }
{}

/// States that equal calls of an index are alike.
pub fn equal_index_calls<K: PartialEq, V: PartialEq>()
    ensures { (a : IndexCall K V) → (b : IndexCall K V) → ⟦<IndexCall<K, V> as PartialEq>⟧.eq a b ≡ true
        → IndexCallsAlike K.eq V.eq a b }
{}

/// States that equal calls of a set are alike.
pub fn equal_set_calls<K: PartialEq>()
    ensures { (a : SetCall K) → (b : SetCall K) → ⟦<SetCall<K> as PartialEq>⟧.eq a b ≡ true → SetCallsAlike K.eq a b }
{}
