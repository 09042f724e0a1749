//! Rules: which values may stand under a key. A ruled container keeps its rule for each of its pairs: a call stores only
//! what keeps it, and whatever a call hands out keeps it.
//!
//! A rule is a type without values, named as a parameter of the container. It costs nothing at run time.
ghost use Rattle.std.specs.Prelude.{◌≡◌, true};

use std::marker::PhantomData;

/// A rule that a container keeps for each of its pairs: a route leads to its own address, a square is the square of its
/// key.
pub trait Rule<K: Eq, V> {
    // The value may stand under the key.
    ghost holds: { K → V → Type 0 };

    // What may stand under a key may stand under an equal one. Equal keys needn't be one value: of two equal strings,
    // one may have more room. So a rule speaks of what equal keys have in common.
    ghost alike: { (j k : K) (v : V) → K.eq j k ≡ true → holds j v → holds k v };
}

/// The rule that every pair keeps. A function that is generic in the rule also serves a container under no rule.
pub struct Anything;

impl<K: Eq, V> Rule<K, V> for Anything {
    ghost holds = { λ _ _. Unit {0} };

    ghost alike = { λ j k v same h. tt };
}

/// The rule `R`, as the parameter of a container that keeps it. So calls of a container that keeps a rule may ask for more
/// than the calls of the same names of a container under no rule, which has the parameter `Anything`.
pub struct Under<R> {
    rule: PhantomData<R>,
}

impl<K: Eq, V, R: Rule<K, V>> Rule<K, V> for Under<R> {
    ghost holds = { R.holds };

    ghost alike = { R.alike };
}
