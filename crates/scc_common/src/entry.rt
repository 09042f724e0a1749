//! The entries of a table: an entry has a key (`Keyed`), may have a value (`Valued`), and may be made of the two (`Made`).
ghost use Rattle.scc_common.specs.PairWalks.{CalledToWrite, TakesToWrite};
ghost use Rattle.std.specs.Borrow.{sem, Lends};
ghost use Rattle.std.specs.Prelude.{◌≡◌, true, IfOk, IfErr};

use crate::Writer;
use std::alloc::Global;

/// An entry of a table, which is found by its key.
pub trait Keyed {
    type Key: Eq;

    ghost key_of: { Self → Self.Key };

    fn key(&self) -> &Self::Key
        ensures { result.now ≡ key_of self.now };
}

impl<K: Eq, V> Keyed for (K, V) {
    type Key = K;

    ghost key_of = { λ e. e.0 };

    #[inline(always)]
    fn key(&self) -> &K {
        &self.0
    }
}

/// An entry with a key and a value. It may allow only some values under a key.
pub trait Valued: Keyed {
    type Value;

    ghost value_of: { Self → Self.Value };

    // The entry with its value replaced.
    ghost with_value: { Self → Self.Value → Self };

    // The entry with its key replaced.
    ghost with_key: { Self → Self.Key → Self };

    // The value may stand under the key.
    ghost allows: { Self.Key → Self.Value → Type 0 };

    fn parts(&self) -> (&Self::Key, &Self::Value)
        ensures key { result.0.now ≡ Self.key_of self.now }
        ensures value { result.1.now ≡ value_of self.now }
        ensures allowed { allows result.0.now result.1.now };

    /// Lets `w` write to the value, and returns what `w` returns. `w` has to leave a value that the entry allows.
    fn write<W: Writer<Self::Key, Self::Value>>(&mut self, w: W) -> W::Out
        requires takes { allows (Self.key_of self.old) (value_of self.old)
            → W.takes w (Self.key_of self.old) (value_of self.old) }
        requires keeps { (r : W.Out) (v : Self.Value) → allows (Self.key_of self.old) (value_of self.old)
            → W.gives w (Self.key_of self.old) (value_of self.old) r v → allows (Self.key_of self.old) v }
        ensures written { (v : Self.Value) × W.gives w (Self.key_of self.old) (value_of self.old) result v
            × (self.new ≡ with_value self.old v) }
        ensures allowed { allows (Self.key_of self.old) (value_of self.old) };

    /// Calls `f` with the key and the value, and returns the result of `f`. `f` may write to the value, and has to leave
    /// one that the entry allows.
    fn visit<R, F: FnMut(&Self::Key, &mut Self::Value) -> R>(&mut self, f: &mut F) -> R
        requires takes { allows (Self.key_of self.old) (value_of self.old)
            → TakesToWrite F.FnMut f.old (Self.key_of self.old, value_of self.old) }
        requires keeps { (r : R) (v : Self.Value) (f' : F) → allows (Self.key_of self.old) (value_of self.old)
            → CalledToWrite F.FnMut f.old (Self.key_of self.old, value_of self.old) r v f'
            → allows (Self.key_of self.old) v }
        ensures written { (v : Self.Value)
            × CalledToWrite F.FnMut f.old (Self.key_of self.old, value_of self.old) result v f.new
            × (self.new ≡ with_value self.old v) }
        ensures allowed { allows (Self.key_of self.old) (value_of self.old) };

    fn replace_key(&mut self, key: Self::Key) -> Self::Key
        requires same { Self.Key.eq key (Self.key_of self.old) ≡ true }
        ensures old { result ≡ Self.key_of self.old }
        ensures new { self.new ≡ with_key self.old key };

    ghost value_is: { (e : Self) (v : Self.Value) → value_of (with_value e v) ≡ v };

    ghost value_keeps_key: { (e : Self) (v : Self.Value) → Self.key_of (with_value e v) ≡ Self.key_of e };

    ghost key_is: { (e : Self) (k : Self.Key) → Self.key_of (with_key e k) ≡ k };

    // What is allowed under a key is allowed under an equal one.
    ghost alike: { (j k : Self.Key) (v : Self.Value) → Self.Key.eq j k ≡ true → allows j v → allows k v };
}

impl<K: Eq, V> Valued for (K, V) {
    type Value = V;

    ghost use Rattle.std.specs.Prelude.{refl};

    ghost value_of = { λ e. e.1 };

    ghost with_value = { λ e v. (e.0, v) };

    ghost with_key = { λ e k. (k, e.1) };

    ghost allows = { λ _ _. Unit {0} };

    #[inline(always)]
    fn parts(&self) -> (&K, &V) {
        (&self.0, &self.1)
    }

    #[inline(always)]
    fn write<W: Writer<K, V>>(&mut self, w: W) -> W::Out {
        w.write(&self.0, &mut self.1)
    }

    #[inline(always)]
    fn visit<R, F: FnMut(&K, &mut V) -> R>(&mut self, f: &mut F) -> R {
        f(&self.0, &mut self.1)
    }

    #[inline(always)]
    fn replace_key(&mut self, key: K) -> K {
        std::mem::replace(&mut self.0, key)
    }

    ghost value_is = { λ e v. refl };

    ghost value_keeps_key = { λ e v. refl };

    ghost key_is = { λ e k. refl };

    ghost alike = { λ j k v same h. tt };
}

/// An entry that lends its value to write: one that allows every value.
pub trait Lending: Valued {
    fn parts_mut(&mut self) -> (&Self::Key, &mut Self::Value)
        ensures* writes_back { sem 𝓛 (Lends Self.row Self.Value.row self.entry result.1 (Self.with_value self.old)) }
        ensures key { result.0.now ≡ Self.key_of self.old }
        ensures value { result.1.now ≡ Self.value_of self.old };
}

impl<K: Eq, V> Lending for (K, V) {
    #[inline(always)]
    fn parts_mut(&mut self) -> (&K, &mut V) {
        (&self.0, &mut self.1)
    }
}

/// An entry that is made of parts, which fails if memory is refused.
pub trait Made: Sized {
    type Parts;

    // The entry that is made of the parts.
    ghost made_of: { Self.Parts → Self };

    fn make(alloc: Global, parts: Self::Parts) -> Result<Self, Self::Parts>
        ensures ok { IfOk result (λ e. e ≡ made_of parts) }
        ensures err { IfErr result (λ p. p ≡ parts) };
}
