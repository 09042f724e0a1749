//! `Ruled`: a pair that keeps a rule, as the entry of a table.
ghost use Rattle.scc_common.specs.PairWalks.{CalledToWrite, TakesToWrite};
ghost use Rattle.std.specs.Prelude.{◌≡◌, true};

use crate::{Anything, Keyed, Lending, Rule, Valued, Writer};
use std::marker::{Model, PhantomData};

/// A pair that keeps a rule. A contract sees the pair, and knows the rule wherever the entry is read.
#[derive(Drop)]
pub struct Ruled<K: Eq, V, R: Rule<K, V>> {
    key: K,
    value: V,
    rule: PhantomData<R>,
}

impl<K: Eq, V, R: Rule<K, V>> Model for Ruled<K, V, R> {
    ghost use Rattle.std.specs.Coded.{coded×};

    ghost Value = { K × V };

    ghost coded = { coded× K.code V.code };

    ghost view = { λ e. (e.key, e.value) };

    ghost invariant = { λ e. R.holds e.key e.value };
}

impl<K: Eq, V, R: Rule<K, V>> Keyed for Ruled<K, V, R> {
    type Key = K;

    ghost key_of = { λ e. e.0 };

    #[inline(always)]
    fn key(&self) -> &K {
        &self.key
    }
}

impl<K: Eq, V, R: Rule<K, V>> Valued for Ruled<K, V, R> {
    type Value = V;

    ghost use Rattle.std.specs.Prelude.{refl};

    ghost value_of = { λ e. e.1 };

    ghost with_value = { λ e v. (e.0, v) };

    ghost with_key = { λ e k. (k, e.1) };

    ghost allows = { R.holds };

    #[inline(always)]
    fn parts(&self) -> (&K, &V) {
        (&self.key, &self.value)
    }

    #[inline(always)]
    fn write<W: Writer<K, V>>(&mut self, w: W) -> W::Out {
        w.write(&self.key, &mut self.value)
    }

    #[inline(always)]
    fn visit<A, F: FnMut(&K, &mut V) -> A>(&mut self, f: &mut F) -> A {
        f(&self.key, &mut self.value)
    }

    #[inline(always)]
    fn replace_key(&mut self, key: K) -> K {
        std::mem::replace(&mut self.key, key)
    }

    ghost value_is = { λ e v. refl };

    ghost value_keeps_key = { λ e v. refl };

    ghost key_is = { λ e k. refl };

    ghost alike = { R.alike };
}

impl<K: Eq, V> Lending for Ruled<K, V, Anything> {
    #[inline(always)]
    fn parts_mut(&mut self) -> (&K, &mut V) {
        (&self.key, &mut self.value)
    }
}

impl<K: Eq, V, R: Rule<K, V>> Ruled<K, V, R> {
    /// Makes the entry of a pair that keeps the rule.
    #[inline(always)]
    pub fn new(key: K, value: V) -> Ruled<K, V, R>
        requires { R.holds key value }
        ensures { result ≡ (key, value) }
    {
        Ruled {
            key,
            value,
            rule: PhantomData,
        }
    }

    /// Returns the key and the value.
    #[inline(always)]
    pub fn into_pair(self) -> (K, V)
        ensures pair { result ≡ self }
        ensures kept { R.holds result.0 result.1 }
    {
        let Ruled {
            key,
            value,
            rule: _,
        } = self;
        (key, value)
    }
}
