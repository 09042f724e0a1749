//! What writes to the value of an entry: a closure of one of three forms, or a value that is put.
ghost use Rattle.scc_common.specs.Closures.{TakesAt, WritesAt};
ghost use Rattle.scc_common.specs.PairWalks.{CalledToWrite, TakesToWrite};
ghost use Rattle.std.specs.Fn.{FnOnceTakesAtMut, FnOnceReturnsAtMut};
ghost use Rattle.std.specs.Prelude.{◌≡◌};

use std::mem;

/// A call that may write to a value under a key.
pub trait Writer<K, V>: Sized {
    /// What the call returns.
    type Out;

    // The call may be made at this key and value.
    ghost takes: { Self → K → V → Type 0 };

    // The call at this key and value may return this result and leave this value.
    ghost gives: { Self → K → V → Self.Out → V → Type 0 };

    /// Writes to the value.
    fn write(self, key: &K, value: &mut V) -> Self::Out
        requires { takes self key.now value.old }
        ensures { gives self key.now value.old result value.new };
}

/// A closure on the key and the value.
#[derive(Drop)]
pub struct OfPair<F> {
    pub f: F,
}

impl<K, V, R, F: FnOnce(&K, &mut V) -> R> Writer<K, V> for OfPair<F> {
    type Out = R;

    ghost takes = { λ s k v. TakesAt F.FnOnce s.f (k, v) };

    ghost gives = { λ s k v r w. WritesAt F.FnOnce s.f (k, v) r w };

    #[inline(always)]
    fn write(self, key: &K, value: &mut V) -> R {
        let OfPair { f } = self;
        f(key, value)
    }
}

/// A closure on the value.
#[derive(Drop)]
pub struct OfValue<F> {
    pub f: F,
}

impl<K, V, R, F: FnOnce(&mut V) -> R> Writer<K, V> for OfValue<F> {
    type Out = R;

    ghost takes = { λ s k v. FnOnceTakesAtMut F.FnOnce s.f v };

    ghost gives = { λ s k v r w. FnOnceReturnsAtMut F.FnOnce s.f v r w };

    #[inline(always)]
    fn write(self, _key: &K, value: &mut V) -> R {
        let OfValue { f } = self;
        f(value)
    }
}

/// A closure on the key and the value that can be called again: it comes back with its result.
#[derive(Drop)]
pub struct OfEach<F> {
    pub f: F,
}

impl<K, V, R, F: FnMut(&K, &mut V) -> R> Writer<K, V> for OfEach<F> {
    type Out = (R, F);

    ghost takes = { λ s k v. TakesToWrite F.FnMut s.f (k, v) };

    ghost gives = { λ s k v r w. CalledToWrite F.FnMut s.f (k, v) r.0 w r.1 };

    #[inline(always)]
    fn write(self, key: &K, value: &mut V) -> (R, F) {
        let OfEach { mut f } = self;
        let answer = f(key, value);
        (answer, f)
    }
}

/// A value that takes the place of the old one, which is returned.
#[derive(Drop)]
pub struct Put<V> {
    pub value: V,
}

impl<K, V> Writer<K, V> for Put<V> {
    type Out = V;

    ghost takes = { λ s k v. Unit {0} };

    ghost gives = { λ s k v r w. (r ≡ v) × (w ≡ s.value) };

    #[inline(always)]
    fn write(self, _key: &K, value: &mut V) -> V {
        let Put { value: new } = self;
        mem::replace(value, new)
    }
}
