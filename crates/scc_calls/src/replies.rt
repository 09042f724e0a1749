//! The replies of calls as values, and copies of a reply that are made before its call.
ghost use Rattle.scc_buckets.specs.declared.place.Place.{Place};
ghost use Rattle.std.specs.Prelude.{◌≡◌, Option, true, IfOk, OnErr};
ghost use Rattle.scc_calls.specs.declared.replies.Reply.TheVariants.{Exists};
ghost use Rattle.std.specs.Cmp.{IsPartialEquivalence};
ghost use Rattle.scc_calls.specs.Copies.{ClonesEqual, MayNotClone};

use crate::{Copied, Refused};
use scc_buckets::Place;
use std::fmt::Debug;

/// The reply of a call. One type serves all kinds of container; in a set, `V` is `()`.
#[derive(Clone, Copy, Debug, PartialEq)]
pub enum Reply<K, V> {
    /// The pair, or the key of a set, was inserted.
    Inserted,
    /// A stored key equals the supplied key. The supplied pair comes back, and nothing changed.
    Exists(K, V),
    /// The value that was replaced, or `None` if the key was missing.
    Old(Option<V>),
    /// The stored key that was replaced, removed or read, or `None` if the key was missing.
    Key(Option<K>),
    /// The pair that was removed, or `None` if the key was missing.
    Pair(Option<(K, V)>),
    /// The value that was read, or `None` if the key was missing.
    Value(Option<V>),
    /// Whether the key was there.
    Has(bool),
    /// The pair was put. If its bucket was full, this is the least recent pair of that bucket, which was evicted.
    Evicted(Option<(K, V)>),
    /// All entries were removed.
    Cleared,
    /// The number of entries.
    Count(usize),
}

// A container that copies the reply to a call before it makes the call.
pub(crate) trait CopiesReply {
    type Call;

    type Reply: Clone + PartialEq;

    // The reply that the call gives next, if the call makes no growth.
    ghost next_reply: { Self → Self.Call → Self.Reply };

    // The call has a key.
    ghost has_key: { Self.Call → Type 0 };

    // If the call may add a key, this is the place of its key, or `None`.
    ghost knows: { Self → Self.Call → Option Place → Type 0 };

    /// Returns a copy of the reply that `call` gives next. If the call may add a key, `found` must be the place of
    /// its key, or `None` if the key is missing. Fails if a clone is refused.
    fn copy(&self, call: &Self::Call, found: Option<Place>) -> Result<Self::Reply, Refused>
        requires clones { ClonesEqual Self.Reply.is_clone Self.Reply.eq }
        requires known { knows self.now call.now found }
        ensures ok { IfOk result (λ r. Self.Reply.eq (next_reply self.now call.now) r ≡ true) }
        ensures refused { OnErr result (has_key call.now
            × MayNotClone Self.Reply.is_infallible (next_reply self.now call.now)) };
}

/// Returns two copies of the reply that `call` gives next. If the call may add a key, `found` must be the place of
/// its key, or `None` if the key is missing. Fails if a clone is refused.
pub(crate) fn copies<C: CopiesReply>(
    c: &C,
    call: &C::Call,
    found: Option<Place>,
) -> Result<(C::Reply, C::Reply), Refused>
    requires clones { ClonesEqual C.Reply.is_clone C.Reply.eq }
    requires known { C.knows c.now call.now found }
    ensures ok { IfOk result (λ r. (C.Reply.eq (C.next_reply c.now call.now) r.0 ≡ true)
        × (C.Reply.eq (C.next_reply c.now call.now) r.1 ≡ true)) }
    ensures refused { OnErr result (C.has_key call.now
        × MayNotClone C.Reply.is_infallible (C.next_reply c.now call.now)) }
{
    let first = c.copy(call, found)?;
    if let Ok(second) = first.clone() {
        return Ok((first, second));
    }
    // A refused clone of the copy says nothing of the reply, so the reply is copied once more.
    let second = c.copy(call, found)?;
    Ok((first, second))
}

/// Returns clones of `k` and `v`. Fails if a clone is refused.
pub(crate) fn clone_pair<K: Clone, V: Clone>(k: &K, v: &V) -> Result<(K, V), Refused>
    ensures ok { IfOk result (λ p. K.is_clone k.now p.0 × V.is_clone v.now p.1) }
    ensures refused { OnErr result (MayNotClone ⟦<(K, V) as Clone>⟧.is_infallible (k.now, v.now)) }
{
    let Ok(key) = k.clone() else {
        return Err(Refused);
    };
    let Ok(value) = v.clone() else {
        return Err(Refused);
    };
    Ok((key, value))
}

/// Returns two clones of `x`. Fails if a clone is refused.
pub(crate) fn clone_twice<X: Clone>(x: &X) -> Result<(X, X), Refused>
    ensures ok { IfOk result (λ p. X.is_clone x.now p.0 × X.is_clone x.now p.1) }
    ensures refused { OnErr result (MayNotClone X.is_infallible x.now) }
{
    let Ok(one) = x.clone() else {
        return Err(Refused);
    };
    let Ok(other) = x.clone() else {
        return Err(Refused);
    };
    Ok((one, other))
}

/// Returns `Reply::Exists(k, v)` with two copies. Fails if a clone is refused.
pub(crate) fn exists_copied<K: Clone, V: Clone>(k: K, v: V) -> Result<Copied<Reply<K, V>>, Refused>
    ensures reply { IfOk result (λ r. r.reply ≡ Exists k v) }
    ensures copies { IfOk result (λ r. ⟦<Reply<K, V> as Clone>⟧.is_clone (Exists k v) r.noted
        × ⟦<Reply<K, V> as Clone>⟧.is_clone (Exists k v) r.kept) }
    ensures refused { OnErr result (MayNotClone ⟦<Reply<K, V> as Clone>⟧.is_infallible (Exists k v)) }
{
    let noted = clone_pair(&k, &v)?;
    let kept = clone_pair(&k, &v)?;
    Ok(Copied {
        reply: Reply::Exists(k, v),
        noted: Reply::Exists(noted.0, noted.1),
        kept: Reply::Exists(kept.0, kept.1),
    })
}

/// States what `==` is. Does nothing.
pub(crate) fn equals<X: PartialEq>()
    ensures { IsPartialEquivalence X.eq }
{}
