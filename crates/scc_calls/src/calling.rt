//! Containers whose calls are values.
ghost use Rattle.std.specs.Prelude.{◌≡◌, Bool, ℕ, ◌*◌, ◌<◌, ◌≤◌, List, ◌∷◌, ◌++◌, length, Option, Some, None, IfOk, MatchOption};
ghost use Rattle.std.specs.Cmp.{IsPartialEquivalence};
ghost use Rattle.scc_calls.specs.Calling.{CallsByRule, CallsCopiedByRule, PreparesCallByRule};
ghost use Rattle.scc_calls.specs.Copies.{Alike, ClonesEqual};
ghost use Rattle.scc_calls.specs.Made.{IsMadeFor};
ghost use Rattle.scc_calls.specs.Parts.{Routed, KeyRouted, RoutedFrom};
ghost use Rattle.scc_common.specs.Routing.{stripe_of};
ghost use Rattle.scc_calls.specs.declared.fixed.Setting.{Setting};

use crate::{Copied, Refused};
use scc_common::MakeError;
use std::alloc::Global;
use std::hash::{BuildHasher, Hash};

/// A container whose calls are values, and what its calls mean.
///
/// The meaning is a relation of states. A state is what the container contains, with its number of buckets.
pub trait Calls: Sized {
    /// The key by which a call is routed to a part.
    type Key: Hash;

    type Hasher: BuildHasher;

    type Call: Clone + PartialEq;

    type Reply: Clone + PartialEq;

    // What calls read and change.
    ghost State: { Type 0 };

    // What the parts of a container are together.
    ghost Whole: { Type 0 };

    // What no call changes.
    ghost setting: { Self → Setting Self.Hasher };

    ghost state: { Self → State };

    // The number of buckets.
    ghost size: { State → ℕ };

    // The state with `ℕ` buckets and no entry.
    ghost empty: { ℕ → State };

    // The maximum of a part, the third number, by the maximum that was asked for, the first number, and the slots of
    // the array that was made, the second. It is 0 in all kinds but the cache.
    ghost limits: { ℕ → ℕ → ℕ → Type 0 };

    // The keys of a state.
    ghost keys: { State → List Self.Key };

    // The key of a call, if it has one.
    ghost key_of: { Self.Call → Option Self.Key };

    // The reply that the call gives in this state, if the call makes no growth.
    ghost answer: { Setting Self.Hasher → State → Self.Call → Self.Reply };

    // This very call may give this very reply and lead from the first state to the second, without a resize.
    ghost moves: { Setting Self.Hasher → State → Self.Call → Self.Reply → State → Type 0 };

    // What a record of the call and the reply says: the step of some call and some reply that equal them.
    ghost means: { Setting Self.Hasher → State → Self.Call → Self.Reply → State → Type 0 };

    // A resize to this number of buckets may lead from the first state to the second.
    ghost resizes: { Setting Self.Hasher → State → ℕ → State → Type 0 };

    // Memory for the call may be refused in this state.
    ghost may_refuse: { Setting Self.Hasher → State → Self.Call → Type 0 };

    // The call may add a key. Only such a call makes an array or a growth, and such a call never makes the buckets
    // fewer.
    ghost adds: { Self.Call → Type 0 };

    // The call is prepared: it makes no growth now, and its reply equals this reply.
    ghost is_prepared: { Self → Self.Call → Self.Reply → Type 0 };

    // A growth is marked as refused just before, so that the next insertion doesn't try it again.
    ghost is_marked: { Self → Bool };

    ghost whole: { List State → Whole };

    // What a record of the call and the reply says of the whole. The first number is the number of parts, the second
    // is the part that recorded the call.
    ghost whole_means: { Setting Self.Hasher → ℕ → ℕ → Whole → Self.Call → Self.Reply → Whole → Type 0 };

    // A resize of one part may lead from the first whole to the second. The numbers are the number of parts, the part
    // that is resized, and its number of buckets afterwards.
    ghost whole_resizes: { Setting Self.Hasher → ℕ → ℕ → Whole → ℕ → Whole → Type 0 };

    /// Returns the key of `call`, or `None` if the call concerns all keys.
    fn key(call: &Self::Call) -> Option<&Self::Key>
        ensures { MatchOption result (key_of call.now ≡ None) (λ k. key_of call.now ≡ Some k.now) };

    /// Makes the first array or the growth that `call` needs, at most one resize, and returns two copies of the reply
    /// that `call` gives next. If it fails, the entries are unchanged, but the resize may have been made, and no
    /// growth is marked that wasn't marked before.
    fn ready(&mut self, call: &Self::Call) -> Result<(Self::Reply, Self::Reply), Refused>
        requires clones { ClonesEqual Self.Reply.is_clone Self.Reply.eq }
        ensures { PreparesCallByRule setting state size key_of answer resizes may_refuse adds is_prepared
            Self.Reply.is_infallible is_marked self.old call.now result self.new };

    /// Makes the call `call`, and returns its reply. Fails if memory or a clone is refused.
    fn call(&mut self, call: Self::Call) -> Result<Self::Reply, Refused>
        requires clones { ClonesEqual Self.Reply.is_clone Self.Reply.eq }
        ensures { CallsByRule setting state size key_of answer resizes may_refuse adds is_prepared
            Self.Reply.is_infallible moves Self.Reply.eq self.old call result self.new };

    /// Makes the call `call`, and returns its reply with two copies of it, as `ready` and then `call` do. Fails if memory
    /// or a clone is refused; then the entries are unchanged, but one resize may have been made.
    fn call_copied(&mut self, call: Self::Call) -> Result<Copied<Self::Reply>, Refused>
        requires clones { ClonesEqual Self.Reply.is_clone Self.Reply.eq }
        ensures { CallsCopiedByRule setting state size key_of answer resizes may_refuse
            Self.Reply.is_infallible moves Self.Reply.eq self.old call result self.new }
    {
        let (noted, kept) = self.ready(&call)?;
        let reply = self.call(call)?;
        Ok(Copied { reply, noted, kept })
    }

    /// Returns the number of buckets, or 0 if there is no array.
    fn buckets(&self) -> usize
        ensures { result ≡ size (state self.now) };

    /// Returns an empty part under `hasher`. The part skips the first `skipped` bits of each hash. It has an array of
    /// at least `slots` slots, or none if `slots` is 0. Only a cache uses `maximum`. Parts made with equal arguments
    /// have the same setting and the same number of buckets. Fails if memory is refused.
    fn make(
        alloc: Global,
        skipped: u32,
        slots: usize,
        maximum: usize,
        hasher: Self::Hasher,
    ) -> Result<Self, MakeError>
    where
        Self::Hasher: Drop,
        requires { skipped ≤ 4 }
        ensures made { IfOk result (λ c. IsMadeFor limits
            (record { hasher = hasher; skipped = skipped; slots = slots; maximum = maximum }) (setting c)) }
        ensures state { IfOk result (λ c. state c ≡ empty (size (state c))) }
        ensures size { IfOk result (λ c. (setting c).minimum ≡ 32 * size (state c)) };

    // Parts made with equal arguments have the same maximum.
    ghost one_limit: { (asked slots m n : ℕ) → limits asked slots m → limits asked slots n → m ≡ n };

    // A record of a call says what the call did and replied.
    ghost moves_mean: { ClonesEqual Self.Reply.is_clone Self.Reply.eq → (g : Setting Self.Hasher) (old new : State)
        (call : Self.Call) (reply : Self.Reply) → moves g old call reply new → means g old call reply new };

    // What a record says, a record of an equal call and an equal reply says too.
    ghost means_alike: { (g : Setting Self.Hasher) (old new : State) (call copy : Self.Call) (reply given : Self.Reply)
        → IsPartialEquivalence Self.Call.eq → IsPartialEquivalence Self.Reply.eq → Alike Self.Call.eq call copy → Alike
        Self.Reply.eq reply given → means g old call reply new → means g old copy given new };

    // If every key of every part, and the key of the call, routes to its own part, then a step of one part is a step
    // of the whole.
    ghost call_is_whole: { (g : Setting Self.Hasher) (n : ℕ) (before after : List State) (old new : State)
        (call : Self.Call) (reply : Self.Reply)
        → RoutedFrom (stripe_of Self.Hasher.BuildHasher Self.Hasher.Hasher.Hasher Self.Key.Hash.hash_input g.hasher n)
        keys 0 (before ++ old ∷ after) → KeyRouted (stripe_of Self.Hasher.BuildHasher Self.Hasher.Hasher.Hasher
        Self.Key.Hash.hash_input g.hasher n) (length before) (key_of call)
        → means g old call reply new
        → whole_means g n (length before) (whole (before ++ old ∷ after)) call reply (whole (before ++ new ∷ after)) };

    ghost resize_is_whole: { (g : Setting Self.Hasher) (n : ℕ) (before after : List State) (old new : State)
        (buckets : ℕ)
        → RoutedFrom (stripe_of Self.Hasher.BuildHasher Self.Hasher.Hasher.Hasher Self.Key.Hash.hash_input g.hasher n)
        keys 0 (before ++ old ∷ after)
        → resizes g old buckets new
        → whole_resizes g n (length before) (whole (before ++ old ∷ after)) buckets (whole (before ++ new ∷ after)) };

    // Keys stay in their parts: a call adds no key but its own, a resize adds none, and an empty part has none.
    ghost call_keeps: { (g : Setting Self.Hasher) (n i : ℕ) (old new : State) (call : Self.Call) (reply : Self.Reply)
        → Routed (stripe_of Self.Hasher.BuildHasher Self.Hasher.Hasher.Hasher Self.Key.Hash.hash_input g.hasher n) i
        (keys old) → KeyRouted (stripe_of Self.Hasher.BuildHasher Self.Hasher.Hasher.Hasher Self.Key.Hash.hash_input
        g.hasher n) i (key_of call) → means g old call reply new → Routed (stripe_of Self.Hasher.BuildHasher
        Self.Hasher.Hasher.Hasher Self.Key.Hash.hash_input g.hasher n) i (keys new) };

    ghost resize_keeps: { (g : Setting Self.Hasher) (n i : ℕ) (old new : State) (buckets : ℕ)
        → Routed (stripe_of Self.Hasher.BuildHasher Self.Hasher.Hasher.Hasher Self.Key.Hash.hash_input g.hasher n) i
        (keys old) → resizes g old buckets new → Routed (stripe_of Self.Hasher.BuildHasher Self.Hasher.Hasher.Hasher
        Self.Key.Hash.hash_input g.hasher n) i (keys new) };

    ghost empty_keeps: { (h : Self.Hasher) (n i buckets : ℕ) → Routed (stripe_of Self.Hasher.BuildHasher
        Self.Hasher.Hasher.Hasher Self.Key.Hash.hash_input h n) i (keys (empty buckets)) };
}
