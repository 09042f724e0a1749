//! Callers of a set under a rule: even numbers.
ghost use Rattle.std.specs.Prelude.{◌≡◌, ◌*◌, ◌%◌, ◌<◌, ◌^◌, IfSome};

use scc_common::Rule;
use scc_shared_set::RuledSet;
use std::sync::Wait;

/// The rule that a number is even.
pub struct IsEven;

impl Rule<u64, ()> for IsEven {
    ghost use Rattle.std.proofs.Common.{rules};

    ghost holds = { λ k v. k % 2 ≡ 0 };

    ghost alike = { λ j k v same h. Prim.search rules };
}

/// A set of even numbers.
pub type Evens = RuledSet<u64, IsEven>;

/// Inserts the double of `half`, and returns whether it is new.
pub fn insert_double<W: Wait>(rt: &W, evens: &Evens, half: u64) -> bool
    requires { half < 2 ^ 63 }
{
    evens.insert_sync(rt, half * 2).is_ok()
}

/// Returns the half of `k` if the set has it.
pub fn half_of<W: Wait>(rt: &W, evens: &Evens, k: u64) -> Option<u64>
    ensures { IfSome result (λ half. 2 * half ≡ k) }
{
    evens.read_sync(
        rt,
        &k,
        |q: &u64| -> u64
            requires { q.now % 2 ≡ 0 }
            ensures { 2 * result ≡ q.now }
        { *q / 2 },
    )
}

/// Removes `k`, and returns its half.
pub fn take_half<W: Wait>(rt: &W, evens: &Evens, k: u64) -> Option<u64>
    ensures { IfSome result (λ half. 2 * half ≡ k) }
{
    match evens.remove_sync(rt, &k) {
        Some(q) => Some(q / 2),
        None => None,
    }
}

/// Removes the first number that the set meets, and returns its half.
pub fn take_first_half<W: Wait>(rt: &W, evens: &Evens) -> Option<u64>
    ensures { IfSome result (λ half. half < 2 ^ 63) }
{
    match evens.begin_sync(rt) {
        Some(entry) => Some(entry.remove_entry() / 2),
        None => None,
    }
}
