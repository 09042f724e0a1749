//! A function that takes long to evaluate, with a memo of its values.
ghost use Rattle.std.specs.Prelude.{◌≡◌, ℕ, IfOk, IsOk};

use scc_common::MakeError;
use scc_memo::{Memo, Pure};
use std::alloc::Global;
use std::hash::{BuildHasherDefault, FoldHasher};
use std::marker::Model;

/// The greatest number of slots of an evaluator's memo.
const MOST_SLOTS: usize = 256;

/// A function that takes long to evaluate.
pub trait Function: Drop {
    // The value of the function at an argument.
    ghost value: { Self → ℕ → ℕ };

    /// Returns the value at `argument`.
    fn evaluate(&self, argument: u64) -> u64
        ensures { result ≡ value self.now argument };
}

/// The function in the form that a memo calls.
#[derive(Drop)]
pub struct Asked<F: Function>(F);

impl<F: Function> Pure for Asked<F> {
    ghost use Rattle.std.proofs.Common.{ap};
    ghost use Rattle.std.proofs.lemmas.Bool.{eqb-true};

    type Key = u64;

    type Value = u64;

    ghost value = { λ a k. F.value a.0 k };

    ghost equal_alike = { λ a j k same. ap (F.value a.0) (eqb-true j k same) };

    fn of(&self, k: &u64) -> u64 {
        self.0.evaluate(*k)
    }
}

/// A function with a memo of some of its values. A contract sees the function alone.
#[derive(Drop)]
pub struct Evaluator<F: Function> {
    memo: Memo<Asked<F>, BuildHasherDefault<FoldHasher>>,
}

impl<F: Function> Model for Evaluator<F> {
    ghost Value = { F };

    ghost view = { λ e. e.memo.function.0 };
}

impl<F: Function> Evaluator<F> {
    /// Returns the function with an empty memo.
    pub fn new(alloc: Global, function: F) -> Result<Self, MakeError>
        ensures function { IfOk result (λ e. e ≡ function) }
        ensures succeeds { IsOk result }
    {
        let memo = Memo::with_capacity_and_hasher(
            alloc,
            Asked(function),
            0,
            MOST_SLOTS,
            BuildHasherDefault::new(),
        )?;
        Ok(Evaluator { memo })
    }

    /// Returns the value at `argument`, from the memo if it has one. Else the value is new, and is stored unless
    /// memory is refused.
    pub fn value_at(&mut self, argument: u64) -> u64
        ensures value { result ≡ F.value self.old argument }
        ensures function { self.new ≡ self.old }
    {
        self.memo.get(argument)
    }
}
