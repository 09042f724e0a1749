//! The comparison of 32 tags at once.
ghost use Rattle.std.specs.Int.{bit_at, trailing_zeros, w32};
ghost use Rattle.std.specs.Prelude.{◌≡◌, ◌≢◌, ◌==◌, ◌<◌, ◌≤◌, ℕ, map};
ghost use lib.Lanes.{mask_l};

use std::simd::prelude::*;

/// Returns a mask whose bit i is set exactly if `tags[i]` is `tag`.
#[inline(always)]
pub fn tag_mask(tags: &[u8; 32], tag: u8) -> u32
    ensures { result ≡ mask_l (map (λ x. x == tag) tags.now) }
{
    let same = u8x32::from_array(*tags).simd_eq(u8x32::splat(tag));
    same.to_bitmask() as u32
}

/// Returns the position of the lowest set bit of `bits`.
#[inline(always)]
pub(crate) fn lowest_bit(bits: u32) -> usize
    requires { 0 < bits }
    ensures value { result ≡ trailing_zeros w32 bits }
    ensures set { bit_at bits result ≡ 1 }
    ensures first { (k : ℕ) → bit_at bits k ≡ 1 → result ≤ k }
{
    bits.trailing_zeros() as usize
}

/// Returns `bits` with its lowest set bit cleared.
#[inline(always)]
pub(crate) fn without_lowest_bit(bits: u32) -> u32
    requires { 0 < bits }
    ensures less { result < bits }
    ensures others { (k : ℕ) → bit_at bits k ≡ 1 → k ≢ trailing_zeros w32 bits → bit_at result k ≡ 1 }
    ensures only { (k : ℕ) → bit_at result k ≡ 1 → (bit_at bits k ≡ 1) × (k ≢ trailing_zeros w32 bits) }
{
    bits & (bits - 1)
}
