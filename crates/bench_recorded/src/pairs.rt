//! The keys and values that are upserted.
ghost use Rattle.std.specs.Prelude.{◌≡◌, ◌<◌, IfOk, vec_len};

use std::alloc::{AllocError, Global};

/// Scatters a number over 64 bits. Different numbers give different results.
fn mix(x: u64) -> u64 {
    let z = x.wrapping_add(0x9E37_79B9_7F4A_7C15);
    let z = (z ^ (z >> 30)).wrapping_mul(0xBF58_476D_1CE4_E5B9);
    let z = (z ^ (z >> 27)).wrapping_mul(0x94D0_49BB_1331_11EB);
    z ^ (z >> 31)
}

/// Returns the key of the call with this number, one of `keys` keys.
fn key_at(number: u64, keys: u64) -> u64
    requires { 0 < keys }
{
    mix(mix(number) % keys)
}

/// Returns for each of `calls` calls one of `keys` keys, in an order that nothing foretells, and the number of the
/// call.
pub(crate) fn drawn_pairs(
    alloc: Global,
    calls: u64,
    keys: u64,
) -> Result<Vec<(u64, u64)>, AllocError>
    requires { 0 < keys }
    ensures { IfOk result (λ v. vec_len v ≡ calls) }
{
    let mut pairs = Vec::new(alloc);
    for number in 0..calls {
        pairs.push((key_at(number, keys), number))?;
    }
    Ok(pairs)
}
