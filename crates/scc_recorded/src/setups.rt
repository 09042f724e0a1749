//! What a recorded container is made with, and the request that its stripes are made for.
ghost use Rattle.scc_calls.specs.declared.fixed.Request.{Request};
ghost use Rattle.scc_recorded.specs.Setups.{IsStripes, skipped_for, share_among};
ghost use Rattle.std.specs.Prelude.{◌≡◌, ◌≤◌, ◌<◌, ℕ, None, Option};

use scc_calls::Request;
use std::marker::Brand;
use std::sync::ledger::Ledger;

/// What a recorded container is made with.
#[derive(Drop)]
pub struct Setup<H> {
    /// The least number of slots in all stripes together; 0 for no arrays.
    pub capacity: usize,
    /// The number of slots above which a cache doesn't grow, in all stripes together; raised to 64, to the slots of the
    /// first arrays and to a power of two. The other kinds don't use it.
    pub maximum: usize,
    pub hasher: H,
}

/// Returns how many first bits of a hash name one of `stripes` stripes.
pub(crate) fn bits_among(stripes: usize) -> u32
    requires { IsStripes stripes }
    ensures bits { result ≡ skipped_for stripes }
    ensures few { result ≤ 4 }
{
    match stripes {
        1 => 0,
        2 => 1,
        4 => 2,
        8 => 3,
        _ => 4,
    }
}

/// Returns the share of one stripe in `slots`, rounded up.
pub(crate) fn share_among(slots: usize, stripes: usize) -> usize
    requires { 0 < stripes }
    ensures { result ≡ share_among slots stripes }
{
    let whole = slots / stripes;
    if slots % stripes == 0 {
        whole
    } else {
        whole + 1
    }
}

/// A ledger of stripes that are all made for one request. Whoever opens the stripes chooses the request.
pub trait Site<H>: Ledger {
    ghost chosen: { Option (Request H) };

    // The number of the stripes.
    ghost all: { ℕ };
}

impl<H> Site<H> for Brand {
    ghost chosen = { None };

    ghost all = { 0 };
}
