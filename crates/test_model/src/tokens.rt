//! Reservations that are released to another container.

use scc_table::Reservation;
use std::alloc::Global;
use test_forms::form::Form;
use test_forms::token::Token;
use test_kit::lines::say;
use test_kit::masked::{Masked, SAME};

/// Returns whether `form` refuses `token` and returns it with its `slots` slots.
fn refuses<F: Form>(form: &mut F, token: Reservation, slots: usize) -> bool {
    match form.release_slots(token) {
        Ok(()) => false,
        Err(back) => back.additional_capacity() == slots,
    }
}

/// Returns whether `second`, which reserved 50 and 60 slots, refuses a token of 200 slots of `first`, takes a token of
/// 100, and then refuses its own two.
fn judges<F: Form>(first: &mut F, second: &mut F) -> bool {
    let (Some(large), Some(small)) = (first.reserve_slots(200), first.reserve_slots(100)) else {
        return false;
    };
    let (Some(fifty), Some(sixty)) = (second.reserve_slots(50), second.reserve_slots(60)) else {
        return false;
    };
    let refused = refuses(second, large, 200) && second.sizes().minimum == 110;
    let taken = second.release_slots(small).is_ok() && second.sizes().minimum == 10;
    let own = refuses(second, sixty, 60) && refuses(second, fifty, 50);
    refused && taken && own && second.sizes().minimum == 10 && first.sizes().minimum == 300
}

fn of_maps(alloc: Global) -> bool {
    let mut first: scc_owned::map::Owned<Token, Token, Masked> = scc_owned::map::Owned::with_hasher(
        alloc, SAME,
    );
    let mut second: scc_owned::map::Owned<Token, Token, Masked> =
        scc_owned::map::Owned::with_hasher(alloc, SAME);
    judges(&mut first, &mut second)
}

fn of_sets(alloc: Global) -> bool {
    let mut first: scc_owned_set::Owned<Token, Masked> = scc_owned_set::Owned::with_hasher(
        alloc, SAME,
    );
    let mut second: scc_owned_set::Owned<Token, Masked> = scc_owned_set::Owned::with_hasher(
        alloc, SAME,
    );
    judges(&mut first, &mut second)
}

fn of_indexes(alloc: Global) -> bool {
    let mut first: scc_owned::index::Owned<Token, Token, Masked> =
        scc_owned::index::Owned::with_hasher(alloc, SAME);
    let mut second: scc_owned::index::Owned<Token, Token, Masked> =
        scc_owned::index::Owned::with_hasher(alloc, SAME);
    judges(&mut first, &mut second)
}

/// Prints a line for each kind that takes reservations. Returns the worst status.
pub(crate) fn run_tokens<R: AllocGlobal + Print>(rt: &R) -> u8 {
    let what = "release of foreign and own tokens";
    let alloc = rt.alloc();
    let map = say(rt, "owned map", what, Ok(of_maps(alloc)));
    let set = say(rt, "owned set", what, Ok(of_sets(alloc)));
    let index = say(rt, "owned index", what, Ok(of_indexes(alloc)));
    map.max(set).max(index)
}
