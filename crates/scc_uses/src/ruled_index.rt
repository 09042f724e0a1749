//! Callers of an index under a rule: routes that lead to the address that they stand under.
ghost use Rattle.std.specs.Arc.{arc_value};
ghost use Rattle.std.specs.Prelude.{◌≡◌, ◌≤◌, IfErr, IfOk, IfSome, IsTrue};

use scc_common::{MakeError, Rule, Version};
use scc_owned::ruled_index::locked::Entry;
use scc_shared::ruled_index::RuledIndex;
use std::sync::{Arc, Wait};

/// The greatest distance of a route.
pub const FARTHEST: u32 = 16;

/// The way to an address: the neighbour to send to, and how many hops it takes.
#[derive(Clone, Copy, Drop)]
pub struct Way {
    pub address: u32,
    pub neighbour: u32,
    pub hops: u32,
}

/// The rule that a way leads to the address that it stands under, in at most 16 hops.
pub struct LeadsThere;

impl Rule<u32, Way> for LeadsThere {
    ghost use Rattle.std.proofs.Common.{rules};

    ghost holds = { λ address way. (way.address ≡ address) × (way.hops ≤ 16) };

    ghost alike = { λ j k way same h. Prim.search rules };
}

/// The ways by their addresses.
pub type Ways = RuledIndex<u32, Way, LeadsThere>;

/// Takes the way to `address` over `neighbour`, unless there is one or it takes more than 16 hops. Returns whether it
/// did.
pub fn offer<W: Wait>(rt: &W, ways: &Ways, address: u32, neighbour: u32, hops: u32) -> bool {
    hops <= FARTHEST
        && ways
            .insert_sync(
                rt,
                address,
                Way {
                    address,
                    neighbour,
                    hops,
                },
            )
            .is_ok()
}

/// Returns the way to `address`, or `None` if there is none. It leads to `address`, and stays what it is, whatever is
/// offered and withdrawn meanwhile.
pub fn way_to<W: Wait>(
    rt: &W,
    ways: &Ways,
    address: u32,
) -> Result<Option<Arc<Version<u32, Way>>>, MakeError>
    ensures { IfOk result (λ o. IfSome o (λ a. ((arc_value a).1.address ≡ address) × ((arc_value a).1.hops ≤ 16))) }
{
    ways.peek(rt, &address)
}

/// Takes the way to `address` over `neighbour` if it takes fewer hops than the way that stands there, or if none does.
/// Returns how many hops the way takes that then stands there, or `None` if memory is refused. Whoever keeps the old way
/// still has it.
pub fn shorten<W: Wait>(rt: &W, ways: &Ways, address: u32, neighbour: u32, hops: u32) -> Option<u32>
    requires { hops ≤ 16 }
    ensures { IfSome result (λ n. n ≤ hops) }
{
    let way = Way {
        address,
        neighbour,
        hops,
    };
    match ways.entry_sync(rt, address) {
        Entry::Occupied(mut entry) => {
            if entry.get().hops > hops {
                entry.update(way).ok()?;
            }
            Some(entry.get().hops)
        }
        Entry::Vacant(entry) => match entry.insert_entry(way) {
            Ok(entry) => Some(entry.get().hops),
            Err(_) => None,
        },
    }
}

/// Returns how many hops it takes to `address` for a neighbour.
pub fn hops_for_neighbours<W: Wait>(rt: &W, ways: &Ways, address: u32) -> Option<u32>
    ensures { IfSome result (λ n. n ≤ 17) }
{
    ways.peek_with(rt, &address, |_, way| way.hops + 1)
}

/// Returns whether each way of a snapshot leads to the address that it stands under: it does.
pub fn lead_there<W: Wait>(rt: &W, ways: &Ways) -> Result<bool, MakeError>
    ensures { IfOk result IsTrue }
{
    for version in ways.iter(rt)? {
        if version.value().address != *version.key() {
            return Ok(false);
        }
    }
    Ok(true)
}

/// Removes the ways over `neighbour`. Whoever keeps one still has it.
pub fn withdraw<W: Wait>(rt: &W, ways: &Ways, neighbour: u32) {
    ways.retain_sync(rt, |_, way| way.neighbour != neighbour);
}
