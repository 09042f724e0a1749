//! The calls that tests draw at random, and how one is made on a container of any form.

use crate::answers::{Answer, Kind, Rule, walked};
use crate::form::{Act, At, Form, WAYS, Way};
use crate::numbered::Seen;
use crate::token::Token;
use std::alloc::Global;

/// What a call does.
#[derive(Clone, Copy, Debug, PartialEq)]
pub enum What {
    /// Adds the pair by the given way.
    Add(Way),
    /// Replaces an equal key by the key.
    Replace,
    /// Sets the value of the key.
    Update,
    /// Sets the value of the key's entry.
    Modify,
    /// Does the given act with an occupied entry.
    Act(At, Act),
    /// Removes the key.
    Remove,
    /// Removes the key if a condition holds.
    RemoveIf,
    /// Looks the key up.
    Read,
    /// Asks for the key's bucket.
    Place,
    /// Walks up to the key.
    Pass,
    /// Walks over all pairs.
    Collect,
    /// Steps from entry to entry.
    Step,
    /// Walks over a snapshot.
    Snapshot,
    /// Clones the container and compares.
    Copy,
    /// Reserves slots and releases them.
    Reserve,
    /// Removes the pairs that a walk takes.
    Take,
    /// Removes the pairs that a walk doesn't keep.
    Retain,
    /// Removes the pairs of some entries, one after the other.
    Drain,
    /// Removes all pairs.
    Clear,
}

/// The calls that remove at most one pair.
pub const GENTLE: [What; 37] = [
    What::Add(Way::Insert),
    What::Add(Way::Upsert),
    What::Add(Way::Replace),
    What::Add(Way::OrInsert),
    What::Add(Way::OrInsertWith),
    What::Add(Way::OrInsertWithKey),
    What::Add(Way::OrDefault),
    What::Add(Way::InsertEntry),
    What::Add(Way::Vacant),
    What::Replace,
    What::Update,
    What::Modify,
    What::Act(At::Key, Act::Look),
    What::Act(At::Key, Act::Write),
    What::Act(At::Key, Act::Set),
    What::Act(At::Key, Act::Remove),
    What::Act(At::Key, Act::RemoveEntry),
    What::Act(At::Key, Act::Next),
    What::Act(At::Key, Act::RemoveNext),
    What::Act(At::Any, Act::Look),
    What::Act(At::Any, Act::Set),
    What::Act(At::Any, Act::RemoveEntry),
    What::Act(At::Any, Act::Next),
    What::Act(At::Any, Act::RemoveNext),
    What::Act(At::First, Act::Look),
    What::Act(At::First, Act::Next),
    What::Act(At::First, Act::RemoveNext),
    What::Remove,
    What::RemoveIf,
    What::Read,
    What::Place,
    What::Pass,
    What::Collect,
    What::Step,
    What::Snapshot,
    What::Copy,
    What::Reserve,
];

/// The calls that may remove many pairs.
pub const DRASTIC: [What; 4] = [What::Take, What::Retain, What::Drain, What::Clear];

/// The calls that neither add nor remove a pair.
pub const LOOKS: [What; 8] = [
    What::Read,
    What::Modify,
    What::Update,
    What::Act(At::Key, Act::Look),
    What::Act(At::Key, Act::Set),
    What::Act(At::Any, Act::Look),
    What::Pass,
    What::Place,
];

/// The number of slots that a test reserves.
pub const SLOTS: usize = 300;

/// Returns one of the first nine ways to add, by `number` modulo 9.
pub fn way_of(number: u64) -> Way {
    match usize::try_from(number % 9) {
        Ok(place) => match WAYS.get(place) {
            Some(way) => *way,
            None => Way::Insert,
        },
        Err(_) => Way::Insert,
    }
}

/// Makes a call that meets or removes many pairs, or a call on the whole container.
fn make_walk<F: Form>(
    alloc: Global,
    form: &mut F,
    what: What,
    number: u64,
    met: &mut Vec<Seen>,
) -> Answer {
    let few = (number % 8) as usize;
    match what {
        What::Pass => Answer::Yes(form.passes(number)),
        What::Collect => walked(form.collect(met)),
        What::Step => form.step(usize::MAX, met),
        What::Snapshot => form.snapshot(met),
        What::Copy => form.copy(),
        What::Take => form.take(alloc, Rule::Rest(number % 8), met),
        What::Retain => {
            form.retain(number % 8);
            Answer::Yes(true)
        }
        What::Drain => form.drain(few, met),
        What::Clear => {
            form.clear();
            Answer::Yes(true)
        }
        _ => form.reserve(SLOTS),
    }
}

/// Makes the call `what` on a container. Adds the pairs that the call meets or removes to `met`.
pub fn make<F: Form>(
    alloc: Global,
    form: &mut F,
    what: What,
    key: Token,
    value: Token,
    met: &mut Vec<Seen>,
) -> Answer {
    match what {
        What::Add(way) => form.add(way, key, value),
        What::Replace => form.replace(key),
        What::Update => form.update(&key, value),
        What::Modify => form.modify(key, value),
        What::Act(at, act) => form.act(at, act, &key, value),
        What::Remove => form.remove(&key),
        What::RemoveIf => form.remove_if(&key),
        What::Read => form.read(&key),
        What::Place => form.place(&key),
        _ => make_walk(alloc, form, what, key.number(), met),
    }
}

/// Returns whether the call depends on whether its key is there, so that a test must make it in both cases.
pub fn has_key(what: What) -> bool {
    !matches!(
        what,
        What::Collect
            | What::Step
            | What::Snapshot
            | What::Copy
            | What::Reserve
            | What::Take
            | What::Retain
            | What::Drain
            | What::Clear
            | What::Act(At::First, _)
    )
}

/// Returns whether containers of `kind` have the call.
pub fn is_of(what: What, kind: Kind) -> bool {
    match what {
        What::Add(way) => way.is_of(kind),
        What::Act(at, act) => at.is_of(kind) && act.is_of(kind),
        What::Replace => kind != Kind::Index,
        What::Update => kind == Kind::Map,
        What::Modify => kind != Kind::Set,
        What::Take => kind != Kind::Index,
        What::Snapshot => kind == Kind::Index,
        What::Place | What::Step | What::Drain | What::Copy | What::Reserve => kind != Kind::Cache,
        _ => true,
    }
}
