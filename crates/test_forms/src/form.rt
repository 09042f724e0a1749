//! The trait `Form`: the calls that a test makes on a container of any kind and form.

use crate::answers::{Answer, Kind, Rule};
use crate::numbered::Seen;
use crate::token::Token;
use scc_table::Reservation;
use std::alloc::Global;

/// A way to add a pair. If the key is there, each way does what the call it is named after does.
#[derive(Clone, Copy, Debug, PartialEq)]
pub enum Way {
    /// `insert_sync`, or `put_sync` of a cache.
    Insert,
    /// `upsert_sync` of a map.
    Upsert,
    /// `replace_sync`. A vacant entry gets the value.
    Replace,
    /// `or_insert` of an entry, or `or_put` of a cache's entry.
    OrInsert,
    /// `or_insert_with`, or `or_put_with`.
    OrInsertWith,
    /// `or_insert_with_key`, or `or_put_with_key`. The value gets the key's number.
    OrInsertWithKey,
    /// `or_try_insert_with`, or `or_try_put_with`, with a closure that makes a value.
    OrTryInsertWith,
    /// `or_try_insert_with_key`, or `or_try_put_with_key`, with such a closure. The value gets the key's number.
    OrTryInsertWithKey,
    /// `or_default`. The value's number is 0.
    OrDefault,
    /// `insert_entry` of a map's entry, or `put_entry` of a cache's. If the key is there, it sets the value.
    InsertEntry,
    /// `insert_entry` or `put_entry` of a vacant entry. An occupied entry is dropped.
    Vacant,
    /// `or_try_insert_with_key`, or `or_try_put_with_key`, with a closure that fails with the key's number. A missing
    /// key stays missing.
    OrFail,
}

/// All ways that add a missing key.
pub const WAYS: [Way; 11] = [
    Way::Insert,
    Way::Upsert,
    Way::Replace,
    Way::OrInsert,
    Way::OrInsertWith,
    Way::OrInsertWithKey,
    Way::OrDefault,
    Way::InsertEntry,
    Way::Vacant,
    Way::OrTryInsertWith,
    Way::OrTryInsertWithKey,
];

impl Way {
    /// Returns the number of the value that a missing key gets.
    pub fn value(self, key: u64, value: u64) -> u64 {
        match self {
            Way::OrInsertWithKey | Way::OrTryInsertWithKey => key,
            Way::OrDefault => 0,
            _ => value,
        }
    }

    /// Returns whether the call returns an entry if the key is missing.
    pub fn lends(self, kind: Kind) -> bool {
        !matches!(self, Way::Insert | Way::Upsert) && kind != Kind::Set
    }

    /// Returns whether containers of `kind` have such calls.
    pub fn is_of(self, kind: Kind) -> bool {
        match kind {
            Kind::Map => true,
            Kind::Set => matches!(self, Way::Insert | Way::Replace),
            Kind::Index => !matches!(self, Way::Upsert | Way::Replace | Way::InsertEntry),
            Kind::Cache => self != Way::Upsert,
        }
    }
}

/// Which occupied entry a call asks for.
#[derive(Clone, Copy, Debug, PartialEq)]
pub enum At {
    /// The entry of the key, by `get_sync`.
    Key,
    /// The first entry whose key has the number, by `any_sync`.
    Any,
    /// The first entry of all, by `begin_sync`.
    First,
}

impl At {
    /// Returns whether containers of `kind` have such calls.
    pub fn is_of(self, kind: Kind) -> bool {
        match self {
            At::Key => kind != Kind::Set,
            At::Any | At::First => kind != Kind::Cache,
        }
    }
}

/// What a call does with an occupied entry.
#[derive(Clone, Copy, Debug, PartialEq)]
pub enum Act {
    /// Reads the pair. Returns `Found`.
    Look,
    /// Writes the value by `get_mut`. Returns `Found` with the new pair.
    Write,
    /// Sets the value by `insert`, `put` or `update`. Returns `Old`, or `Yes` for an index.
    Set,
    /// Removes the pair by `remove`. Returns `Old`.
    Remove,
    /// Removes the pair by `remove_entry`. Returns `Found`, or `Yes` for an index.
    RemoveEntry,
    /// Asks for the next entry by `next_sync`. Returns `Found`.
    Next,
    /// Removes the pair and asks for the next entry, by `remove_and_sync`. Returns `Gone`.
    RemoveNext,
}

impl Act {
    /// Returns whether containers of `kind` have such calls.
    pub fn is_of(self, kind: Kind) -> bool {
        match self {
            Act::Look | Act::RemoveEntry => true,
            Act::Set => kind != Kind::Set,
            Act::Write | Act::Remove => kind.writes_values(),
            Act::Next | Act::RemoveNext => kind != Kind::Cache,
        }
    }
}

/// The sizes of a container.
#[derive(Clone, Copy, Debug, PartialEq)]
pub struct Sizes {
    /// The number of pairs.
    pub len: usize,
    /// What `is_empty` returns.
    pub is_empty: bool,
    /// The number of slots of its arrays.
    pub capacity: usize,
    /// The least capacity.
    pub minimum: usize,
    /// The greatest capacity.
    pub maximum: usize,
}

impl Sizes {
    /// Returns the number of pairs and the number of slots.
    pub fn used(&self) -> (usize, usize) {
        (self.len, self.capacity)
    }
}

/// A container of any kind and form. A call that the kind lacks returns `Absent` and adds nothing to `met`.
pub trait Form {
    /// Returns the kind.
    fn kind(&self) -> Kind;

    /// Adds the pair by `way`.
    fn add(&mut self, way: Way, key: Token, value: Token) -> Answer;

    /// Replaces an equal key by `key`, by `replace_sync`. Returns `Swapped`. If the key is missing, a set inserts it,
    /// and another kind drops the vacant entry.
    fn replace(&mut self, _key: Token) -> Answer {
        Answer::Absent
    }

    /// Sets the value of `key` by `update_sync`, whose closure returns the old value. Returns `Old`.
    fn update(&mut self, _key: &Token, _value: Token) -> Answer {
        Answer::Absent
    }

    /// Sets the value of the key's entry by `and_modify`. Returns `Found` with the new pair, or `Vacant`.
    fn modify(&mut self, _key: Token, _value: Token) -> Answer {
        Answer::Absent
    }

    /// Does `act` with the occupied entry that `at` names. Returns `Found(None)` if there is no such entry.
    fn act(&mut self, at: At, act: Act, key: &Token, value: Token) -> Answer;

    /// Removes the key. Returns `Found`, or `Yes` for an index.
    fn remove(&mut self, key: &Token) -> Answer;

    /// Adds 1 to the value, and removes the pair if the value is even then. An index writes nothing. A set removes
    /// the key if the key's number is even.
    fn remove_if(&mut self, key: &Token) -> Answer;

    /// Makes all look-ups of `key`. Returns `Found` with the pair, or `Wrong` if two of the look-ups differ.
    fn read(&self, key: &Token) -> Answer;

    /// Returns `Place` with the number of the key's bucket and whether the bucket has room. An index gives the bucket
    /// alone.
    fn place(&self, _key: &Token) -> Answer {
        Answer::Absent
    }

    /// Adds 1 to each value, and removes the pairs whose key's number leaves `rest` when divided by 8. An index
    /// writes nothing.
    fn retain(&mut self, rest: u64);

    /// Walks by `rule`, and adds the pairs that it takes to `met`. Returns `Yes`, or `Refused` if memory is refused.
    fn take(&mut self, _alloc: Global, _rule: Rule, _met: &mut Vec<Seen>) -> Answer {
        Answer::Absent
    }

    /// Adds all pairs to `met` in the order of a walk. Returns whether there was room.
    fn collect(&self, met: &mut Vec<Seen>) -> bool;

    /// Returns whether a walk that stops at the key with `number` went on to its end.
    fn passes(&self, number: u64) -> bool;

    /// Adds pairs to `met` by steps from entry to entry, at most `most` pairs.
    fn step(&mut self, _most: usize, _met: &mut Vec<Seen>) -> Answer {
        Answer::Absent
    }

    /// Removes pairs by steps from entry to entry, at most `most` pairs, and adds them to `met`.
    fn drain(&mut self, _most: usize, _met: &mut Vec<Seen>) -> Answer {
        Answer::Absent
    }

    /// Adds the pairs of a snapshot to `met`. Returns `Yes`, or `Refused` if memory is refused.
    fn snapshot(&self, _met: &mut Vec<Seen>) -> Answer {
        Answer::Absent
    }

    /// Returns `Yes` with whether a clone equals the container, compared from both sides, or `Refused` if memory is
    /// refused.
    fn copy(&self) -> Answer {
        Answer::Absent
    }

    /// Removes all pairs.
    fn clear(&mut self);

    /// Reserves `slots` slots and releases them. Returns `Reserved`, or `Refused` if they can't be reserved.
    fn reserve(&mut self, _slots: usize) -> Answer {
        Answer::Absent
    }

    /// Adds `additional` slots to the minimum. Returns the token that releases them, or `None`. Only an owned container
    /// has tokens that may be kept over other calls.
    fn reserve_slots(&mut self, _additional: usize) -> Option<Reservation> {
        None
    }

    /// Releases `token`. Returns the token if the container refuses it.
    fn release_slots(&mut self, token: Reservation) -> Result<(), Reservation> {
        Err(token)
    }

    /// Prepares an insertion of `key`. Returns `Yes`, or `Refused` if memory for the first array is refused. An owned
    /// container has this call.
    fn make_room(&mut self, _key: &Token) -> Answer {
        Answer::Absent
    }

    /// Removes the mark of a growth that was refused in `make_room`, if there is one.
    fn drop_room(&mut self) {}

    /// Returns the sizes.
    fn sizes(&self) -> Sizes;

    /// Returns the number of waiting buckets if the container tells it. An owned container does.
    fn waiting(&self) -> Option<usize> {
        None
    }

    /// Returns whether the container tells that memory was refused for the last resize that was due. An owned container
    /// tells it; another returns false.
    fn is_resize_refused(&self) -> bool {
        false
    }

    /// Returns whether the container has one stripe, so that its buckets are those of one table.
    fn is_one(&self) -> bool {
        true
    }
}
