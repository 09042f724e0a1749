//! Compares what a call returned with the plain list, and makes the call on the list.

use crate::answers::{Answer, Kind};
use crate::calls::{What, is_of};
use crate::form::{Act, At, Way};
use crate::list::List;
use crate::numbered::Seen;
use std::alloc::{AllocError, Global};

/// A call by its numbers.
#[derive(Clone, Copy)]
pub struct Asked {
    /// What it does.
    pub what: What,
    /// The number of its key.
    pub number: u64,
    /// The mark of its key.
    pub mark: u64,
    /// The hash of its key.
    pub hash: u64,
    /// The number of its value.
    pub value: u64,
}

impl Asked {
    /// Returns the pair of the call with `value`, as the kind shows it.
    fn pair(&self, kind: Kind, value: u64) -> Seen {
        let shown = if kind.shows_values() { value } else { 0 };
        (self.number, self.mark, shown)
    }
}

/// Adds the pair of a missing key.
fn add_missing(
    list: &mut List,
    asked: &Asked,
    way: Way,
    answer: Answer,
) -> Result<bool, AllocError> {
    let kind = list.kind();
    let pair = asked.pair(kind, way.value(asked.number, asked.value));
    let (evicted, is_right) = match answer {
        Answer::Added(evicted) => (evicted, way == Way::Insert),
        Answer::Entry(evicted, here) => (evicted, way.lends(kind) && here == pair),
        Answer::Old(None) => (None, way == Way::Upsert),
        Answer::Swapped(None, None) => (None, way == Way::Replace && kind == Kind::Set),
        _ => (None, false),
    };
    Ok(list.add(asked.hash, pair, evicted)? && is_right)
}

/// Returns the pair after adding by `way` to a key that is there, and the answer that the call must return.
fn after_adding(asked: &Asked, way: Way, kind: Kind, old: Seen) -> (Seen, Answer) {
    let written = (old.0, old.1, asked.value);
    let swapped = (asked.number, asked.mark, old.2);
    match way {
        Way::Insert => (old, Answer::Exists(asked.pair(kind, asked.value))),
        Way::Upsert => (written, Answer::Old(Some(old.2))),
        Way::Replace => {
            let lent = if kind == Kind::Set {
                None
            } else {
                Some(swapped)
            };
            (swapped, Answer::Swapped(Some(old.1), lent))
        }
        Way::InsertEntry => (written, Answer::Entry(None, written)),
        Way::Vacant => (old, Answer::Found(Some(old))),
        _ => (old, Answer::Entry(None, old)),
    }
}

fn add(list: &mut List, asked: &Asked, way: Way, answer: Answer) -> Result<bool, AllocError> {
    let Some(old) = list.find(asked.number) else {
        if way == Way::OrFail {
            return Ok(answer == Answer::Failed(asked.number));
        }
        return add_missing(list, asked, way, answer);
    };
    let (new, wanted) = after_adding(asked, way, list.kind(), old);
    // An insertion that fails because the key is there doesn't refresh the entry.
    if way == Way::Insert {
        return Ok(answer == wanted);
    }
    list.renew(asked.hash, new)?;
    Ok(answer == wanted)
}

fn replace(list: &mut List, asked: &Asked, answer: Answer) -> Result<bool, AllocError> {
    let is_missing = list.find(asked.number).is_none();
    if is_missing && list.kind() != Kind::Set {
        return Ok(answer == Answer::Swapped(None, None));
    }
    add(list, asked, Way::Replace, answer)
}

/// Sets the value of a key that is there, and returns the new pair.
fn write(list: &mut List, asked: &Asked, old: Seen) -> Result<Seen, AllocError> {
    let new = (old.0, old.1, asked.value);
    list.renew(asked.hash, new)?;
    Ok(new)
}

fn update(list: &mut List, asked: &Asked, answer: Answer) -> Result<bool, AllocError> {
    match list.find(asked.number) {
        Some(old) => {
            write(list, asked, old)?;
            Ok(answer == Answer::Old(Some(old.2)))
        }
        None => Ok(answer == Answer::Old(None)),
    }
}

fn modify(list: &mut List, asked: &Asked, answer: Answer) -> Result<bool, AllocError> {
    match list.find(asked.number) {
        Some(old) => {
            let new = write(list, asked, old)?;
            Ok(answer == Answer::Found(Some(new)))
        }
        None => Ok(answer == Answer::Vacant(asked.number, asked.mark)),
    }
}

/// Returns whether `next` is another pair of the list, or `None`.
fn is_other(list: &List, old: Seen, next: Option<Seen>) -> bool {
    match next {
        Some(pair) => pair.0 != old.0 && list.has(pair),
        None => true,
    }
}

/// Removes the pair of an entry. Returns `is_right`.
fn take_out(list: &mut List, old: Seen, is_right: bool) -> bool {
    list.remove(old.0);
    is_right
}

/// Does `act` on the entry of a pair that is there. Returns whether `answer` is right.
fn act_on(
    list: &mut List,
    asked: &Asked,
    act: Act,
    old: Seen,
    answer: Answer,
) -> Result<bool, AllocError> {
    let is_index = list.kind() == Kind::Index;
    let yes = Answer::Yes(true);
    Ok(match act {
        Act::Look => answer == Answer::Found(Some(old)),
        Act::Write => {
            let new = write(list, asked, old)?;
            answer == Answer::Found(Some(new))
        }
        Act::Set => {
            write(list, asked, old)?;
            answer
                == if is_index {
                    yes
                } else {
                    Answer::Old(Some(old.2))
                }
        }
        Act::Remove => take_out(list, old, answer == Answer::Old(Some(old.2))),
        Act::RemoveEntry => {
            let shown = Answer::Found(Some(old));
            take_out(list, old, answer == if is_index { yes } else { shown })
        }
        Act::Next => match answer {
            Answer::Found(next) => is_other(list, old, next),
            _ => false,
        },
        Act::RemoveNext => match answer {
            Answer::Gone(pair, next) => {
                let is_right = pair == old && is_other(list, old, next);
                take_out(list, old, is_right)
            }
            _ => false,
        },
    })
}

/// Does `act` on the first entry, which may be any of the list. Returns whether `answer` is right.
fn act_on_first(list: &mut List, act: Act, answer: Answer) -> bool {
    match (act, answer) {
        (Act::Next, Answer::Found(None)) => list.len() < 2,
        (_, Answer::Found(None)) => list.len() == 0,
        (_, Answer::Found(Some(pair))) => list.has(pair),
        (Act::RemoveNext, Answer::Gone(pair, next)) => {
            let is_right = list.has(pair) && is_other(list, pair, next);
            let goes_on = next.is_some() == (list.len() > 1);
            take_out(list, pair, is_right && goes_on)
        }
        _ => false,
    }
}

fn act(
    list: &mut List,
    asked: &Asked,
    at: At,
    act: Act,
    answer: Answer,
) -> Result<bool, AllocError> {
    if at == At::First {
        return Ok(act_on_first(list, act, answer));
    }
    match list.find(asked.number) {
        Some(old) => {
            // A cache refreshes an entry that is got.
            list.renew(asked.hash, old)?;
            act_on(list, asked, act, old, answer)
        }
        None => Ok(answer == Answer::Found(None)),
    }
}

/// Returns the answer for a removal that removes `pair`, or nothing.
fn gone(kind: Kind, pair: Option<Seen>) -> Answer {
    if kind == Kind::Index {
        Answer::Yes(pair.is_some())
    } else {
        Answer::Found(pair)
    }
}

fn remove(list: &mut List, asked: &Asked, answer: Answer) -> bool {
    let there = list.find(asked.number);
    list.remove(asked.number);
    answer == gone(list.kind(), there)
}

fn remove_if(list: &mut List, asked: &Asked, answer: Answer) -> bool {
    list.raise(asked.number);
    let kind = list.kind();
    let there = list.find(asked.number).filter(|pair| {
        let condition = if kind == Kind::Set { pair.0 } else { pair.2 };
        condition % 2 == 0
    });
    if there.is_some() {
        list.remove(asked.number);
    }
    answer == gone(kind, there)
}

/// Adds 1 to each value, and removes the pairs that a walk takes. Returns whether `met`, if it is there, are the
/// removed pairs.
fn take(
    alloc: Global,
    list: &mut List,
    asked: &Asked,
    met: Option<&[Seen]>,
) -> Result<bool, AllocError> {
    list.raise_all();
    let wanted = list.split_off(alloc, asked.number % 8)?;
    Ok(match met {
        Some(met) => {
            wanted.len() == met.len()
                && wanted
                    .iter()
                    .all(|pair| met.iter().any(|other| other == pair))
        }
        None => true,
    })
}

/// Removes the pairs of `met`. Returns whether they are pairs of the list, as many as the call's number modulo 8, or
/// all if the list has fewer.
fn drain(list: &mut List, asked: &Asked, met: &[Seen]) -> bool {
    let most = (asked.number % 8) as usize;
    let mut is_right = met.len() == most.min(list.len());
    for pair in met {
        is_right = is_right && list.has(*pair);
        list.remove(pair.0);
    }
    is_right
}

/// Makes a call that meets or removes many pairs. Returns whether `answer` and `met` are right.
fn walk(
    alloc: Global,
    list: &mut List,
    asked: &Asked,
    answer: Answer,
    met: &[Seen],
) -> Result<bool, AllocError> {
    let yes = answer == Answer::Yes(true);
    Ok(match asked.what {
        What::Pass => answer == Answer::Yes(list.find(asked.number).is_none()),
        What::Collect => yes && list.is_met_by(alloc, met)?,
        What::Step | What::Snapshot => yes && list.is_just(met),
        What::Take => yes && take(alloc, list, asked, Some(met))?,
        What::Retain => yes && take(alloc, list, asked, None)?,
        What::Drain => yes && drain(list, asked, met),
        What::Clear => {
            list.clear();
            yes
        }
        What::Copy => yes,
        _ => matches!(answer, Answer::Reserved(_, _, _)),
    })
}

/// Makes a call on the list. Returns whether `answer` and `met` are what the list gives. If the kind lacks the call,
/// `met` must be empty.
pub fn agrees(
    alloc: Global,
    list: &mut List,
    asked: &Asked,
    answer: Answer,
    met: &[Seen],
) -> Result<bool, AllocError> {
    if !is_of(asked.what, list.kind()) {
        return Ok(met.is_empty() && matches!(answer, Answer::Absent | Answer::Found(None)));
    }
    match asked.what {
        What::Add(way) => add(list, asked, way, answer),
        What::Replace => replace(list, asked, answer),
        What::Update => update(list, asked, answer),
        What::Modify => modify(list, asked, answer),
        What::Act(at, act_of) => act(list, asked, at, act_of, answer),
        What::Remove => Ok(remove(list, asked, answer)),
        What::RemoveIf => Ok(remove_if(list, asked, answer)),
        What::Read => Ok(answer == Answer::Found(list.find(asked.number))),
        What::Place => Ok(matches!(answer, Answer::Place(_, _))),
        _ => walk(alloc, list, asked, answer, met),
    }
}
