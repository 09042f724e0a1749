// The kinds and forms of container in which each case is tried. All keys have the hash 0, so they share a bucket.
use crate::{meetings, owned_makers, ruled_makers, shared_makers};
use std::alloc::Global;
use std::io::Print;
use std::process::Abort;
use std::sync::Wait;
use test_forms::answers::Kind;
use test_forms::form::Form;
use test_forms::token::Token;
use test_kit::refusals::{Refusal, TRIES};

// A kind in a form.
#[derive(Clone, Copy, Debug, PartialEq)]
pub(crate) enum Of {
    Map,
    Set,
    Index,
    Cache,
    SharedMap,
    SharedSet,
    SharedIndex,
    SharedCache,
    RuledMap,
    RuledSet,
    RuledIndex,
    RuledCache,
}

/// Every kind in every form, but under a rule (`ruled.rt`).
pub(crate) const EVERY: [Of; 8] = [
    Of::Map,
    Of::Set,
    Of::Index,
    Of::Cache,
    Of::SharedMap,
    Of::SharedSet,
    Of::SharedIndex,
    Of::SharedCache,
];

/// Every form but the caches, of which no slots can be reserved and which can't be cloned.
pub(crate) const NO_CACHES: [Of; 6] = [
    Of::Map,
    Of::Set,
    Of::Index,
    Of::SharedMap,
    Of::SharedSet,
    Of::SharedIndex,
];

/// Every form but the indexes, which ask for memory for each pair.
pub(crate) const NO_INDEXES: [Of; 6] = [
    Of::Map,
    Of::Set,
    Of::Cache,
    Of::SharedMap,
    Of::SharedSet,
    Of::SharedCache,
];

impl Of {
    pub(crate) fn kind(self) -> Kind {
        match self {
            Of::Map | Of::SharedMap | Of::RuledMap => Kind::Map,
            Of::Set | Of::SharedSet | Of::RuledSet => Kind::Set,
            Of::Index | Of::SharedIndex | Of::RuledIndex => Kind::Index,
            Of::Cache | Of::SharedCache | Of::RuledCache => Kind::Cache,
        }
    }

    /// Returns a number of slots for which each array has 128 slots.
    pub(crate) fn wide(self) -> usize {
        match self {
            Of::Map | Of::Set | Of::Index | Of::Cache => 128,
            _ => 2048,
        }
    }
}

// A job that is done with a container.
pub(crate) trait Job {
    fn run<F: Form, R: AllocGlobal + Abort + Print + Wait>(
        &self,
        rt: &R,
        refusal: &mut Refusal,
        of: Of,
        form: &mut F,
    );
}

// A kind in a form that can be made for a job.
pub(crate) trait Made: Sized {
    /// Makes an empty container with so many slots, or one of the items if no number is given. Returns `None` if memory
    /// is refused.
    fn make<R: Wait>(rt: &R, alloc: Global, slots: Option<usize>) -> Option<Self>;
}

/// Makes a container until it isn't refused. Returns `None` if it is refused each time.
pub(crate) fn until_made<C: Made + Drop, R: AllocGlobal + Print + Wait>(
    rt: &R,
    refusal: &mut Refusal,
    of: Of,
    slots: Option<usize>,
) -> Option<C> {
    for _ in 0..TRIES {
        match C::make(rt, rt.alloc(), slots) {
            Some(container) => return Some(container),
            None if slots.is_some() => meetings::constructor(rt, refusal, of),
            None => meetings::items(rt, refusal, of),
        }
    }
    None
}

/// Makes a container with so many slots, or of the items, and does the job with it. The form is printed, so that a
/// failure names it.
fn work<J: Job, R: AllocGlobal + Abort + Print + Wait>(
    rt: &R,
    refusal: &mut Refusal,
    of: Of,
    slots: Option<usize>,
    job: &J,
) {
    // If the line can't be written, a failure names no form.
    let _ = println!(rt; "on {of:?}");
    match of {
        Of::Map => owned_makers::work::<owned_makers::Map, J, R>(rt, refusal, of, slots, job),
        Of::Set => owned_makers::work::<owned_makers::Set, J, R>(rt, refusal, of, slots, job),
        Of::Index => owned_makers::work::<owned_makers::Index, J, R>(rt, refusal, of, slots, job),
        Of::Cache => owned_makers::work::<owned_makers::Cache, J, R>(rt, refusal, of, slots, job),
        Of::SharedMap => shared_makers::work_on_map(rt, refusal, slots, job),
        Of::SharedSet => shared_makers::work_on_set(rt, refusal, slots, job),
        Of::SharedIndex => shared_makers::work_on_index(rt, refusal, slots, job),
        Of::SharedCache => shared_makers::work_on_cache(rt, refusal, slots, job),
        Of::RuledMap => ruled_makers::work_on_map(rt, refusal, slots, job),
        Of::RuledSet => ruled_makers::work_on_set(rt, refusal, slots, job),
        Of::RuledIndex => ruled_makers::work_on_index(rt, refusal, slots, job),
        Of::RuledCache => ruled_makers::work_on_cache(rt, refusal, slots, job),
    }
}

/// Makes an empty container with `slots` slots, and does the job with it. A shared container of 64 slots has one
/// stripe. A cache has at most 128 slots.
pub(crate) fn with<J: Job, R: AllocGlobal + Abort + Print + Wait>(
    rt: &R,
    refusal: &mut Refusal,
    of: Of,
    slots: usize,
    job: &J,
) {
    work(rt, refusal, of, Some(slots), job);
}

/// Makes a container of the items, and does the job with it.
pub(crate) fn of_items<J: Job, R: AllocGlobal + Abort + Print + Wait>(
    rt: &R,
    refusal: &mut Refusal,
    of: Of,
    job: &J,
) {
    work(rt, refusal, of, None, job);
}

/// Returns the item of a key, which has its complement as value. Containers are made of the items of the keys below 34,
/// enough to make an array grow.
pub(crate) fn item(key: u64) -> (Token, Token) {
    (Token::of(key), Token::of(!key))
}
