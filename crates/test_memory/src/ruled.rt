// The kinds under a rule, in the cases of the other forms.
use crate::constructors::expect_made;
use crate::copies::{Copying, Snapshot, expect_job};
use crate::crowds::Crowd;
use crate::insertions::{Failing, SOME, State, expect_insertions};
use crate::makers::{Of, with};
use crate::removals::expect_shrinks;
use crate::reservations::{Greatest, Reservation};
use crate::versions::{Change, Changing};
use crate::walks::Taking;
use test_forms::form::WAYS;
use test_kit::refusals::Refusal;

/// Every kind under a rule.
const RULED: [Of; 4] = [Of::RuledMap, Of::RuledSet, Of::RuledIndex, Of::RuledCache];

/// Every kind under a rule but the index, which asks for memory for each pair.
const NO_INDEX: [Of; 3] = [Of::RuledMap, Of::RuledSet, Of::RuledCache];

/// Every kind under a rule but the cache, of which no slots can be reserved and which can't be cloned.
const NO_CACHE: [Of; 3] = [Of::RuledMap, Of::RuledSet, Of::RuledIndex];

#[test]
fn failed_closures_insert_nothing(rt: HostRuntime) {
    for of in [Of::RuledMap, Of::RuledIndex, Of::RuledCache] {
        with(&rt, &mut Refusal::new(), of, 0, &Failing);
    }
}

#[test]
fn insertions_refused_their_first_array(rt: HostRuntime) {
    for of in RULED {
        expect_insertions(&rt, of, State::Bare, 0, &WAYS);
    }
}

#[test]
fn insertions_refused_their_full_bucket(rt: HostRuntime) {
    for of in NO_INDEX {
        expect_insertions(&rt, of, State::Full, 64, &WAYS);
    }
}

#[test]
fn index_insertions_refused_their_full_bucket(rt: HostRuntime) {
    expect_insertions(&rt, Of::RuledIndex, State::Full, 64, &SOME);
}

#[test]
fn insertions_refused_their_overflow_list(rt: HostRuntime) {
    for of in [Of::RuledMap, Of::RuledSet] {
        expect_insertions(&rt, of, State::Wide, of.wide(), &SOME);
    }
}

#[test]
fn index_insertions_refused_their_overflow_list(rt: HostRuntime) {
    expect_insertions(
        &rt,
        Of::RuledIndex,
        State::Wide,
        Of::RuledIndex.wide(),
        &SOME,
    );
}

#[test]
fn removals_refused_their_shrink(rt: HostRuntime) {
    for of in NO_INDEX {
        expect_shrinks(&rt, of);
    }
}

#[test]
fn index_refused_its_shrink(rt: HostRuntime) {
    expect_shrinks(&rt, Of::RuledIndex);
}

#[test]
fn a_refused_clone_leaves_the_original(rt: HostRuntime) {
    expect_job(&rt, &NO_CACHE, &Copying);
}

#[test]
fn a_refused_snapshot_leaves_the_index(rt: HostRuntime) {
    expect_job(&rt, &[Of::RuledIndex], &Snapshot);
}

#[test]
fn a_refused_crowded_bucket_of_an_index_goes_on_waiting(rt: HostRuntime) {
    expect_job(&rt, &[Of::RuledIndex], &Crowd);
}

#[test]
fn a_taking_walk_stops_without_room(rt: HostRuntime) {
    expect_job(&rt, &NO_INDEX, &Taking);
}

/// The second reservation is made on a container without an array.
#[test]
fn slots_are_reserved_without_memory(rt: HostRuntime) {
    for of in NO_CACHE {
        let mut refusal = Refusal::new();
        with(&rt, &mut refusal, of, 64, &Reservation);
        with(&rt, &mut refusal, of, 0, &Greatest);
    }
}

#[test]
fn each_form_is_made_whole_or_not(rt: HostRuntime) {
    for of in RULED {
        expect_made(&rt, of);
    }
}

#[test]
fn a_refused_change_leaves_the_version(rt: HostRuntime) {
    let mut refusal = Refusal::new();
    for change in [Change::Update, Change::Modify] {
        with(&rt, &mut refusal, Of::RuledIndex, 64, &Changing { change });
    }
}
