// Tests of recorded maps of two stripes with two passes, single-threaded. Under `Same` the highest bit of a key names
// its stripe.
ghost use Rattle.std.specs.Prelude.{◌≡◌, Some};
ghost use Rattle.scc_recorded.specs.Setups.{request_of};

use crate::expect::expect_eq;
use scc::hash_map::Owned;
use scc::recorded::{
    Closed, FinishError, Finished, MapCall, Pass, Receipt, Recorded, Reply, Setup, Shared, Site,
    Step, Stripe, Unfinished,
};
use scc_script::same::Same;
use std::alloc::Global;
use std::marker::Brand;
use std::process::Abort;
use std::sync::ledger::{Blank, Ledger};
use std::sync::{Arc, Wait};

type Map = Owned<u64, u64, Shared<Same>>;

const HIGH: u64 = 1 << 63;

// Which pass makes a call: pass 0 or pass 1.
#[derive(Clone, Copy)]
enum Who {
    First,
    Second,
}

// An act of one of the two.
#[derive(Clone, Copy)]
enum Act {
    Insert(u64, u64),
    Read(u64),
    Clear,
    Len,
    // The pass raises its clock to the other's, if that is greater.
    Told,
}

// An observation. A test lists its observations in their order.
#[derive(Clone, Copy, Debug, PartialEq)]
enum Note {
    // A call got this reply.
    Answer(Reply<u64, u64>),
    // No call was made, so there is no reply.
    Told,
    // Memory was refused.
    Refused,
    // A finish was refused, of a recording that handed out this many passes. What came back follows.
    Back(FinishError, usize),
    // The stripe with this number came back, with its last stamp, its number of buckets at opening and its length.
    // Its steps follow.
    Stripe(usize, u64, usize, usize),
    // The pass with this number came back, with its clock. Its receipts follow.
    Pass(usize, u64),
    Receipt(Receipt<MapCall<u64, u64>, Reply<u64, u64>>),
    // A step in the stripe with this number. The steps of a finished run stand in its order.
    Step(usize, Step<MapCall<u64, u64>, Reply<u64, u64>>),
    // This many pairs are left in all stripes.
    Left(usize),
}

/// Returns the step of a call by `pass` in `stripe`, as its record has it.
fn call(
    stripe: usize,
    stamp: u64,
    pass: usize,
    call: MapCall<u64, u64>,
    reply: Reply<u64, u64>,
) -> Note {
    Note::Step(
        stripe,
        Step::Call {
            stamp,
            pass,
            call,
            reply,
        },
    )
}

/// Returns the receipt of a call on `stripe`.
fn receipt(stripe: usize, stamp: u64, call: MapCall<u64, u64>, reply: Reply<u64, u64>) -> Note {
    Note::Receipt(Receipt {
        stripe,
        stamp,
        call,
        reply,
    })
}

/// Returns the step of the first insertion's array in a stripe, two buckets, as the history has it.
fn array(stripe: usize, stamp: u64) -> Note {
    Note::Step(stripe, Step::Resize { stamp, buckets: 2 })
}

/// Makes an act by a pass, and returns what is seen of it.
fn answer<L: Ledger, M: Site<Shared<Same>>, R: Wait>(
    rt: &R,
    recorded: &Recorded<Map, L, M>,
    mine: &mut Pass<Map, L>,
    other: &Pass<Map, L>,
    act: Act,
) -> Note {
    match act {
        Act::Insert(key, value) => match recorded.call(rt, mine, MapCall::Insert(key, value)) {
            Ok(reply) => Note::Answer(reply),
            Err(_) => Note::Refused,
        },
        Act::Read(key) => match recorded.call(rt, mine, MapCall::Read(key)) {
            Ok(reply) => Note::Answer(reply),
            Err(_) => Note::Refused,
        },
        Act::Clear => match recorded.clear(rt, mine) {
            Ok(()) => Note::Answer(Reply::Cleared),
            Err(_) => Note::Refused,
        },
        Act::Len => match recorded.len(rt, mine) {
            Ok(count) => Note::Answer(Reply::Count(count)),
            Err(_) => Note::Refused,
        },
        Act::Told => {
            mine.told(other);
            Note::Told
        }
    }
}

/// Makes the acts in turn, and notes what is seen of each.
fn act_in_turn<L: Ledger, M: Site<Shared<Same>>, R: Wait>(
    rt: &R,
    recorded: &Recorded<Map, L, M>,
    first: &mut Pass<Map, L>,
    second: &mut Pass<Map, L>,
    acts: &[(Who, Act)],
    notes: &mut Vec<Note>,
) {
    for (who, act) in acts {
        let note = match *who {
            Who::First => answer(rt, recorded, first, second, *act),
            Who::Second => answer(rt, recorded, second, first, *act),
        };
        add(notes, note);
    }
}

/// Adds a note. If memory is refused, the note is lost, and the comparison of all notes fails.
fn add(notes: &mut Vec<Note>, note: Note) {
    let _ = notes.push(note);
}

/// Notes the step at `place`.
fn note_step(finished: &Finished<Map>, place: (usize, usize), notes: &mut Vec<Note>) {
    if let Some(history) = finished.histories.get(place.0) {
        if let Some(step) = history.get(place.1) {
            add(notes, Note::Step(place.0, *step));
        }
    }
}

/// Returns the number of pairs in all of `parts`.
fn left_in(parts: &[Map]) -> usize {
    let mut left = 0usize;
    for part in parts {
        left = left.saturating_add(part.len());
    }
    left
}

/// Notes each step in the order of the run, and the number of pairs left.
fn note_run(finished: &Finished<Map>, notes: &mut Vec<Note>) {
    for place in finished.order.as_slice() {
        note_step(finished, *place, notes);
    }
    add(notes, Note::Left(left_in(finished.parts.as_slice())));
}

/// Notes a stripe that came back, and its steps.
fn note_stripe(stripe: &Stripe<Map>, notes: &mut Vec<Note>) {
    let number = stripe.number;
    let count = stripe.container.len();
    add(
        notes,
        Note::Stripe(number, stripe.last, stripe.opened, count),
    );
    for step in stripe.history.as_slice() {
        add(notes, Note::Step(number, *step));
    }
}

/// Notes a pass that came back, and its receipts.
fn note_pass<L: Ledger>(pass: &Pass<Map, L>, notes: &mut Vec<Note>) {
    add(notes, Note::Pass(pass.number(), pass.clock()));
    for receipt in pass.receipts() {
        add(notes, Note::Receipt(*receipt));
    }
}

/// Notes all that a refused finish handed back.
fn note_back<L: Ledger, M: Site<Shared<Same>>>(
    back: &Unfinished<Map, L, M>,
    notes: &mut Vec<Note>,
) {
    add(notes, Note::Back(back.cause, back.recorded.passes));
    for guarded in back.recorded.stripes.as_slice() {
        note_stripe(&guarded.stripe, notes);
    }
    for pass in back.passes.as_slice() {
        note_pass(pass, notes);
    }
}

/// Notes how a finish ended. Returns what came back if it was refused.
fn note_end<L: Ledger, M: Site<Shared<Same>>>(
    ended: Result<Finished<Map>, Unfinished<Map, L, M>>,
    notes: &mut Vec<Note>,
) -> Option<(Closed<Map, L, M>, Vec<Pass<Map, L>>)> {
    match ended {
        Ok(finished) => {
            note_run(&finished, notes);
            None
        }
        Err(back) => {
            note_back(&back, notes);
            Some((back.recorded, back.passes))
        }
    }
}

/// Finishes the run with the first pass alone, and then with both passes.
fn finish_again<L: Ledger, M: Site<Shared<Same>>>(
    recorded: Recorded<Map, L, M>,
    passes: Vec<Pass<Map, L>>,
    notes: &mut Vec<Note>,
) -> bool {
    let mut passes = passes;
    let Some(last) = passes.pop() else {
        return false;
    };
    match note_end(recorded.finish(passes), notes) {
        Some((closed, passes)) => finish_with(closed, passes, last, notes),
        None => false,
    }
}

/// Finishes the run with `passes` and `last`.
fn finish_with<L: Ledger, M: Site<Shared<Same>>>(
    closed: Closed<Map, L, M>,
    passes: Vec<Pass<Map, L>>,
    last: Pass<Map, L>,
    notes: &mut Vec<Note>,
) -> bool {
    let mut passes = passes;
    passes.push(last).is_ok() && note_end(closed.finish(passes), notes).is_none()
}

// Which passes the run is finished with.
#[derive(Clone, Copy)]
enum Ends {
    // With both passes.
    WithBoth,
    // With the first pass alone, and then with both.
    WithOneThenBoth,
}

/// Makes the acts of both passes in turn, ends the run, and notes all that is seen. Returns false if memory was
/// refused.
fn play<L: Ledger, M: Site<Shared<Same>>, R: Wait>(
    rt: &R,
    alloc: Global,
    hasher: Shared<Same>,
    receipts: Blank,
    records: Blank,
    acts: &[(Who, Act)],
    ends: Ends,
    notes: &mut Vec<Note>,
) -> bool
    requires receipts { (receipts.name ≡ L.name) × (receipts.parts ≡ L.parts) × (receipts.parts ≡ 2) }
    requires records { (records.name ≡ M.name) × (records.parts ≡ M.parts) × (records.parts ≡ 2) }
    requires site { (M.chosen ≡ Some (request_of 0 0 hasher 2)) × (M.all ≡ 2) }
{
    let setup = Setup {
        capacity: 0,
        maximum: 0,
        hasher,
    };
    match Recorded::<Map, L, M>::open(alloc, setup, 2, 2, receipts, records) {
        Ok((recorded, passes)) => play_on(rt, recorded, passes, acts, ends, notes),
        Err(_) => false,
    }
}

/// Makes the acts and ends the run, as `play` does, with the two passes that were handed out.
fn play_on<L: Ledger, M: Site<Shared<Same>>, R: Wait>(
    rt: &R,
    recorded: Recorded<Map, L, M>,
    passes: Vec<Pass<Map, L>>,
    acts: &[(Who, Act)],
    ends: Ends,
    notes: &mut Vec<Note>,
) -> bool {
    let mut passes = passes;
    act_by_both(rt, &recorded, passes.as_mut_slice(), acts, notes);
    match ends {
        Ends::WithBoth => note_end(recorded.finish(passes), notes).is_none(),
        Ends::WithOneThenBoth => finish_again(recorded, passes, notes),
    }
}

/// Makes the acts of both passes in turn.
fn act_by_both<L: Ledger, M: Site<Shared<Same>>, R: Wait>(
    rt: &R,
    recorded: &Recorded<Map, L, M>,
    passes: &mut [Pass<Map, L>],
    acts: &[(Who, Act)],
    notes: &mut Vec<Note>,
) {
    if let [first, second] = passes {
        act_in_turn(rt, recorded, first, second, acts, notes);
    }
}

/// Plays the acts, and compares all notes with the wanted ones.
fn expect_notes<R: AllocGlobal + Abort + Wait>(
    rt: &R,
    acts: &[(Who, Act)],
    ends: Ends,
    wanted: &[Note],
) {
    let mut notes = Vec::new(rt.alloc());
    let is_played = match Arc::new(rt.alloc(), Same) {
        Ok(owner) => play::<Brand, Brand, R>(
            rt,
            rt.alloc(),
            Shared::new(owner),
            Blank::new(2),
            Blank::new(2),
            acts,
            ends,
            &mut notes,
        ),
        Err(_) => false,
    };
    expect_eq(rt, (is_played, notes.as_slice()), (true, wanted));
}

/// A stamp is one more than the greater of the pass's clock and the stripe's last stamp, so two calls in two stripes
/// may have equal stamps. The order of the run is by stamps, and by stripes if the stamps are equal.
#[test]
fn recorded_stamps_and_order(rt: HostRuntime) {
    let acts = [
        (Who::First, Act::Insert(1, 10)),
        (Who::First, Act::Insert(HIGH + 1, 20)),
        (Who::Second, Act::Read(1)),
        (Who::First, Act::Read(1)),
    ];
    let ten = Reply::Value(Some(10));
    let wanted = [
        Note::Answer(Reply::Inserted),
        Note::Answer(Reply::Inserted),
        Note::Answer(ten),
        Note::Answer(ten),
        array(0, 1),
        call(0, 1, 0, MapCall::Insert(1, 10), Reply::Inserted),
        call(0, 2, 1, MapCall::Read(1), ten),
        array(1, 2),
        call(1, 2, 0, MapCall::Insert(HIGH + 1, 20), Reply::Inserted),
        call(0, 3, 0, MapCall::Read(1), ten),
        Note::Left(2),
    ];
    expect_notes(&rt, &acts, Ends::WithBoth, &wanted);
}

#[test]
fn recorded_told_raises_clock(rt: HostRuntime) {
    let acts = [
        (Who::First, Act::Insert(1, 10)),
        (Who::Second, Act::Told),
        (Who::Second, Act::Insert(HIGH + 1, 20)),
    ];
    let wanted = [
        Note::Answer(Reply::Inserted),
        Note::Told,
        Note::Answer(Reply::Inserted),
        array(0, 1),
        call(0, 1, 0, MapCall::Insert(1, 10), Reply::Inserted),
        array(1, 2),
        call(1, 2, 1, MapCall::Insert(HIGH + 1, 20), Reply::Inserted),
        Note::Left(2),
    ];
    expect_notes(&rt, &acts, Ends::WithBoth, &wanted);
}

#[test]
fn recorded_finish_wants_every_pass(rt: HostRuntime) {
    let wanted = [
        Note::Back(FinishError::Missing, 2),
        Note::Stripe(0, 0, 0, 0),
        Note::Stripe(1, 0, 0, 0),
        Note::Pass(0, 0),
        Note::Left(0),
    ];
    expect_notes(&rt, &[], Ends::WithOneThenBoth, &wanted);
}

/// Calls were made in both stripes before a pass is missing. Everything comes back, and the finish with both passes
/// tells what the run was.
#[test]
fn recorded_finish_hands_back_every_call(rt: HostRuntime) {
    let acts = [
        (Who::Second, Act::Insert(HIGH + 1, 20)),
        (Who::First, Act::Insert(1, 10)),
        (Who::First, Act::Read(HIGH + 1)),
    ];
    let twenty = Reply::Value(Some(20));
    let second = call(1, 1, 1, MapCall::Insert(HIGH + 1, 20), Reply::Inserted);
    let first = call(0, 1, 0, MapCall::Insert(1, 10), Reply::Inserted);
    let read = call(1, 2, 0, MapCall::Read(HIGH + 1), twenty);
    let wanted = [
        Note::Answer(Reply::Inserted),
        Note::Answer(Reply::Inserted),
        Note::Answer(twenty),
        Note::Back(FinishError::Missing, 2),
        Note::Stripe(0, 1, 0, 1),
        array(0, 1),
        first,
        Note::Stripe(1, 2, 0, 1),
        array(1, 1),
        second,
        read,
        Note::Pass(0, 2),
        receipt(0, 1, MapCall::Insert(1, 10), Reply::Inserted),
        receipt(1, 2, MapCall::Read(HIGH + 1), twenty),
        array(0, 1),
        first,
        array(1, 1),
        second,
        read,
        Note::Left(2),
    ];
    expect_notes(&rt, &acts, Ends::WithOneThenBoth, &wanted);
}

#[test]
fn recorded_clear_and_len_stamp_each_stripe(rt: HostRuntime) {
    let acts = [
        (Who::First, Act::Insert(1, 10)),
        (Who::Second, Act::Clear),
        (Who::First, Act::Len),
    ];
    let wanted = [
        Note::Answer(Reply::Inserted),
        Note::Answer(Reply::Cleared),
        Note::Answer(Reply::Count(0)),
        array(0, 1),
        call(0, 1, 0, MapCall::Insert(1, 10), Reply::Inserted),
        call(0, 2, 1, MapCall::Clear, Reply::Cleared),
        call(0, 3, 0, MapCall::Len, Reply::Count(0)),
        call(1, 3, 1, MapCall::Clear, Reply::Cleared),
        call(1, 4, 0, MapCall::Len, Reply::Count(0)),
        Note::Left(0),
    ];
    expect_notes(&rt, &acts, Ends::WithBoth, &wanted);
}
