// A recorded map whose insertion is refused room for its record, and whose finish is refused.
use crate::expect::{expect, expect_eq};
use crate::refused::finishing::{Told, expect_finished};
use crate::refused::opened::{Trial, outlast};
use scc::hash_map::Owned;
use scc::recorded::{CallError, MapCall, Pass, Receipt, Recorded, Reply, Shared, Site, Step};
use std::io::Print;
use std::process::Abort;
use std::sync::Wait;
use std::sync::ledger::Ledger;
use test_kit::refusals::{Refusal, TRIES};
use test_kit::zero::Zero;

type Map = Owned<u64, u64, Shared<Zero>>;

// The insertion of (1, 10) under stamp 1, which makes the first array.
#[derive(Drop)]
struct Insertion {
    // Whether the insertion was refused room for its record at first.
    was_refused: bool,
}

impl Told<Map> for Insertion {
    fn meet<R: Print>(&self, rt: &R, refusal: &mut Refusal) {
        if self.was_refused {
            refusal.meet(rt, "a finish after room for a record");
        } else {
            refusal.meet(rt, "a finish");
        }
    }

    fn last(&self) -> u64 {
        1
    }

    fn are_steps(&self, history: &[Step<MapCall<u64, u64>, Reply<u64, u64>>]) -> bool {
        let steps = [
            Step::Resize {
                stamp: 1,
                buckets: 2,
            },
            Step::Call {
                stamp: 1,
                pass: 0,
                call: MapCall::Insert(1, 10),
                reply: Reply::Inserted,
            },
        ];
        history == steps.as_slice()
    }

    fn are_receipts(&self, receipts: &[Receipt<MapCall<u64, u64>, Reply<u64, u64>>]) -> bool {
        let receipt = Receipt {
            stripe: 0,
            stamp: 1,
            call: MapCall::Insert(1, 10),
            reply: Reply::Inserted,
        };
        receipts == [receipt].as_slice()
    }

    fn is_left(&self, map: &Map) -> bool {
        map.read_sync(&1, |_, value| *value) == Some(10) && map.len() == 1 && map.capacity() == 64
    }
}

/// Returns the clock of `pass`, and the number of its receipts.
fn said<L: Ledger>(pass: &Pass<Map, L>) -> (u64, usize) {
    (pass.clock(), pass.receipts().len())
}

/// Inserts (1, 10) until it goes in. A refused call leaves the clock at 0 and no receipt. Returns whether a call was
/// refused room for its record.
fn insert<L: Ledger, M: Site<Shared<Zero>>, R: Abort + Print + Wait>(
    rt: &R,
    refusal: &mut Refusal,
    recorded: &Recorded<Map, L, M>,
    pass: &mut Pass<Map, L>,
) -> bool {
    let mut was_refused = false;
    for _ in 0..TRIES {
        expect_eq(rt, said(pass), (0, 0));
        match recorded.call(rt, pass, MapCall::Insert(1, 10)) {
            Ok(reply) => {
                expect_eq(rt, (reply, said(pass)), (Reply::Inserted, (1, 1)));
                return was_refused;
            }
            Err(CallError::Room) => {
                refusal.meet(rt, "room for a record");
                was_refused = true;
            }
            Err(CallError::Container) => refusal.meet(rt, "the first array of a recorded map"),
        }
    }
    expect(rt, false);
    was_refused
}

impl Trial<Map> for Insertion {
    fn hasher(hasher: Shared<Zero>) -> Shared<Zero> {
        hasher
    }

    fn run<L: Ledger, M: Site<Shared<Zero>>, R: AllocGlobal + Abort + Print + Wait>(
        rt: &R,
        refusal: &mut Refusal,
        opened: &mut Option<(Recorded<Map, L, M>, Vec<Pass<Map, L>>)>,
    ) {
        let Some((recorded, handed)) = opened.take() else {
            return expect(rt, false);
        };
        let mut passes = handed;
        let mut told = Insertion { was_refused: false };
        for pass in passes.as_mut_slice() {
            told.was_refused = insert(rt, refusal, &recorded, pass);
        }
        expect_finished(rt, refusal, &told, recorded, passes);
    }
}

#[test]
fn recorded_refused_room_and_finish(rt: HostRuntime) {
    outlast::<Map, Insertion, _>(&rt, "a recorded map", (0, 0), 1);
}
