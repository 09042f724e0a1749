//! A part of a container with the history of its calls, and what its callers keep of their calls.
#![tactic(auto)]

ghost use Rattle.scc_calls.specs.Copies.{ClonesEqual};
ghost use Rattle.scc_calls.specs.Histories.{Replay};
ghost use Rattle.scc_calls.specs.Made.{IsMadeFor};
ghost use Rattle.scc_history.specs.Stamps.{Rises, Rises-prop};
ghost use Rattle.std.specs.Prelude.{◌≡◌, ◌*◌, ◌<◌, ◌≤◌, [], IfOk};

mod counting;
mod log;
mod matching;
mod order;
mod recording;

use crate::recording::{next_stamp, record_call, record_refused, reserve_places};
pub use counting::{count_all_calls, count_calls};
pub use log::{Log, Receipt};
pub use matching::{first_difference, records_by_pass};
pub use order::{Histories, stamp_order};
use scc_calls::{Calls, Copied, Refused, Step};
use scc_common::MakeError;
use std::alloc::Global;
use std::fmt::Debug;
use std::io;
use thiserror::Error;

/// A part of a container, with the history of its steps since it was opened.
#[derive(Drop)]
pub struct Stripe<C: Calls> {
    /// The number of the stripe in its container. The receipts of its calls have this number.
    pub number: usize,
    pub container: C,
    pub history: Vec<Step<C::Call, C::Reply>>,
    /// The stamp of the last call in the history, or 0 if there is none.
    pub last: u64,
    /// The number of buckets when the stripe was opened.
    pub opened: usize,
    pub ghost replays: { ∥ Replay (C.means (C.setting container)) (C.resizes (C.setting container)) (C.empty opened)
        history.items (C.state container) ∥₁ },
    pub ghost rising: { Rises 0 history.items last } by { Rises-prop 0 history.items last },
    pub ghost short: { last < 18446744073709551616 },
}

impl<C: Calls> Stripe<C> {
    ghost use Rattle.scc_history.specs.Steps.{RecordsByRule};

    /// Returns an empty part with an empty history. Fails if memory for the array is refused.
    pub fn open(
        alloc: Global,
        number: usize,
        skipped: u32,
        slots: usize,
        maximum: usize,
        hasher: C::Hasher,
    ) -> Result<Stripe<C>, MakeError>
    where
        C::Hasher: Drop,
        requires { skipped ≤ 4 }
        ensures made { IfOk result (λ s. IsMadeFor C.limits
            (record { hasher = hasher; skipped = skipped; slots = slots; maximum = maximum }) (C.setting s.container)) }
        ensures size { IfOk result (λ s. (C.setting s.container).minimum ≡ 32 * s.opened) }
        ensures number { IfOk result (λ s. s.number ≡ number) }
        ensures empty { IfOk result (λ s. (C.state s.container ≡ C.empty s.opened) × (s.history.items ≡ [])
            × (s.last ≡ 0)) }
    {
        let container = C::make(alloc, skipped, slots, maximum, hasher)?;
        let opened = container.buckets();
        Ok(Stripe {
            number,
            container,
            history: Vec::new(alloc),
            last: 0,
            opened,
        })
    }

    /// Makes `call`, records it in the history, and adds its receipt to `log`. The stamp is one more than the greater
    /// of the clock of `log` and the last stamp of this stripe.
    ///
    /// Fails with `Room` before anything changes, and with `Container` if the container refuses the call. Takes
    /// amortized constant time beside the call itself.
    pub fn step(&mut self, log: &mut Log<C>, call: C::Call) -> Result<C::Reply, CallError>
        requires calls { ClonesEqual C.Call.is_clone C.Call.eq }
        requires replies { ClonesEqual C.Reply.is_clone C.Reply.eq }
        ensures { RecordsByRule self.old log.old call result self.new log.new }
    {
        let Stripe {
            number,
            container,
            history,
            last,
            opened: _,
        } = self;
        let Log {
            number: pass,
            clock,
            receipts,
        } = log;
        let Some(stamp) = next_stamp(*clock, *last) else {
            return Err(CallError::Room);
        };
        let Some((noted, kept)) = reserve_places(history, receipts, &call) else {
            return Err(CallError::Room);
        };
        let before = container.buckets();
        match container.call_copied(call) {
            Err(Refused) => {
                record_refused(history, before, container.buckets(), stamp);
                Err(CallError::Container)
            }
            Ok(
                Copied {
                    reply,
                    noted: given,
                    kept: told,
                },
            ) => {
                record_call(
                    history,
                    before,
                    container.buckets(),
                    stamp,
                    *pass,
                    noted,
                    given,
                );
                *last = stamp;
                receipts.push_reserved(Receipt {
                    stripe: *number,
                    stamp,
                    call: kept,
                    reply: told,
                });
                *clock = stamp;
                Ok(reply)
            }
        }
    }
}

/// Why a call was not recorded.
#[derive(Clone, Copy, Debug, PartialEq, Error)]
pub enum CallError {
    /// Memory for the record, the receipt or a clone of the call was refused, or no greater stamp is left. Nothing
    /// changed.
    #[error("no room for the record")]
    Room,
    /// The container refused the call because memory was refused. Its entries are unchanged; a resize that it made is
    /// in the history.
    #[error("out of memory")]
    Container,
}

impl From<CallError> for io::Error {
    /// Returns an error of the kind `OutOfMemory`.
    fn from(_error: CallError) -> io::Error {
        io::Error::from(io::ErrorKind::OutOfMemory)
    }
}
