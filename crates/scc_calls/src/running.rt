//! A run of a list of calls.
ghost use Rattle.std.specs.Prelude.{◌≡◌, ℕ, ◌+◌, ◌<◌, ◌++◌, ◌⊎◌, List, length, OnOk, OnErr};
ghost use Rattle.std.specs.Vec.{vec_capacity};
ghost use Rattle.scc_calls.specs.Copies.{ByClone, ClonesEqual, MayStop};
ghost use Rattle.scc_calls.specs.Run.{IsRun, IsStopped};

use crate::{Calls, Refused};

/// Makes clones of `calls` in their order, and adds their replies to `replies`. Stops at the first call that is
/// refused.
///
/// Memory for all replies is reserved before the first call; if it is refused, nothing changes. If the clone of a call
/// is refused, the call counts as refused.
pub fn run<C: Calls>(
    c: &mut C,
    calls: &[C::Call],
    replies: &mut Vec<C::Reply>,
) -> Result<(), Refused>
    requires calls { ClonesEqual C.Call.is_clone C.Call.eq }
    requires replies { ClonesEqual C.Reply.is_clone C.Reply.eq }
    ensures run { (made : List C.Reply) × (replies.new.items ≡ replies.old.items ++ made)
        × IsRun (ByClone C.Call.is_clone (C.moves (C.setting c.old))) (C.resizes (C.setting c.old)) (C.state c.old)
        calls.now made (C.state c.new) }
    ensures all { OnOk result (length replies.new.items ≡ length replies.old.items + length calls.now) }
    ensures setting { C.setting c.new ≡ C.setting c.old }
    ensures err { OnErr result (((c.new ≡ c.old) × (replies.new.items ≡ replies.old.items)
        × (vec_capacity replies.old < length replies.old.items + length calls.now))
        ⊎ ((made : List C.Reply) × (replies.new.items ≡ replies.old.items ++ made)
        × IsStopped C.size (ByClone C.Call.is_clone (C.moves (C.setting c.old))) (C.resizes (C.setting c.old))
        (MayStop (C.may_refuse (C.setting c.old)) C.key_of (C.answer (C.setting c.old)) C.Call.is_clone
        C.Call.is_infallible C.Reply.is_infallible) (C.state c.old) calls.now made (C.state c.new))) }
{
    if replies.reserve(calls.len()).is_err() {
        return Err(Refused);
    }
    for call in calls {
        let Ok(copy) = call.clone() else {
            return Err(Refused);
        };
        let reply = c.call(copy)?;
        replies.push(reply).unwrap();
    }
    Ok(())
}
