//! Parts that are made with equal arguments.
ghost use Rattle.std.specs.Prelude.{◌≡◌, IfOk};

use crate::Calls;
use scc_common::{CloneOwner, MakeError};
use std::alloc::Global;

/// Makes two empty parts under one hasher, with equal settings and equal states. Fails if memory is refused.
pub fn two_parts<C: Calls + Drop>(
    alloc: Global,
    slots: usize,
    maximum: usize,
    hasher: C::Hasher,
) -> Result<(C, C), MakeError>
where
    C::Hasher: CloneOwner + Drop,
    ensures setting { IfOk result (λ p. C.setting p.0 ≡ C.setting p.1) }
    ensures state { IfOk result (λ p. C.state p.0 ≡ C.state p.1) }
    ensures skipped { IfOk result (λ p. (C.setting p.0).skipped ≡ 1) }
    ensures hasher { IfOk result (λ p. (C.setting p.0).hasher ≡ hasher) }
{
    let Ok(another) = hasher.clone_owner() else {
        return Err(MakeError);
    };
    let first = C::make(alloc, 1, slots, maximum, hasher)?;
    let second = C::make(alloc, 1, slots, maximum, another)?;
    Ok((first, second))
}
