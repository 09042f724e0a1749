//! The overflow lists, one a bucket, which are made when the first entry needs one.
ghost use Rattle.scc_array.specs.Lists.{AreBare, AreSpent, MakesLists, Pushes, RaisesFlag, ReservesList};
ghost use Rattle.std.specs.Prelude.{◌≡◌, ◌<◌, ◌≤◌, ◌+◌, ◌/◌, ◌^◌, ◌⊎◌, [], false, true, length, IfOk, OnOk, OnErr};

use std::alloc::{AllocError, Global};
use std::mem;

/// Makes `count` empty lists, none of which has memory of its own.
fn bare_lists<E>(alloc: Global, count: usize) -> Result<Vec<Vec<E>>, AllocError>
    ensures count { IfOk result (λ v. length v.items ≡ count) }
    ensures bare { IfOk result (λ v. AreBare v.items) }
{
    let mut lists = Vec::with_capacity(alloc, count)?;
    for _ in 0..count {
        match lists.push(Vec::new(alloc)) {
            Ok(()) => {}
            Err(_back) => unreachable!(),
        }
    }
    Ok(lists)
}

/// Makes `count` empty lists, if there are none.
pub(crate) fn make_lists<E>(
    lists: &mut Vec<Vec<E>>,
    alloc: Global,
    count: usize,
) -> Result<(), AllocError>
    ensures ok { OnOk result (MakesLists lists.old.items count lists.new.items) }
    ensures err { OnErr result (lists.new.items ≡ lists.old.items) }
    ensures none { OnErr result (length lists.old.items ≡ 0) }
{
    if lists.len() != 0 {
        return Ok(());
    }
    let fresh = bare_lists(alloc, count)?;
    let none = mem::replace(lists, fresh);
    none.destroy_empty();
    Ok(())
}

/// Returns the number of the flag of a bucket. 16 buckets in a row share one flag.
#[inline(always)]
pub(crate) fn flag_of(bucket: usize) -> usize
    ensures { result ≡ bucket / 16 }
{
    bucket / 16
}

/// Raises the flag of `bucket`. If there are no flags, first makes those of `count` buckets, all down.
#[cold]
pub(crate) fn raise(
    flags: &mut Vec<bool>,
    alloc: Global,
    count: usize,
    bucket: usize,
) -> Result<(), AllocError>
    requires bucket { bucket < count }
    requires most { count ≤ 2 ^ 58 }
    requires count { (flags.old.items ≡ []) ⊎ (length flags.old.items ≡ count / 16 + 1) }
    ensures { RaisesFlag flags.old.items count (bucket / 16) result flags.new.items }
{
    if flags.len() == 0 {
        *flags = vec![in alloc; false; flag_of(count) + 1]?;
    }
    flags[flag_of(bucket)] = true;
    Ok(())
}

/// Puts `entry` at the end of the list of `bucket`, and returns its slot, which counts on after 32 slots. If memory is
/// refused, `entry` is handed back.
pub(crate) fn push_to<E>(lists: &mut Vec<Vec<E>>, bucket: usize, entry: E) -> Result<usize, E>
    requires { bucket < length lists.old.items }
    ensures { Pushes lists.old.items bucket entry result lists.new.items }
{
    let list = &mut lists[bucket];
    let slot = 32 + list.len();
    match list.push(entry) {
        Ok(()) => Ok(slot),
        Err(refused) => Err(refused.value),
    }
}

/// Reserves room for `additional` more entries at the end of the list of `bucket`.
pub(crate) fn reserve_in<E>(
    lists: &mut Vec<Vec<E>>,
    bucket: usize,
    additional: usize,
) -> Result<(), AllocError>
    requires { bucket < length lists.old.items }
    ensures { ReservesList lists.old.items bucket additional result lists.new.items }
{
    let list = &mut lists[bucket];
    match list.reserve(additional) {
        Ok(()) => Ok(()),
        Err(refused) => Err(refused),
    }
}

/// Releases the lists, which must hold no entry.
pub(crate) fn destroy_lists<E>(lists: Vec<Vec<E>>)
    requires { AreSpent lists.items }
{
    let mut lists = lists;
    while let Some(list) = lists.pop() {
        list.destroy_empty();
    }
    lists.destroy_empty();
}
