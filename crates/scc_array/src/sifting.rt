//! Parts the entries of a bucket: some move to other columns, and the others move up.
ghost use Rattle.scc_array.specs.Shelves.{shelf_of};
ghost use Rattle.scc_array.specs.Shifts.{Closes};
ghost use Rattle.scc_array.specs.Sifts.{all_raised, unflagged_of, picked_of, window_with, AreAt, AreUnflagged, AreLeft, MovesCell, raised, shelf_unflagged, shelf_with};
ghost use Rattle.scc_array.specs.Windows.{Window, window_of};
ghost use Rattle.scc_slots.specs.CellWords.{IsFilled};
ghost use Rattle.std.specs.Prelude.{◌≡◌, ◌<◌, ◌≤◌, ◌+◌, ◌^◌, ℕ, length, slice_index_or, None, ◌⊎◌, Bool, List, slice_set};

use crate::Array;
use crate::columns::Columns;
use crate::tags::{lowest_bit, tag_mask, without_lowest_bit};
use scc_slots::Cells;

/// Moves the entries after the free slot `gap`, up to `last`, and their tags up by one slot. The tag of `last` is 0
/// then. The cells of the row begin at `base`. One loop moves both, because `last` is unpredictable.
#[inline(always)]
pub(crate) fn close_gap<E>(
    slots: &mut Cells<E>,
    row: &mut [u8; 32],
    base: usize,
    gap: usize,
    last: usize,
)
    requires order { gap ≤ last }
    requires cells { last < 32 }
    requires small { base + last < 2 ^ 64 }
    requires within { base + last < length slots.old }
    requires free { slice_index_or slots.old (base + gap) None ≡ None }
    requires filled { (q : ℕ) → base + gap < q → q ≤ base + last → IsFilled slots.old q }
    ensures entries { Closes None slots.old (base + gap) (base + last) slots.new }
    ensures tags { Closes 0 row.old gap last row.new }
{
    for p in gap..last {
        slots.move_cell(base + p + 1, base + p);
        let tag = row[p + 1];
        row[p] = tag;
    }
    row[last] = 0;
}

/// Moves an entry and its tag from the slot `from` to the slot `to`. `to` must be free, or equal to `from`. The cells
/// of the row begin at `base`.
#[inline(always)]
fn move_up<E>(slots: &mut Cells<E>, row: &mut [u8; 32], base: usize, from: usize, to: usize)
    requires order { to ≤ from }
    requires cells { from < 32 }
    requires small { base + from < 2 ^ 64 }
    requires within { base + from < length slots.old }
    requires filled { IsFilled slots.old (base + from) }
    requires free { to < from → slice_index_or slots.old (base + to) None ≡ None }
    ensures entries { MovesCell None slots.old (base + from) (base + to) slots.new }
    ensures tags { MovesCell 0 row.old from to row.new }
{
    if to == from {
        return;
    }
    slots.move_cell(base + from, base + to);
    let tag = row[from];
    row[to] = tag;
    row[from] = 0;
}

/// Moves the entries of a row whose flag is 1 to the end of the bucket `target` of `into`, in order, and leaves their
/// slots free. `target` must hold `first` entries. The cells of the row begin at `base`.
#[inline(always)]
fn pick<E>(
    slots: &mut Cells<E>,
    row: &mut [u8; 32],
    base: usize,
    flags: &[u8; 32],
    into: &mut Columns<E>,
    target: usize,
    first: usize,
)
    requires target { target < length into.old }
    requires first { first ≡ length (window_of into.old target).slots }
    requires small { base + 32 < 2 ^ 64 }
    requires within { base + 32 ≤ length slots.old }
    requires entry_count { (w : Window E) × AreAt slots.old row.old base w × (first + length w.slots ≤ 32) }
    ensures left { (w : Window E) → AreAt slots.old row.old base w → AreLeft slots.new row.new base (raised flags.now) w }
    ensures moved { (w : Window E) → AreAt slots.old row.old base w
        → into.new ≡ slice_set into.old target (window_with (window_of into.old target) (picked_of (raised flags.now) w)) }
    ensures count { length slots.new ≡ length slots.old }
    ensures wide { length row.new ≡ length row.old }
    ensures others { (q : ℕ) → (q < base) ⊎ (base + 32 ≤ q)
        → slice_index_or slots.new q None ≡ slice_index_or slots.old q None }
{
    let mut bits = !tag_mask(row, 0) & tag_mask(flags, 1);
    let mut next = first;
    'picked: while bits != 0 {
        let p = lowest_bit(bits);
        let tag = row[p];
        row[p] = 0;
        let entry = slots.take(base + p);
        into.push_at(target, next, entry, tag);
        next += 1;
        bits = without_lowest_bit(bits);
    }
}

/// Moves the entries of a row with gaps to its first slots, in order. `bits` must have a bit for each of these entries.
/// The cells of the row begin at `base`.
#[inline(always)]
fn close_gaps<E>(slots: &mut Cells<E>, row: &mut [u8; 32], base: usize, bits: u32)
    requires small { base + 32 < 2 ^ 64 }
    requires within { base + 32 ≤ length slots.old }
    requires entry_count { (fs : List Bool) × (w : Window E) × AreLeft slots.old row.old base fs w × AreUnflagged fs w bits }
    ensures stays { (fs : List Bool) (w : Window E) → AreLeft slots.old row.old base fs w → AreUnflagged fs w bits
        → AreAt slots.new row.new base (unflagged_of fs w) }
    ensures count { length slots.new ≡ length slots.old }
    ensures wide { length row.new ≡ length row.old }
    ensures others { (q : ℕ) → (q < base) ⊎ (base + 32 ≤ q)
        → slice_index_or slots.new q None ≡ slice_index_or slots.old q None }
{
    let mut rest = bits;
    let mut stays = 0;
    'ranks: while rest != 0 {
        let p = lowest_bit(rest);
        move_up(slots, row, base, p, stays);
        stays += 1;
        rest = without_lowest_bit(rest);
    }
}

/// Moves the entries of a row whose flag is 1 to the end of the bucket `target` of `into`, and the others to the first
/// slots of the row, both in order. `target` must hold `first` entries. The cells of the row begin at `base`. Each
/// entry is visited once, and no flag is tested: the loops follow the bits of two masks.
#[inline(always)]
pub(crate) fn sift<E>(
    slots: &mut Cells<E>,
    row: &mut [u8; 32],
    base: usize,
    flags: &[u8; 32],
    into: &mut Columns<E>,
    target: usize,
    first: usize,
)
    requires target { target < length into.old }
    requires first { first ≡ length (window_of into.old target).slots }
    requires small { base + 32 < 2 ^ 64 }
    requires within { base + 32 ≤ length slots.old }
    requires entry_count { (w : Window E) × AreAt slots.old row.old base w × (first + length w.slots ≤ 32) }
    ensures stays { (w : Window E) → AreAt slots.old row.old base w
        → AreAt slots.new row.new base (unflagged_of (raised flags.now) w) }
    ensures moved { (w : Window E) → AreAt slots.old row.old base w
        → into.new ≡ slice_set into.old target (window_with (window_of into.old target) (picked_of (raised flags.now) w)) }
    ensures count { length slots.new ≡ length slots.old }
    ensures wide { length row.new ≡ length row.old }
    ensures others { (q : ℕ) → (q < base) ⊎ (base + 32 ≤ q)
        → slice_index_or slots.new q None ≡ slice_index_or slots.old q None }
{
    let rest = !tag_mask(row, 0) & !tag_mask(flags, 1);
    pick(slots, row, base, flags, into, target, first);
    close_gaps(slots, row, base, rest);
}

/// Moves all entries of a row to the end of the bucket `target` of `into`, in order. The row must hold `entry_count`
/// entries, and `target` must hold `first`. The cells of the row begin at `base`.
#[inline(always)]
pub(crate) fn pour<E>(
    slots: &mut Cells<E>,
    row: &mut [u8; 32],
    base: usize,
    entry_count: usize,
    into: &mut Columns<E>,
    target: usize,
    first: usize,
)
    requires target { target < length into.old }
    requires first { first ≡ length (window_of into.old target).slots }
    requires room { first + entry_count ≤ 32 }
    requires small { base + 32 < 2 ^ 64 }
    requires within { base + 32 ≤ length slots.old }
    requires entry_count { (w : Window E) × AreAt slots.old row.old base w × (entry_count ≡ length w.slots) }
    ensures stays { (w : Window E) → AreAt slots.old row.old base w → entry_count ≡ length w.slots
        → AreAt slots.new row.new base (unflagged_of all_raised w) }
    ensures moved { (w : Window E) → AreAt slots.old row.old base w → entry_count ≡ length w.slots
        → into.new ≡ slice_set into.old target (window_with (window_of into.old target) (picked_of all_raised w)) }
    ensures count { length slots.new ≡ length slots.old }
    ensures wide { length row.new ≡ length row.old }
    ensures others { (q : ℕ) → (q < base) ⊎ (base + 32 ≤ q)
        → slice_index_or slots.new q None ≡ slice_index_or slots.old q None }
{
    let mut next = first;
    for p in 0..entry_count {
        let tag = row[p];
        row[p] = 0;
        let entry = slots.take(base + p);
        into.push_at(target, next, entry, tag);
        next += 1;
    }
}

impl<E> Array<E> {
    /// Moves the entries of `bucket` whose flag is 1 to the next slots of the bucket `target` of `into`, in order. The
    /// other entries keep their order, and the overflow list stays. Each entry is visited once. Allocates nothing.
    #[inline(always)]
    pub fn split(&mut self, bucket: usize, flags: &[u8; 32], into: &mut Array<E>, target: usize)
        requires bucket { bucket < length self.old }
        requires target { target < length into.old }
        requires room { length (shelf_of into.old target).slots + length (shelf_of self.old bucket).slots ≤ 32 }
        ensures stays { self.new ≡ slice_set self.old bucket (shelf_unflagged (raised flags.now) (shelf_of self.old bucket)) }
        ensures moved { into.new ≡ slice_set into.old target
            (shelf_with (shelf_of into.old target) (raised flags.now) (shelf_of self.old bucket)) }
    {
        self.columns.split(bucket, flags, &mut into.columns, target);
    }

    /// Moves all entries in the slots of `bucket` with a tag to the next slots of the bucket `target` of `into`, in
    /// order. The overflow list stays. Allocates nothing.
    #[inline(always)]
    pub fn pour(&mut self, bucket: usize, into: &mut Array<E>, target: usize)
        requires bucket { bucket < length self.old }
        requires target { target < length into.old }
        requires room { length (shelf_of into.old target).slots + length (shelf_of self.old bucket).slots ≤ 32 }
        ensures stays { self.new ≡ slice_set self.old bucket (shelf_unflagged all_raised (shelf_of self.old bucket)) }
        ensures moved { into.new ≡ slice_set into.old target
            (shelf_with (shelf_of into.old target) all_raised (shelf_of self.old bucket)) }
    {
        self.columns.pour(bucket, &mut into.columns, target);
    }
}
