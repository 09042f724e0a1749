//! The cells behind a pointer, and the right to release their block: the only code of the containers that uses a raw
//! pointer.
ghost use Rattle.scc_slots.specs.Owned.{row_owns, row_shows, right_owns};
ghost use Rattle.scc_slots.specs.CellWords.{IsFilled, IsEmptyCell};
ghost use Rattle.std.specs.Borrow.{sem};
ghost use Rattle.std.specs.Prelude.{◌≡◌, ℕ, ◌<◌, [], List, Option, Some, None, replicate, slice_index_or, slice_set, IfOk};
ghost use Rattle.std.specs.Vec.Ownership.{FitsInBlock};
ghost use base.Fml.{ftrue};
ghost use denote.RawPtr.{Ptr, null_ptr};

use std::alloc::{AllocError, Allocator};
use std::marker::{Model, PhantomData, Send, Sync};
use std::mem::{align_of, size_of};
use std::ptr::null;

/// The address of the first cell of a row. It owns nothing.
pub struct Start<E> {
    first: *const E,
}

impl<E> Clone for Start<E> {
    ghost is_clone = { λ x y. y ≡ x };

    ghost is_infallible = { λ _. Unit {0} };

    fn clone(&self) -> Result<Start<E>, AllocError> {
        Ok(*self)
    }
}

impl<E> Copy for Start<E> {}

unsafe impl<E> Send for Start<E> {}

unsafe impl<E> Sync for Start<E> {}

/// The owner of the entry of each filled cell, and of the memory of each free cell. It has no bytes.
pub struct Row<E> {
    of: PhantomData<*const E>,
    ghost start: { Ptr },
    ghost cells: { List (Option E) },
}

impl<E> Model for Row<E> {
    ghost also_owns = { λ row. row_owns E.row row.start row.cells };

    ghost also_shares = { λ row _ κ. row_shows E.row row.start row.cells κ };
}

unsafe impl<E: Send> Send for Row<E> {}

unsafe impl<E: Sync> Sync for Row<E> {}

/// The right to give the block of `count` cells at `start` back to `alloc`. It has no bytes.
pub struct Right<E, A: Allocator> {
    of: PhantomData<*const (E, A)>,
    ghost start: { Ptr },
    ghost count: { ℕ },
    ghost alloc: { A },
}

impl<E, A: Allocator> Model for Right<E, A> {
    ghost also_owns = { λ right. right_owns E.row (A.dealloc_token right.alloc) right.start right.count };

    ghost also_shares = { λ _ _ _. ftrue };
}

unsafe impl<E, A: Allocator + Send> Send for Right<E, A> {}

// A `&Right` gives access to nothing.
unsafe impl<E, A: Allocator> Sync for Right<E, A> {}

/// Allocates `count` cells, and writes to none of them.
pub(crate) fn obtain<E, A: Allocator>(
    alloc: &A,
    count: usize,
) -> Result<(Start<E>, (Row<E>, Right<E, A>)), AllocError>
    requires { FitsInBlock E.row count }
    ensures { IfOk result (λ made. (made.1.0.start ≡ made.0.first) × (made.1.0.cells ≡ replicate count None)
        × (made.1.1.start ≡ made.0.first) × (made.1.1.count ≡ count) × (made.1.1.alloc ≡ alloc.now)) }
{
    match alloc.allocate(count * size_of::<E>(), align_of::<E>()) {
        Err(refused) => Err(refused),
        Ok(block) => {
            let start = Start {
                first: block as *const E,
            };
            Ok((start, (Row { of: PhantomData }, Right { of: PhantomData })))
        }
    }
}

/// Returns the start of a row without cells: a null pointer.
pub(crate) fn nowhere<E>() -> Start<E>
    ensures { result.first ≡ null_ptr }
{
    Start { first: null() }
}

/// Returns a row without cells.
pub(crate) fn no_cells<E>() -> Row<E>
    ensures { (result.start ≡ null_ptr) × (result.cells ≡ []) }
{
    Row { of: PhantomData }
}

/// Ends a row without cells.
pub(crate) fn end_row<E>(row: Row<E>)
    requires { row.cells ≡ [] }
{
    let Row { of: _ } = row;
}

/// Releases the block of `count` free cells.
pub(crate) fn give_back<E, A: Allocator>(
    alloc: &A,
    start: Start<E>,
    count: usize,
    row: Row<E>,
    right: Right<E, A>,
)
    requires { (row.start ≡ start.first) × (row.cells ≡ replicate count None) × (right.start ≡ start.first)
        × (right.count ≡ count) × (right.alloc ≡ alloc.now) }
{
    let Row { of: _ } = row;
    let Right { of: _ } = right;
    unsafe {
        alloc.deallocate(
            start.first as *mut u8,
            count * size_of::<E>(),
            align_of::<E>(),
        );
    }
}

impl<E> Row<E> {
    ghost use Rattle.scc_slots.specs.RowLends.{lends_place};

    /// Puts `entry` into the free cell `cell`.
    pub(crate) fn put(&mut self, start: Start<E>, cell: usize, entry: E)
        requires { (start.first ≡ self.old.start) × IsEmptyCell self.old.cells cell }
        ensures { (self.new.start ≡ self.old.start) × (self.new.cells ≡ slice_set self.old.cells cell (Some entry)) }
    {
        unsafe { start.first.cast_mut().add(cell).write(entry) }
    }

    /// Takes the entry out of `cell`, and returns it. The cell is free then.
    pub(crate) fn take(&mut self, start: Start<E>, cell: usize) -> E
        requires { (start.first ≡ self.old.start) × IsFilled self.old.cells cell }
        ensures entry { slice_index_or self.old.cells cell None ≡ Some result }
        ensures cells { (self.new.start ≡ self.old.start) × (self.new.cells ≡ slice_set self.old.cells cell None) }
    {
        unsafe { start.first.add(cell).read() }
    }

    /// Takes the entry out of `cell`, and moves the entry of the cell `from` there. The cell `from`, which may be the
    /// same cell, is free then.
    pub(crate) fn take_over(&mut self, start: Start<E>, cell: usize, from: usize) -> E
        requires { (start.first ≡ self.old.start) × IsFilled self.old.cells cell × IsFilled self.old.cells from }
        ensures entry { slice_index_or self.old.cells cell None ≡ Some result }
        ensures cells { (self.new.start ≡ self.old.start) × (self.new.cells
            ≡ slice_set (slice_set self.old.cells cell (slice_index_or self.old.cells from None)) from None) }
    {
        unsafe {
            let entry = start.first.add(cell).read();
            let moved = start.first.add(from).read();
            start.first.cast_mut().add(cell).write(moved);
            entry
        }
    }

    /// Returns the entry of `cell`.
    pub(crate) fn get(&self, start: Start<E>, cell: usize) -> &E
        requires { (start.first ≡ self.now.start) × IsFilled self.now.cells cell }
        ensures { slice_index_or self.now.cells cell None ≡ Some result.now }
    {
        unsafe { &*start.first.add(cell) }
    }

    /// Returns the entry of `cell`, to write to.
    pub(crate) fn get_mut(&mut self, start: Start<E>, cell: usize) -> &mut E
        requires { (start.first ≡ self.old.start) × IsFilled self.old.cells cell }
        ensures* writes_back { sem 𝓛 (lends_place E.row self.entry cell result) }
        ensures entry { slice_index_or self.old.cells cell None ≡ Some result.now }
    {
        unsafe { &mut *start.first.cast_mut().add(cell) }
    }
}
