//! `Cells`: one block of cells, seen as a list with an entry or nothing for each cell.
ghost use Rattle.scc_slots.specs.CellWords.{IsFilled, IsEmptyCell, IsDrained};
ghost use Rattle.std.specs.Borrow.{sem};
ghost use Rattle.std.specs.Prelude.{◌≡◌, ◌^◌, ◌<◌, [], List, Option, Some, None, length, replicate, slice_index_or, slice_set, IfOk};

use crate::row::{Right, Row, Start, end_row, give_back, no_cells, nowhere, obtain};
use std::alloc::{AllocError, Global};
use std::marker::Model;
use std_alloc::room::may_hold;

/// A block of cells. Without cells, there is no block. `Cells` drops no entry: all cells must be free before the block
/// is released.
pub struct Cells<E> {
    start: Start<E>,
    count: usize,
    row: Row<E>,
    right: Option<Right<E, Global>>,
    alloc: Global,
}

impl<E> Model for Cells<E> {
    ghost use Rattle.scc_slots.specs.Blocks.{IsBlock};
    ghost use Rattle.std.specs.Coded.{coded_list, coded_option};
    ghost use Rattle.std.specs.Prelude.{List, Option};

    ghost Value = { List (Option E) };

    ghost coded = { coded_list (coded_option E.code) };

    ghost view = { λ s. s.row.cells };

    ghost invariant = { λ s. IsBlock s.start s.row s.right s.count s.alloc };
}

impl<E> Cells<E> {
    ghost use Rattle.scc_slots.specs.SlotsLends.{lends_cell};

    /// Returns no cells. Allocates nothing.
    pub fn none(alloc: Global) -> Cells<E>
        ensures { result ≡ [] }
    {
        Cells {
            start: nowhere(),
            count: 0,
            row: no_cells(),
            right: None,
            alloc,
        }
    }

    /// Allocates `count` cells, and writes to none of them.
    pub fn with_cells(alloc: Global, count: usize) -> Result<Cells<E>, AllocError>
        ensures { IfOk result (λ s. s ≡ replicate count None) }
    {
        if !may_hold::<E>(count) {
            return Err(AllocError);
        }
        let (start, (row, right)) = obtain(&alloc, count)?;
        Ok(Cells {
            start,
            count,
            row,
            right: Some(right),
            alloc,
        })
    }

    /// Returns the number of cells.
    #[inline(always)]
    pub fn cells(&self) -> usize
        ensures count { result ≡ length self.now }
        ensures within { result < 2 ^ 63 }
    {
        self.count
    }

    /// Puts `entry` into the free cell `cell`.
    #[inline(always)]
    pub fn put(&mut self, cell: usize, entry: E)
        requires { IsEmptyCell self.old cell }
        ensures { self.new ≡ slice_set self.old cell (Some entry) }
    {
        self.row.put(self.start, cell, entry);
    }

    /// Takes the entry out of `cell`, and returns it. The cell is free then.
    #[inline(always)]
    pub fn take(&mut self, cell: usize) -> E
        requires { IsFilled self.old cell }
        ensures entry { slice_index_or self.old cell None ≡ Some result }
        ensures cells { self.new ≡ slice_set self.old cell None }
    {
        self.row.take(self.start, cell)
    }

    /// Takes the entry out of `cell`, and moves the entry of the cell `from` there. The cell `from`, which may be the
    /// same cell, is free then.
    #[inline(always)]
    pub fn take_over(&mut self, cell: usize, from: usize) -> E
        requires cell { IsFilled self.old cell }
        requires from { IsFilled self.old from }
        ensures entry { slice_index_or self.old cell None ≡ Some result }
        ensures cells { self.new ≡ slice_set (slice_set self.old cell (slice_index_or self.old from None)) from None }
    {
        self.row.take_over(self.start, cell, from)
    }

    /// Returns the entry of `cell`.
    #[inline(always)]
    pub fn get(&self, cell: usize) -> &E
        requires { IsFilled self.now cell }
        ensures { slice_index_or self.now cell None ≡ Some result.now }
    {
        self.row.get(self.start, cell)
    }

    /// Returns the entry of `cell`, to write to.
    #[inline(always)]
    pub fn get_mut(&mut self, cell: usize) -> &mut E
        requires { IsFilled self.old cell }
        ensures* writes_back { sem 𝓛 (lends_cell E.row self.entry cell result) }
        ensures entry { slice_index_or self.old cell None ≡ Some result.now }
    {
        self.row.get_mut(self.start, cell)
    }

    /// Moves the entry of the cell `from` to the free cell `to`.
    #[inline(always)]
    pub fn move_cell(&mut self, from: usize, to: usize)
        requires from { IsFilled self.old from }
        requires to { IsEmptyCell self.old to }
        ensures { self.new ≡ slice_set (slice_set self.old from None) to (slice_index_or self.old from None) }
    {
        let entry = self.row.take(self.start, from);
        self.row.put(self.start, to, entry);
    }

    /// Releases the block. All its cells must be free.
    pub fn destroy_empty(self)
        requires { IsDrained self }
    {
        let Cells {
            start,
            count,
            row,
            right,
            alloc,
        } = self;
        match right {
            Some(right) => give_back(&alloc, start, count, row, right),
            None => end_row(row),
        }
    }
}
