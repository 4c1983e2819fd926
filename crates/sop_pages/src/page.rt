//! Blocks of cells.
ghost use Rattle.std.specs.Prelude.{◌≡◌, ◌++◌, ◌+◌, ◌<◌, ◌≤◌, length, take, replicate, slice_index_or, slice_set, vec_len, IfOk, OnErr};
ghost use Rattle.sop_pages.specs.Cells.{IsPage, with_run};

use crate::cell::Cell;
use sop_outside::Items;
use std::alloc::{AllocError, Global};
use std::marker::Model;

/// A page has at most so many cells.
pub const MOST_CELLS: u32 = 1024;

/// 1 to `MOST_CELLS` cells, in one piece of memory.
#[derive(Debug, Drop)]
pub struct Page {
    cells: Vec<Cell>,
}

/// A list of pages.
pub type PageList = Items<Page>;

impl Model for Page {
    ghost use Rattle.std.specs.Prelude.{List};
    ghost use Rattle.sop_pages.specs.declared.cell.Cell.{Cell};
    ghost use Rattle.sop_pages.specs.Cells.{IsPage};

    ghost Value = { List Cell };

    ghost view = { λ p. p.cells.items };

    ghost invariant = { λ p. IsPage p.cells.items };
}

impl Page {
    /// A page of `len` cells, 1 to `MOST_CELLS`, each of them `cell`.
    pub fn filled(alloc: Global, cell: Cell, len: u32) -> Result<Page, AllocError>
        requires some { 1 ≤ len }
        requires most { len ≤ MOST_CELLS }
        ensures { IfOk result (λ p. p ≡ replicate len cell) }
    {
        let cells = vec![in alloc; cell; len as usize]?;
        Ok(Page { cells })
    }

    /// The page of these cells, 1 to `MOST_CELLS`. It takes no memory.
    pub fn from_vec(cells: Vec<Cell>) -> Page
        requires { IsPage cells.items }
        ensures { result ≡ cells.items }
    {
        Page { cells }
    }

    /// Its cells. It takes no memory.
    pub fn into_vec(self) -> Vec<Cell>
        ensures value { result.items ≡ self }
        ensures size { IsPage self }
    {
        self.cells
    }

    /// Its cells, in order.
    pub fn cells(&self) -> &[Cell]
        ensures value { result.now ≡ self.now }
        ensures size { IsPage self.now }
    {
        self.cells.as_slice()
    }

    /// The number of cells, 1 to `MOST_CELLS`.
    pub fn len(&self) -> u32
        ensures value { result ≡ length self.now }
        ensures some { 1 ≤ result }
        ensures most { result ≤ MOST_CELLS }
    {
        self.cells.len() as u32
    }

    /// The cell with the number `i`, from 0.
    pub fn get(&self, i: u32) -> Cell
        requires { i < length self.now }
        ensures { result ≡ slice_index_or self.now i result }
    {
        self.cells[i as usize]
    }

    /// Makes `cell` the cell with the number `i`, from 0. It takes no memory.
    pub fn put(&mut self, i: u32, cell: Cell)
        requires { i < length self.old }
        ensures { self.new ≡ slice_set self.old i cell }
    {
        self.cells[i as usize] = cell;
    }

    /// Makes the cells from number `start` on, counted from 0, those of `run`. It takes no memory.
    pub fn put_run(&mut self, start: u32, run: &[Cell])
        requires { start + length run.now ≤ length self.old }
        ensures { self.new ≡ with_run self.old start run.now }
    {
        let start = start as usize;
        self.cells[start..start + run.len()].copy_from_slice(run);
    }

    /// Sets `more` cells behind its last, where there is room for them.
    pub fn lengthen(&mut self, more: &[Cell]) -> Result<(), AllocError>
        requires { length self.old + length more.now ≤ MOST_CELLS }
        ensures cells { IfOk result (λ _. self.new ≡ self.old ++ more.now) }
        ensures err { OnErr result (self.new ≡ self.old) }
    {
        self.cells.extend_from_slice(more)
    }

    /// Cuts it to its first `len` cells, of which there must be so many. It takes no memory.
    pub fn shorten(&mut self, len: u32)
        requires some { 1 ≤ len }
        requires within { len ≤ length self.old }
        ensures { self.new ≡ take len self.old }
    {
        self.cells.truncate(len as usize);
    }

    /// A page of the same cells.
    pub(crate) fn copy(&self, alloc: Global) -> Result<Page, AllocError>
        ensures { IfOk result (λ p. p ≡ self.now) }
    {
        let cells = Vec::from_slice(alloc, self.cells.as_slice())?;
        Ok(Page { cells })
    }

    /// A page of the same cells and `more` behind them.
    pub(crate) fn longer(&self, alloc: Global, more: &[Cell]) -> Result<Page, AllocError>
        requires { length self.now + length more.now ≤ MOST_CELLS }
        ensures { IfOk result (λ p. p ≡ self.now ++ more.now) }
    {
        let mut cells = Vec::with_capacity(alloc, self.cells.len() + more.len())?;
        cells.extend_from_slice(self.cells.as_slice())?;
        cells.extend_from_slice(more)?;
        Ok(Page { cells })
    }

    /// A page of the first `len` cells.
    pub(crate) fn shorter(&self, alloc: Global, len: u32) -> Result<Page, AllocError>
        requires some { 1 ≤ len }
        requires within { len ≤ length self.now }
        ensures { IfOk result (λ p. p ≡ take len self.now) }
    {
        let cells = Vec::from_slice(alloc, &self.cells[..len as usize])?;
        Ok(Page { cells })
    }
}
