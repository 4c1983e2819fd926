//! Cells that are set into pages one after another.
ghost use Rattle.std.specs.Prelude.{◌≡◌, ◌∷◌, ◌++◌, ◌<◌, ◌≤◌, ◌+◌, ◌⊎◌, [], length, replicate, IfOk, OnOk};
ghost use Rattle.sop_pages.specs.declared.page.TheConstants.{MOST_CELLS};
ghost use Rattle.sop_cells.specs.Shelves.{joined, IsPaged};
ghost use Rattle.sop_cells.specs.Layouts.{packed_cells};

use sop_outside::Items;
use sop_pages::{Cell, MOST_CELLS, Page, PageList};
use std::alloc::{AllocError, Global};
use std::marker::Model;
use std::mem;

/// Full pages, and behind them cells that don't make a full page yet.
#[derive(Drop)]
pub(crate) struct Packer {
    full: Vec<Page>,
    rest: Vec<Cell>,
    // So many cells are to come behind the open page; its memory is taken at once.
    coming: usize,
    alloc: Global,
}

impl Model for Packer {
    ghost use Rattle.std.specs.Prelude.{◌≤◌, length};
    ghost use Rattle.sop_pages.specs.declared.page.TheConstants.{MOST_CELLS};
    ghost use Rattle.sop_cells.specs.Layouts.{Packed, AreFull};

    ghost Value = { Packed };

    ghost view = { λ p. record { full = p.full.items; rest = p.rest.items } };

    ghost invariant = { λ p. AreFull p.full.items × (length p.rest.items ≤ MOST_CELLS) };
}

impl Packer {
    /// No cells, where about `coming` are to come.
    pub(crate) fn new(alloc: Global, coming: usize) -> Result<Packer, AllocError>
        ensures { IfOk result (λ p. packed_cells p ≡ []) }
    {
        let most = MOST_CELLS as usize;
        let rest = Vec::with_capacity(alloc, lesser(coming, most))?;
        Ok(Packer {
            full: Vec::new(alloc),
            rest,
            coming: coming.saturating_sub(most),
            alloc,
        })
    }

    /// Sets a cell behind the others.
    pub(crate) fn push(&mut self, cell: Cell) -> Result<(), AllocError>
        ensures { OnOk result (packed_cells self.new ≡ packed_cells self.old ++ cell ∷ []) }
    {
        self.make_room()?;
        self.rest.push(cell)?;
        Ok(())
    }

    /// Sets cells behind the others, no more than a page has.
    pub(crate) fn push_run(&mut self, run: &[Cell]) -> Result<(), AllocError>
        requires { length run.now ≤ MOST_CELLS }
        ensures { OnOk result (packed_cells self.new ≡ packed_cells self.old ++ run.now) }
    {
        let room = MOST_CELLS as usize - self.rest.len();
        if run.len() <= room {
            return self.fill(run);
        }
        let (first, behind) = run.split_at(room);
        self.fill(first)?;
        self.make_room()?;
        self.fill(behind)
    }

    /// Sets the same cell behind the others, `count` times.
    pub(crate) fn push_copies(&mut self, cell: &Cell, count: usize) -> Result<(), AllocError>
        ensures { OnOk result (packed_cells self.new ≡ packed_cells self.old ++ replicate count cell.now) }
    {
        let most = MOST_CELLS as usize;
        let len = lesser(count, most);
        let run = run_of(self.alloc, *cell, len)?;
        for _page in 0..count / most {
            self.push_run(&run)?;
        }
        self.push_run(&run[..count % most])?;
        Ok(())
    }

    /// All cells, as pages that are full but the last.
    pub(crate) fn finish(self) -> Result<PageList, AllocError>
        ensures cells { IfOk result (λ pages. joined pages ≡ packed_cells self) }
        ensures paged { IfOk result (λ pages. IsPaged pages) }
    {
        let Packer { full, rest, .. } = self;
        let mut pages = full;
        if rest.is_empty() {
            return Ok(Items::from_vec(pages));
        }
        pages.push(Page::from_vec(rest))?;
        Ok(Items::from_vec(pages))
    }

    // Sets cells into the open page, where there is room for them.
    fn fill(&mut self, run: &[Cell]) -> Result<(), AllocError>
        requires { length self.old.rest + length run.now ≤ MOST_CELLS }
        ensures cells { OnOk result (packed_cells self.new ≡ packed_cells self.old ++ run.now) }
        ensures rest { OnOk result (self.new.rest ≡ self.old.rest ++ run.now) }
    {
        self.rest.extend_from_slice(run)
    }

    // Leaves room for a cell in the open page: a full one is set behind the others, and the next is opened.
    fn make_room(&mut self) -> Result<(), AllocError>
        ensures cells { OnOk result (packed_cells self.new ≡ packed_cells self.old) }
        ensures room { OnOk result (length self.new.rest < MOST_CELLS) }
        ensures next { OnOk result (length self.old.rest ≡ MOST_CELLS → self.new.rest ≡ []) }
    {
        let most = MOST_CELLS as usize;
        if self.rest.len() < most {
            return Ok(());
        }
        let next = Vec::with_capacity(self.alloc, lesser(self.coming, most))?;
        self.coming = self.coming.saturating_sub(most);
        let cells = mem::replace(&mut self.rest, next);
        self.full.push(Page::from_vec(cells))?;
        Ok(())
    }
}

// `count` times the same cell.
fn run_of(alloc: Global, cell: Cell, count: usize) -> Result<Vec<Cell>, AllocError>
    ensures { IfOk result (λ run. run.items ≡ replicate count cell) }
{
    vec![in alloc; cell; count]
}

/// The lesser of the two.
pub(crate) fn lesser(a: usize, b: usize) -> usize
    ensures first { result ≤ a }
    ensures second { result ≤ b }
    ensures one { (result ≡ a) ⊎ (result ≡ b) }
{
    if a < b { a } else { b }
}
