// Pages whose cells are set.
ghost use Rattle.std.specs.Prelude.{◌≡◌, length, IfOk, OnOk};
ghost use Rattle.sop_pages.specs.declared.page.TheConstants.{MOST_CELLS};
ghost use Rattle.sop_pages.specs.Pages.{IsLive, count, cells};

use crate::checksum::added;
use sop_pages::{Cell, MOST_CELLS, Page, PageId, PageStore};
use std::alloc::{AllocError, Global};

/// How often each cell is set.
const ROUNDS: u32 = 20;

/// A checksum of pages of 1,024 cells, of which each cell is set 20 times, with at least `size` cells in all; none where
/// memory runs out.
pub fn sum_of_sets(alloc: Global, size: u32) -> Option<u64> {
    let mut store = PageStore::new(alloc);
    let mut sum = 0;
    for _ in 0..size.div_ceil(MOST_CELLS) {
        let id = new_page(alloc, &mut store).ok()?;
        let id = set_rounds(&mut store, id).ok()?;
        sum = with_cells(sum, &store, id);
    }
    Some(sum)
}

/// A checksum of `size` first writes into a page that two places hold, each of which copies it; none where memory runs
/// out.
pub fn sum_of_copies(alloc: Global, size: u32) -> Option<u64> {
    let mut store = PageStore::new(alloc);
    let id = new_page(alloc, &mut store).ok()?;
    let mut sum = 0;
    for time in 0..size {
        sum = added(sum, number_of(write_shared(&mut store, id, time).ok()?));
    }
    Some(sum)
}

fn new_page(alloc: Global, store: &mut PageStore) -> Result<PageId, AllocError>
    ensures alone { IfOk result (λ id. count store.new id ≡ 1) }
    ensures full { IfOk result (λ id. length (cells store.new id) ≡ MOST_CELLS) }
{
    let page = Page::filled(alloc, Cell::Name(0), MOST_CELLS)?;
    match store.put(page) {
        Ok(id) => Ok(id),
        Err((_, error)) => Err(error),
    }
}

fn set_rounds(store: &mut PageStore, id: PageId) -> Result<PageId, AllocError>
    requires live { IsLive store.old id }
    requires full { length (cells store.old id) ≡ MOST_CELLS }
    ensures live { IfOk result (λ id. IsLive store.new id) }
    ensures full { IfOk result (λ id. length (cells store.new id) ≡ MOST_CELLS) }
{
    let mut id = id;
    for round in 0..ROUNDS {
        id = set_each(store, id, round)?;
    }
    Ok(id)
}

/// Sets each cell of a page.
fn set_each(store: &mut PageStore, id: PageId, round: u32) -> Result<PageId, AllocError>
    requires live { IsLive store.old id }
    requires full { length (cells store.old id) ≡ MOST_CELLS }
    ensures live { IfOk result (λ id. IsLive store.new id) }
    ensures full { IfOk result (λ id. length (cells store.new id) ≡ MOST_CELLS) }
{
    let mut id = id;
    for i in 0..MOST_CELLS {
        id = store.set(id, i, Cell::Name(u128::from(round) + u128::from(i)))?;
    }
    Ok(id)
}

fn with_cells(sum: u64, store: &PageStore, id: PageId) -> u64
    requires live { IsLive store.now id }
    requires full { length (cells store.now id) ≡ MOST_CELLS }
{
    let mut sum = sum;
    for i in 0..MOST_CELLS {
        sum = added(sum, number_of(store.cell(id, i)));
    }
    sum
}

/// One place more takes hold of a page, sets a cell and lets the copy go that it got. Answers the cell.
fn write_shared(store: &mut PageStore, id: PageId, time: u32) -> Result<Cell, AllocError>
    requires alone { count store.old id ≡ 1 }
    requires full { length (cells store.old id) ≡ MOST_CELLS }
    ensures alone { OnOk result (count store.new id ≡ 1) }
    ensures full { OnOk result (length (cells store.new id) ≡ MOST_CELLS) }
{
    store.share(id);
    let i = time % MOST_CELLS;
    let copy = store.set(id, i, Cell::Name(u128::from(time)))?;
    let cell = store.cell(copy, i);
    store.release(copy);
    Ok(cell)
}

fn number_of(cell: Cell) -> u64 {
    match cell {
        Cell::Name(number) => u64::try_from(number).unwrap_or(u64::MAX),
        _ => 0,
    }
}
