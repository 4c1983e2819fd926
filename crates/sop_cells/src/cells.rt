//! Columns of cells on a shelf.
ghost use Rattle.std.specs.Prelude.{◌≡◌, ◌∷◌, ℕ, ◌+◌, ◌-◌, ◌*◌, ◌^◌, ◌<◌, ◌≤◌, [], ◌++◌, All, length, map, nat_le, take, drop, replicate, slice_index_or, slice_set, vec_len, vec_capacity, ◌/◌, ◌%◌, ◌==◌, if◌then◌else◌, None, IsOk, IfOk, IfErr, OnOk, OnErr};
ghost use Rattle.sop_pages.specs.declared.cell.Cell.TheVariants.{Name};
ghost use Rattle.sop_pages.specs.declared.page.TheConstants.{MOST_CELLS};
ghost use Rattle.sop_pages.specs.Pages.{count, live_pages};
ghost use Rattle.sop_pages.specs.Moves.{times, Covers};
ghost use Rattle.sop_cells.specs.declared.place.Place.{Place};
ghost use Rattle.sop_cells.specs.Places.{own, AreBased};
ghost use Rattle.sop_cells.specs.Layouts.{CanHold, IsLaid, AreFull, AreWhole, IsCopy, AreCopies, packed_cells};
ghost use Rattle.sop_cells.specs.Shelves.{IsHere, count_at, cells_at, blocks, joined, column, shared, IsPaged, IsKept, Shifts};

use crate::packer::{Packer, lesser};
use crate::place::Place;
use crate::shelf::Shelf;
use sop_outside::Items;
use sop_pages::{Cell, MOST_CELLS, Page, PageList};
use std::alloc::{AllocError, Global};
use std::marker::Model;

/// A column: cells in pages of a shelf, all of them full but the last. Contracts see its places.
/// Its cells are numbered from 0. Calls that make a column leave the old one as it is, for its holder to release.
#[derive(Drop)]
pub struct Cells {
    places: Vec<Place>,
    alloc: Global,
}

impl Model for Cells {
    ghost use Rattle.std.specs.Prelude.{List};
    ghost use Rattle.sop_cells.specs.declared.place.Place.{Place};

    ghost Value = { List Place };

    ghost view = { λ c. c.places.items };
}

impl Cells {
    /// `len` times the same cell, in new own pages.
    pub fn filled(
        alloc: Global,
        cell: Cell,
        len: u32,
        shelf: &mut Shelf<'_>,
    ) -> Result<Cells, AllocError>
        ensures cells { IfOk result (λ c. column shelf.new c ≡ replicate len cell) }
        ensures kept { IfOk result (λ c. IsKept shelf.new c) }
        ensures shifts { IfOk result (λ c. Shifts shelf.old shelf.new [] c) }
        ensures pages { IfOk result (λ c. live_pages shelf.new.own ≡ live_pages shelf.old.own + length c) }
        ensures err { OnErr result (shelf.new ≡ shelf.old) }
    {
        let pages = filled_pages(alloc, cell, len)?;
        let Ok(cells) = Cells::from_pages(alloc, pages, shelf) else {
            return Err(AllocError);
        };
        Ok(cells)
    }

    /// A column of new own pages, or the pages back for want of memory. It is a column to read only where the pages are
    /// full but the last.
    pub fn from_pages(
        alloc: Global,
        pages: PageList,
        shelf: &mut Shelf<'_>,
    ) -> Result<Cells, (PageList, AllocError)>
        ensures blocks { IfOk result (λ c. blocks shelf.new c ≡ pages) }
        ensures based { IfOk result (λ c. AreBased shelf.new.base c) }
        ensures shifts { IfOk result (λ c. Shifts shelf.old shelf.new [] c) }
        ensures pages { OnOk result (live_pages shelf.new.own ≡ live_pages shelf.old.own + length pages) }
        ensures err { IfErr result (λ e. (shelf.new ≡ shelf.old) × (e.0 ≡ pages)) }
    {
        match shelf.put_all(pages) {
            Ok(places) => Ok(Cells {
                places: places.into_vec(),
                alloc,
            }),
            Err(back) => Err(back),
        }
    }

    /// The cell with the number `i`.
    pub fn get(&self, shelf: &Shelf<'_>, i: u32) -> Cell
        requires kept { IsKept shelf.now self.now }
        requires within { i < length (column shelf.now self.now) }
        ensures { result ≡ slice_index_or (column shelf.now self.now) i result }
    {
        let place = self.places[(i / MOST_CELLS) as usize];
        shelf.cell(place, i % MOST_CELLS)
    }

    /// Whether the column has `len` cells at least. It takes no memory.
    pub fn reaches(&self, shelf: &Shelf<'_>, len: u32) -> bool
        requires { IsKept shelf.now self.now }
        ensures { result ≡ nat_le len (length (column shelf.now self.now)) }
    {
        match self.places.as_slice() {
            [] => len == 0,
            [full @ .., last] => u128::from(len) <= cells_of(full.len(), shelf.cells(*last).len()),
        }
    }

    /// Makes `cell` the cell with the number `i`. A page that others hold too, or one of the base, is copied first, so
    /// that theirs stays. A change of the column's own page takes no memory.
    pub fn set(&mut self, shelf: &mut Shelf<'_>, i: u32, cell: Cell) -> Result<(), AllocError>
        requires kept { IsKept shelf.old self.old }
        requires within { i < length (column shelf.old self.old) }
        ensures cells { OnOk result (column shelf.new self.new ≡ slice_set (column shelf.old self.old) i cell) }
        ensures kept { IsKept shelf.new self.new }
        ensures len { length self.new ≡ length self.old }
        ensures count { length (column shelf.new self.new) ≡ length (column shelf.old self.old) }
        ensures shifts { Shifts shelf.old shelf.new self.old self.new }
        ensures pages { live_pages shelf.new.own ≤ live_pages shelf.old.own + 1 }
        ensures spare { live_pages shelf.new.own + shared shelf.new self.new ≤ live_pages shelf.old.own + shared shelf.old self.old }
        ensures single { (place : Place) → place ≡ slice_index_or self.old (i / MOST_CELLS) place → count_at shelf.old place ≡ 1
            → IsOk result × (self.new ≡ self.old) }
        ensures falls { (id : ℕ) → 1 ≤ count shelf.old.own id → count shelf.new.own id ≤ count shelf.old.own id }
        ensures rises { live_pages shelf.old.own ≤ live_pages shelf.new.own }
        ensures err { OnErr result ((shelf.new ≡ shelf.old) × (self.new ≡ self.old)) }
    {
        let at = (i / MOST_CELLS) as usize;
        let old = self.places[at];
        let place = shelf.set(old, i % MOST_CELLS, cell)?;
        self.places[at] = place;
        Ok(())
    }

    /// The same places, which `hold` counts.
    pub fn copy(&self) -> Result<Cells, AllocError>
        ensures { IfOk result (λ c. c ≡ self.now) }
    {
        let places = Vec::from_slice(self.alloc, self.places.as_slice())?;
        Ok(Cells {
            places,
            alloc: self.alloc,
        })
    }

    /// Counts each place once more, as for a copy. It takes no memory.
    #[tactic(auto, using(crate::proofs::HeldLemmas::can_hold))]
    pub fn hold(&self, shelf: &mut Shelf<'_>)
        requires covered { Covers shelf.old.own (own self.now) }
        requires based { AreBased shelf.old.base self.now }
        requires room { (id : ℕ) → count shelf.old.own id + times id (own self.now) < 2 ^ 128 }
        ensures shifts { Shifts shelf.old shelf.new [] self.now }
        ensures pages { live_pages shelf.new.own ≡ live_pages shelf.old.own }
    {
        hold_all(self.places.as_slice(), shelf);
    }

    /// Lets go of the column, and of the pages that no other place holds. It takes no memory.
    pub fn release(self, shelf: &mut Shelf<'_>)
        requires covered { Covers shelf.old.own (own self) }
        requires based { AreBased shelf.old.base self }
        ensures shifts { Shifts shelf.old shelf.new self [] }
        ensures pages { live_pages shelf.new.own ≤ live_pages shelf.old.own }
    {
        release_all(self.places.as_slice(), shelf);
    }

    /// A column of the same cells and, behind them, of copies of `cell`, `len` cells in all at least, on no more pages than
    /// `len` cells need. Full pages are shared. A new page is full at once, but the first of a column, which has a power of
    /// two of cells: so a column that grows one by one is copied as seldom as a `Vec`.
    pub fn extended(&self, shelf: &mut Shelf<'_>, cell: Cell, len: u32) -> Result<Cells, AllocError>
        requires kept { IsKept shelf.old self.now }
        requires within { length (column shelf.old self.now) ≤ len }
        requires room { (id : ℕ) → count shelf.old.own id + times id (own self.now) < 2 ^ 128 }
        ensures cells { IfOk result (λ c. column shelf.new c
            ≡ column shelf.old self.now ++ replicate (length (column shelf.new c) - length (column shelf.old self.now)) cell) }
        ensures enough { IfOk result (λ c. len ≤ length (column shelf.new c)) }
        ensures tight { IfOk result (λ c. MOST_CELLS * length c < len + MOST_CELLS) }
        ensures pages { IfOk result (λ c. live_pages shelf.new.own + length (column shelf.old self.now) / MOST_CELLS
            ≤ live_pages shelf.old.own + length c) }
        ensures kept { IfOk result (λ c. IsKept shelf.new c) }
        ensures shifts { IfOk result (λ c. Shifts shelf.old shelf.new [] c) }
        ensures err { OnErr result (shelf.new ≡ shelf.old) }
    {
        let old_len = self.count(shelf);
        if old_len == len {
            let cells = self.again(shelf)?;
            return Ok(cells);
        }
        self.grown(shelf, cell, old_len, len)
    }

    /// A column of the first `len` cells and, behind them, of the first `more_len` cells of `more`. Whole pages are shared
    /// up to `len`, and those of `more` where `len` cells fill whole pages; the others are copied.
    pub fn appended(
        &self,
        len: u32,
        shelf: &mut Shelf<'_>,
        more: &Cells,
        more_len: u32,
    ) -> Result<Cells, AllocError>
        requires kept { IsKept shelf.old self.now }
        requires within { len ≤ length (column shelf.old self.now) }
        requires more_kept { IsKept shelf.old more.now }
        requires more_within { more_len ≤ length (column shelf.old more.now) }
        requires room { (id : ℕ) → count shelf.old.own id + times id (own self.now) + times id (own more.now) < 2 ^ 128 }
        ensures cells { IfOk result (λ c. column shelf.new c
            ≡ take len (column shelf.old self.now) ++ take more_len (column shelf.old more.now)) }
        ensures pages { IfOk result (λ c. live_pages shelf.new.own + len / MOST_CELLS
            + (if len % MOST_CELLS == 0 then more_len / MOST_CELLS else 0) ≤ live_pages shelf.old.own + length c) }
        ensures kept { IfOk result (λ c. IsKept shelf.new c) }
        ensures shifts { IfOk result (λ c. Shifts shelf.old shelf.new [] c) }
        ensures err { OnErr result (shelf.new ≡ shelf.old) }
    {
        let first = (len / MOST_CELLS) as usize;
        let more_first = more.pages_behind(len, shelf, more_len);
        let left = (more_len as usize).saturating_sub(more_first * MOST_CELLS as usize);
        let rest = (len % MOST_CELLS) as usize;
        let mut packer = Packer::new(self.alloc, rest + left)?;
        self.push_rest(shelf, first, rest, &mut packer)?;
        more.push_rest(shelf, more_first, left, &mut packer)?;
        let pages = packer.finish()?;
        let mut places = self.first_places(first)?;
        places.extend_from_slice(&more.places[..more_first])?;
        let cells = laid(self.alloc, places, pages, shelf)?;
        Ok(cells)
    }

    /// A column of the cells with these numbers, in this order. Whole pages are shared as far as the first numbers are
    /// those of the first cells in order.
    pub fn picked(&self, shelf: &mut Shelf<'_>, numbers: &[u32]) -> Result<Cells, AllocError>
        requires kept { IsKept shelf.old self.now }
        requires within { All (λ i. i < length (column shelf.old self.now)) numbers.now }
        requires room { (id : ℕ) → count shelf.old.own id + times id (own self.now) < 2 ^ 128 }
        ensures cells { IfOk result (λ c. column shelf.new c
            ≡ map (λ i. slice_index_or (column shelf.old self.now) i (Name 0)) numbers.now) }
        ensures pages { (n : ℕ) → n ≤ length numbers.now → ((i : ℕ) → i < n → slice_index_or numbers.now i 0 ≡ i)
            → IfOk result (λ c. live_pages shelf.new.own + n / MOST_CELLS ≤ live_pages shelf.old.own + length c) }
        ensures kept { IfOk result (λ c. IsKept shelf.new c) }
        ensures shifts { IfOk result (λ c. Shifts shelf.old shelf.new [] c) }
        ensures err { OnErr result (shelf.new ≡ shelf.old) }
    {
        let first = in_order(numbers) / MOST_CELLS as usize;
        let behind = &numbers[first * MOST_CELLS as usize..];
        let mut packer = Packer::new(self.alloc, behind.len())?;
        self.push_picked(shelf, behind, &mut packer)?;
        let pages = packer.finish()?;
        let places = self.first_places(first)?;
        let cells = laid(self.alloc, places, pages, shelf)?;
        Ok(cells)
    }

    /// The first `len` cells as pages that are not on the shelf; the column is let go of. A page that no other place holds
    /// is taken without a copy. For want of memory it is all as before, and the column comes back.
    pub fn into_pages(
        self,
        len: u32,
        shelf: &mut Shelf<'_>,
    ) -> Result<PageList, (Cells, AllocError)>
        requires kept { IsKept shelf.old self }
        requires within { len ≤ length (column shelf.old self) }
        requires tight { MOST_CELLS * length self < len + MOST_CELLS }
        ensures cells { IfOk result (λ pages. joined pages ≡ take len (column shelf.old self)) }
        ensures paged { IfOk result (λ pages. IsPaged pages) }
        ensures shifts { OnOk result (Shifts shelf.old shelf.new self []) }
        ensures pages { live_pages shelf.new.own ≤ live_pages shelf.old.own }
        ensures err { IfErr result (λ e. (shelf.new ≡ shelf.old) × (e.0 ≡ self)) }
    {
        let Ok(copies) = copies_of(self.places.as_slice(), self.alloc, shelf) else {
            return Err((self, AllocError));
        };
        let Ok(mut pages) = Vec::with_capacity(self.alloc, self.places.len()) else {
            return Err((self, AllocError));
        };
        take_all(self.places.as_slice(), copies, &mut pages, shelf);
        shorten_last(&mut pages, len);
        Ok(Items::from_vec(pages))
    }

    // The number of cells.
    fn count(&self, shelf: &Shelf<'_>) -> u32
        requires kept { IsKept shelf.now self.now }
        requires few { length (column shelf.now self.now) < 2 ^ 32 }
        ensures { result ≡ length (column shelf.now self.now) }
    {
        let places = self.place_count();
        if places == 0 {
            return 0;
        }
        let last = self.page(shelf, places - 1);
        (places - 1) as u32 * MOST_CELLS + last.len() as u32
    }

    fn place_count(&self) -> usize
        ensures { result ≡ length self.now }
    {
        self.places.len()
    }

    // The page with this number, from 0.
    fn page<'a>(&self, shelf: &'a Shelf<'_>, at: usize) -> &'a [Cell]
        requires kept { IsKept shelf.now self.now }
        requires within { at < length self.now }
        ensures { result.now ≡ slice_index_or (blocks shelf.now self.now) at [] }
    {
        shelf.cells(self.places[at])
    }

    // The same column, held once more.
    fn again(&self, shelf: &mut Shelf<'_>) -> Result<Cells, AllocError>
        requires kept { IsKept shelf.old self.now }
        requires room { (id : ℕ) → count shelf.old.own id + times id (own self.now) < 2 ^ 128 }
        ensures cells { IfOk result (λ c. column shelf.new c ≡ column shelf.old self.now) }
        ensures len { IfOk result (λ c. length c ≡ length self.now) }
        ensures pages { OnOk result (live_pages shelf.new.own ≡ live_pages shelf.old.own) }
        ensures kept { IfOk result (λ c. IsKept shelf.new c) }
        ensures shifts { IfOk result (λ c. Shifts shelf.old shelf.new [] c) }
        ensures err { OnErr result (shelf.new ≡ shelf.old) }
    {
        let cells = self.copy()?;
        cells.hold(shelf);
        Ok(cells)
    }

    // A longer column, where there are `old_len` cells.
    fn grown(
        &self,
        shelf: &mut Shelf<'_>,
        cell: Cell,
        old_len: u32,
        len: u32,
    ) -> Result<Cells, AllocError>
        requires kept { IsKept shelf.old self.now }
        requires counted { old_len ≡ length (column shelf.old self.now) }
        requires within { old_len ≤ len }
        requires room { (id : ℕ) → count shelf.old.own id + times id (own self.now) < 2 ^ 128 }
        ensures cells { IfOk result (λ c. column shelf.new c
            ≡ column shelf.old self.now ++ replicate (length (column shelf.new c) - length (column shelf.old self.now)) cell) }
        ensures enough { IfOk result (λ c. len ≤ length (column shelf.new c)) }
        ensures tight { IfOk result (λ c. MOST_CELLS * length c < len + MOST_CELLS) }
        ensures pages { IfOk result (λ c. live_pages shelf.new.own + length (column shelf.old self.now) / MOST_CELLS
            ≤ live_pages shelf.old.own + length c) }
        ensures kept { IfOk result (λ c. IsKept shelf.new c) }
        ensures shifts { IfOk result (λ c. Shifts shelf.old shelf.new [] c) }
        ensures err { OnErr result (shelf.new ≡ shelf.old) }
    {
        let first = (old_len / MOST_CELLS) as usize;
        let rest = (old_len % MOST_CELLS) as usize;
        let more = (extent(len) - old_len as u64) as usize;
        let mut packer = Packer::new(self.alloc, rest + more)?;
        self.push_rest(shelf, first, rest, &mut packer)?;
        packer.push_copies(&cell, more)?;
        let pages = packer.finish()?;
        let places = self.first_places(first)?;
        let cells = laid(self.alloc, places, pages, shelf)?;
        Ok(cells)
    }

    fn first_places(&self, count: usize) -> Result<Vec<Place>, AllocError>
        requires { count ≤ length self.now }
        ensures { IfOk result (λ places. places.items ≡ take count self.now) }
    {
        Vec::from_slice(self.alloc, &self.places[..count])
    }

    // Sets the first `left` cells behind the first pages into pages.
    fn push_rest(
        &self,
        shelf: &Shelf<'_>,
        first: usize,
        left: usize,
        packer: &mut Packer,
    ) -> Result<(), AllocError>
        requires kept { IsKept shelf.now self.now }
        requires within { first ≤ length self.now }
        ensures { OnOk result (packed_cells packer.new ≡ packed_cells packer.old ++ take left (column shelf.now (drop first self.now))) }
    {
        push_first(&self.places[first..], left, shelf, packer)
    }

    // How many of the first pages can stand, whole, behind `before` cells, where `len` cells of the column are wanted.
    fn pages_behind(&self, before: u32, shelf: &Shelf<'_>, len: u32) -> usize
        requires kept { IsKept shelf.now self.now }
        requires within { len ≤ length (column shelf.now self.now) }
        ensures { AreWhole (blocks shelf.now self.now) before len result }
    {
        if before % MOST_CELLS > 0 {
            return 0;
        }
        let full = (len / MOST_CELLS) as usize;
        if full == self.place_count() {
            return full;
        }
        let page = self.page(shelf, full);
        if page.len() == (len % MOST_CELLS) as usize {
            return full + 1;
        }
        full
    }

    // Sets the cells with these numbers into pages.
    fn push_picked(
        &self,
        shelf: &Shelf<'_>,
        numbers: &[u32],
        packer: &mut Packer,
    ) -> Result<(), AllocError>
        requires kept { IsKept shelf.now self.now }
        requires within { All (λ i. i < length (column shelf.now self.now)) numbers.now }
        ensures { OnOk result (packed_cells packer.new
            ≡ packed_cells packer.old ++ map (λ i. slice_index_or (column shelf.now self.now) i (Name 0)) numbers.now) }
    {
        for number in numbers {
            packer.push(self.get(shelf, *number))?;
        }
        Ok(())
    }
}

// A column of these places, held once more, and behind them of new pages.
fn laid(
    alloc: Global,
    first: Vec<Place>,
    pages: PageList,
    shelf: &mut Shelf<'_>,
) -> Result<Cells, AllocError>
    requires { CanHold shelf.old first.items }
    ensures laid { IfOk result (λ c. IsLaid shelf.old shelf.new first.items pages c) }
    ensures pages { IfOk result (λ c. live_pages shelf.new.own + length first.items ≡ live_pages shelf.old.own + length c) }
    ensures err { OnErr result (shelf.new ≡ shelf.old) }
{
    let held = first.len();
    let Ok(places) = shelf.put_behind(first, pages) else {
        return Err(AllocError);
    };
    hold_all(&places[..held], shelf);
    Ok(Cells { places, alloc })
}

// Counts each place once more.
fn hold_all(places: &[Place], shelf: &mut Shelf<'_>)
    requires { CanHold shelf.old places.now }
    ensures shifts { Shifts shelf.old shelf.new [] places.now }
    ensures pages { live_pages shelf.new.own ≡ live_pages shelf.old.own }
{
    for place in places {
        shelf.share(*place);
    }
}

// Lets go of each place.
fn release_all(places: &[Place], shelf: &mut Shelf<'_>)
    requires covered { Covers shelf.old.own (own places.now) }
    requires based { AreBased shelf.old.base places.now }
    ensures shifts { Shifts shelf.old shelf.new places.now [] }
    ensures pages { live_pages shelf.new.own ≤ live_pages shelf.old.own }
{
    for place in places {
        shelf.release(*place);
    }
}

// Sets the first `left` cells of the places' pages into pages.
fn push_first(
    places: &[Place],
    left: usize,
    shelf: &Shelf<'_>,
    packer: &mut Packer,
) -> Result<(), AllocError>
    requires live { (id : ℕ) → 1 ≤ times id (own places.now) → 1 ≤ count shelf.now.own id }
    requires based { AreBased shelf.now.base places.now }
    ensures { OnOk result (packed_cells packer.new ≡ packed_cells packer.old ++ take left (column shelf.now places.now)) }
{
    let mut left = left;
    for place in places {
        let cells = shelf.cells(*place);
        let part = lesser(cells.len(), left);
        packer.push_run(&cells[..part])?;
        left -= part;
    }
    Ok(())
}

// How many cells a column of `len` cells has where its last page is new: that page is full, or has a power of two of
// cells where it is the column's first.
fn extent(len: u32) -> u64
    ensures enough { len ≤ result }
    ensures tight { (pages : ℕ) → MOST_CELLS * pages < result + MOST_CELLS → MOST_CELLS * pages < len + MOST_CELLS }
{
    if len == 0 || len >= MOST_CELLS {
        return len.div_ceil(MOST_CELLS) as u64 * MOST_CELLS as u64;
    }
    len.next_power_of_two() as u64
}

// Pages of `len` times the same cell, full but the last.
fn filled_pages(alloc: Global, cell: Cell, len: u32) -> Result<PageList, AllocError>
    ensures cells { IfOk result (λ pages. joined pages ≡ replicate len cell) }
    ensures paged { IfOk result (λ pages. IsPaged pages) }
{
    let mut pages = full_pages(alloc, cell, len / MOST_CELLS)?;
    let rest = len % MOST_CELLS;
    if rest == 0 {
        return Ok(pages);
    }
    pages.add(Page::filled(alloc, cell, rest)?)?;
    Ok(pages)
}

// `count` full pages of the same cell.
fn full_pages(alloc: Global, cell: Cell, count: u32) -> Result<PageList, AllocError>
    ensures cells { IfOk result (λ pages. joined pages ≡ replicate (count * MOST_CELLS) cell) }
    ensures full { IfOk result (λ pages. AreFull pages) }
{
    let mut pages = PageList::new(alloc);
    for _page in 0..count {
        pages.add(Page::filled(alloc, cell, MOST_CELLS)?)?;
    }
    Ok(pages)
}

// How many numbers stand at the place that they name, before one that doesn't.
fn in_order(numbers: &[u32]) -> usize
    ensures within { result ≤ length numbers.now }
    ensures each { (i : ℕ) → i < result → slice_index_or numbers.now i 0 ≡ i }
    ensures most { (n : ℕ) → n ≤ length numbers.now → ((i : ℕ) → i < n → slice_index_or numbers.now i 0 ≡ i) → n ≤ result }
{
    for i in 0..numbers.len() {
        if numbers[i] as usize != i {
            return i;
        }
    }
    numbers.len()
}

// What each place yields when the column is let go of.
fn copies_of(
    places: &[Place],
    alloc: Global,
    shelf: &Shelf<'_>,
) -> Result<Vec<Option<Page>>, AllocError>
    requires live { (id : ℕ) → 1 ≤ times id (own places.now) → 1 ≤ count shelf.now.own id }
    requires based { AreBased shelf.now.base places.now }
    ensures { IfOk result (λ copies. AreCopies shelf.now places.now copies.items) }
{
    let mut copies = Vec::with_capacity(alloc, places.len())?;
    for place in places {
        let copy = copy_of(place, shelf)?;
        copies.push(copy)?;
    }
    Ok(copies)
}

fn copy_of(place: &Place, shelf: &Shelf<'_>) -> Result<Option<Page>, AllocError>
    requires { IsHere shelf.now place.now }
    ensures { IfOk result (λ copy. IsCopy shelf.now place.now copy) }
{
    if shelf.is_held_once(*place) {
        return Ok(None);
    }
    let page = shelf.copy(*place)?;
    Ok(Some(page))
}

// Lets go of the places, and sets their pages behind others, where there is room for them.
fn take_all(
    places: &[Place],
    mut copies: Vec<Option<Page>>,
    pages: &mut Vec<Page>,
    shelf: &mut Shelf<'_>,
)
    requires covered { Covers shelf.old.own (own places.now) }
    requires based { AreBased shelf.old.base places.now }
    requires copies { AreCopies shelf.old places.now copies.items }
    requires room { vec_len pages.old + length places.now ≤ vec_capacity pages.old }
    ensures pages { pages.new.items ≡ pages.old.items ++ blocks shelf.old places.now }
    ensures shifts { Shifts shelf.old shelf.new places.now [] }
    ensures fewer { live_pages shelf.new.own ≤ live_pages shelf.old.own }
{
    for i in 0..places.len() {
        let copy = copy_at(&mut copies, i);
        let page = take_one(places[i], copy, shelf);
        pages.push_reserved(page);
    }
}

// Takes one of the copies out.
fn copy_at(copies: &mut Vec<Option<Page>>, i: usize) -> Option<Page>
    requires { i < length copies.old.items }
    ensures taken { result ≡ slice_index_or copies.old.items i None }
    ensures rest { copies.new.items ≡ slice_set copies.old.items i None }
{
    copies[i].take()
}

fn take_one(place: Place, copy: Option<Page>, shelf: &mut Shelf<'_>) -> Page
    requires live { IsHere shelf.old place }
    requires copy { IsCopy shelf.old place copy }
    ensures cells { result ≡ cells_at shelf.old place }
    ensures shifts { Shifts shelf.old shelf.new (place ∷ []) [] }
    ensures fewer { live_pages shelf.new.own ≤ live_pages shelf.old.own }
{
    match copy {
        None => shelf.take(place),
        Some(page) => {
            shelf.release(place);
            page
        }
    }
}

// Cuts the last page, so that there are `len` cells.
fn shorten_last(pages: &mut Vec<Page>, len: u32)
    requires paged { IsPaged pages.old.items }
    requires within { len ≤ length (joined pages.old.items) }
    requires tight { MOST_CELLS * length pages.old.items < len + MOST_CELLS }
    ensures cells { joined pages.new.items ≡ take len (joined pages.old.items) }
    ensures paged { IsPaged pages.new.items }
{
    let count = pages.len();
    if count == 0 {
        return;
    }
    pages[count - 1].shorten((len - 1) % MOST_CELLS + 1);
}

// The number of cells of so many full pages and a last one.
fn cells_of(full: usize, last: usize) -> u128
    ensures { result ≡ MOST_CELLS * full + last }
{
    u128::from(MOST_CELLS) * full as u128 + last as u128
}
