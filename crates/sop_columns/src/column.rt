//! Columns of values.
ghost use Rattle.std.specs.Prelude.{◌≡◌, ℕ, ◌+◌, ◌*◌, ◌^◌, ◌<◌, ◌≤◌, ◌++◌, [], length, map, nat_le, take, drop, replicate, ◌/◌, ◌%◌, ◌==◌, if◌then◌else◌, slice_get, slice_index_or, slice_set, Some, All, IsTrue, IsOk, IfOk, IfErr, OnOk, OnErr};
ghost use Rattle.sop_pages.specs.declared.page.TheConstants.{MOST_CELLS};
ghost use Rattle.sop_columns.specs.Fitted.{fitted_to, IsDefault, StandsFor};
ghost use Rattle.sop_pages.specs.Pages.{count, live_pages};
ghost use Rattle.sop_pages.specs.Moves.{times, Covers};
ghost use Rattle.sop_model.specs.Values.{value_seen, kind_of, is_plain, default_of};
ghost use Rattle.sop_cells.specs.declared.place.Place.{Place};
ghost use Rattle.sop_cells.specs.Places.{own, AreBased};
ghost use Rattle.sop_cells.specs.Shelves.{count_at, column, blocks, joined, shared, IsPaged, IsKept, Shifts};
ghost use Rattle.sop_columns.specs.Names.{NameTable, IsNumbered, Grows};
ghost use Rattle.sop_columns.specs.Values.{values, values_at, Continues, IsColumn};

use crate::names::Names;
use sop_cells::{Cells, Shelf};
use sop_model::{Kind, Value, ValueRef};
use sop_pages::{Cell, MOST_CELLS, Page, PageList};
use std::alloc::{AllocError, Global};
use std::marker::Model;

/// Values in the pages of a shelf, one in a cell. Contracts see the list of the places of its pages. What its cells name
/// is in a table, which every call is given that reads or writes values.
#[derive(Drop)]
pub struct Column {
    cells: Cells,
    alloc: Global,
}

impl Model for Column {
    ghost use Rattle.std.specs.Prelude.{List};
    ghost use Rattle.sop_cells.specs.declared.place.Place.{Place};

    ghost Value = { List Place };

    ghost view = { λ c. c.cells };
}

impl Column {
    /// `len` times the default of a kind, in new pages; `Err` for want of memory.
    pub fn new(
        alloc: Global,
        kind: Kind,
        len: u32,
        shelf: &mut Shelf<'_>,
        names: &mut Names,
    ) -> Result<Column, AllocError>
        ensures values { IfOk result (λ c. values shelf.new names.new c ≡ replicate len (default_of kind)) }
        ensures column { IfOk result (IsColumn shelf.new names.new) }
        ensures shifts { IfOk result (λ c. Shifts shelf.old shelf.new [] c) }
        ensures grows { Grows names.old names.new }
        ensures pages { IfOk result (λ c. live_pages shelf.new.own ≡ live_pages shelf.old.own + length c) }
        ensures err { OnErr result (shelf.new ≡ shelf.old) }
    {
        let cell = names.default_cell(kind)?;
        let cells = Cells::filled(alloc, cell, len, shelf)?;
        Ok(Column { cells, alloc })
    }

    /// The value with the number `i`, from 0. It takes no memory.
    pub fn get<'n>(&self, shelf: &Shelf<'_>, names: &'n Names, i: u32) -> ValueRef<'n>
        requires column { IsColumn shelf.now names.now self.now }
        requires within { i < length (column shelf.now self.now) }
        ensures { slice_get (values shelf.now names.now self.now) i ≡ Some (value_seen result) }
    {
        let cell = self.cells.get(shelf, i);
        names.value(cell)
    }

    /// Whether the column has `len` values at least. It takes no memory.
    pub fn reaches(&self, shelf: &Shelf<'_>, len: u32) -> bool
        requires { IsKept shelf.now self.now }
        ensures { result ≡ nat_le len (length (column shelf.now self.now)) }
    {
        self.cells.reaches(shelf, len)
    }

    /// Makes `value` the value with the number `i`, from 0. Its page is changed in place where no other place holds it, and
    /// else this column gets a changed page of its own. `Err` for want of memory: then only the table may have grown. A number
    /// or a vector takes no memory where its page is changed in place.
    pub fn set(
        &mut self,
        shelf: &mut Shelf<'_>,
        names: &mut Names,
        i: u32,
        value: &Value,
    ) -> Result<(), AllocError>
        requires column { IsColumn shelf.old names.old self.old }
        requires within { i < length (column shelf.old self.old) }
        ensures values { OnOk result (values shelf.new names.new self.new ≡ slice_set (values shelf.old names.old self.old) i value.now) }
        ensures column { IsColumn shelf.new names.new self.new }
        ensures len { length self.new ≡ length self.old }
        ensures count { length (column shelf.new self.new) ≡ length (column shelf.old self.old) }
        ensures shifts { Shifts shelf.old shelf.new self.old self.new }
        ensures grows { Grows names.old names.new }
        ensures pages { live_pages shelf.new.own ≤ live_pages shelf.old.own + 1 }
        ensures spare { live_pages shelf.new.own + shared shelf.new self.new ≤ live_pages shelf.old.own + shared shelf.old self.old }
        ensures single { (place : Place) → place ≡ slice_index_or self.old (i / MOST_CELLS) place → count_at shelf.old place ≡ 1
            → (self.new ≡ self.old) × (IsTrue (is_plain (kind_of value.now)) → IsOk result) }
        ensures falls { (id : ℕ) → 1 ≤ count shelf.old.own id → count shelf.new.own id ≤ count shelf.old.own id }
        ensures rises { live_pages shelf.old.own ≤ live_pages shelf.new.own }
        ensures err { OnErr result ((shelf.new ≡ shelf.old) × (self.new ≡ self.old)) }
    {
        let cell = names.cell(value)?;
        self.cells.set(shelf, i, cell)?;
        Ok(())
    }

    /// The same places, which the shelf doesn't count before `hold`.
    pub fn copy(&self) -> Result<Column, AllocError>
        ensures { IfOk result (λ c. c ≡ self.now) }
    {
        let cells = self.cells.copy()?;
        Ok(Column {
            cells,
            alloc: self.alloc,
        })
    }

    /// Counts the pages of a copy once more. It takes no memory.
    pub fn hold(&self, shelf: &mut Shelf<'_>)
        requires covered { Covers shelf.old.own (own self.now) }
        requires based { AreBased shelf.old.base self.now }
        requires room { (id : ℕ) → count shelf.old.own id + times id (own self.now) < 2 ^ 128 }
        ensures shifts { Shifts shelf.old shelf.new [] self.now }
        ensures pages { live_pages shelf.new.own ≡ live_pages shelf.old.own }
    {
        self.cells.hold(shelf);
    }

    /// Lets the pages go. It takes no memory.
    pub fn release(self, shelf: &mut Shelf<'_>)
        requires covered { Covers shelf.old.own (own self) }
        requires based { AreBased shelf.old.base self }
        ensures shifts { Shifts shelf.old shelf.new self [] }
        ensures pages { live_pages shelf.new.own ≤ live_pages shelf.old.own }
    {
        let Column { cells, alloc: _ } = self;
        cells.release(shelf);
    }

    /// The column of these pages, each but the last of 1,024 cells. `Err` gives them back for want of memory.
    pub fn from_pages(
        alloc: Global,
        pages: PageList,
        shelf: &mut Shelf<'_>,
    ) -> Result<Column, (PageList, AllocError)>
        requires { IsPaged pages }
        ensures blocks { IfOk result (λ c. blocks shelf.new c ≡ pages) }
        ensures column { (names : NameTable) → All (IsNumbered names) (joined pages) → IfOk result (IsColumn shelf.new names) }
        ensures shifts { IfOk result (λ c. Shifts shelf.old shelf.new [] c) }
        ensures pages { OnOk result (live_pages shelf.new.own ≡ live_pages shelf.old.own + length pages) }
        ensures err { IfErr result (λ e. (shelf.new ≡ shelf.old) × (e.0 ≡ pages)) }
    {
        match Cells::from_pages(alloc, pages, shelf) {
            Ok(cells) => Ok(Column { cells, alloc }),
            Err(back) => Err(back),
        }
    }

    /// The first `len` cells as pages, each but the last of 1,024 cells; the column's pages are let go. The column may have at
    /// most a page more than `len` cells need. `Err` gives it back for want of memory.
    pub fn into_pages(
        self,
        len: u32,
        shelf: &mut Shelf<'_>,
    ) -> Result<PageList, (Column, AllocError)>
        requires kept { IsKept shelf.old self }
        requires within { len ≤ length (column shelf.old self) }
        requires tight { MOST_CELLS * length self < len + MOST_CELLS }
        ensures cells { IfOk result (λ pages. joined pages ≡ take len (column shelf.old self)) }
        ensures paged { IfOk result IsPaged }
        ensures shifts { OnOk result (Shifts shelf.old shelf.new self []) }
        ensures pages { live_pages shelf.new.own ≤ live_pages shelf.old.own }
        ensures err { IfErr result (λ e. (shelf.new ≡ shelf.old) × (e.0 ≡ self)) }
    {
        let Column { cells, alloc } = self;
        match cells.into_pages(len, shelf) {
            Ok(pages) => Ok(pages),
            Err((cells, error)) => Err((Column { cells, alloc }, error)),
        }
    }

    /// A column of the same values and behind them the default of a kind, `len` in all at least. It shares full pages with
    /// this one, which stays. `Err` for want of memory.
    pub fn extended(
        &self,
        shelf: &mut Shelf<'_>,
        names: &mut Names,
        kind: Kind,
        len: u32,
    ) -> Result<Column, AllocError>
        requires column { IsColumn shelf.old names.old self.now }
        requires within { length (column shelf.old self.now) ≤ len }
        requires room { (id : ℕ) → count shelf.old.own id + times id (own self.now) < 2 ^ 128 }
        ensures values { IfOk result (λ c. Continues (values shelf.old names.old self.now) (values shelf.new names.new c) (default_of kind)) }
        ensures enough { IfOk result (λ c. len ≤ length (column shelf.new c)) }
        ensures column { IfOk result (IsColumn shelf.new names.new) }
        ensures tight { IfOk result (λ c. MOST_CELLS * length c < len + MOST_CELLS) }
        ensures pages { IfOk result (λ c. live_pages shelf.new.own + length (column shelf.old self.now) / MOST_CELLS
            ≤ live_pages shelf.old.own + length c) }
        ensures shifts { IfOk result (λ c. Shifts shelf.old shelf.new [] c) }
        ensures grows { Grows names.old names.new }
        ensures err { OnErr result (shelf.new ≡ shelf.old) }
    {
        let cell = names.default_cell(kind)?;
        let cells = self.cells.extended(shelf, cell, len)?;
        Ok(Column {
            cells,
            alloc: self.alloc,
        })
    }

    /// A column of the first `len` values of this one and then the first `more_len` of `more`. It shares what whole pages it
    /// can with both, which stay. `Err` for want of memory.
    pub fn appended(
        &self,
        len: u32,
        shelf: &mut Shelf<'_>,
        more: &Column,
        more_len: u32,
    ) -> Result<Column, AllocError>
        requires kept { IsKept shelf.old self.now }
        requires more_kept { IsKept shelf.old more.now }
        requires within { len ≤ length (column shelf.old self.now) }
        requires more_within { more_len ≤ length (column shelf.old more.now) }
        requires room { (id : ℕ) → count shelf.old.own id + times id (own self.now) + times id (own more.now) < 2 ^ 128 }
        ensures values { (names : NameTable) → IfOk result (λ c. values shelf.new names c ≡ take len (values shelf.old names self.now) ++ take more_len (values shelf.old names more.now)) }
        ensures column { (names : NameTable) → IsColumn shelf.old names self.now → IsColumn shelf.old names more.now → IfOk result (IsColumn shelf.new names) }
        ensures pages { IfOk result (λ c. live_pages shelf.new.own + len / MOST_CELLS
            + (if len % MOST_CELLS == 0 then more_len / MOST_CELLS else 0) ≤ live_pages shelf.old.own + length c) }
        ensures shifts { IfOk result (λ c. Shifts shelf.old shelf.new [] c) }
        ensures err { OnErr result (shelf.new ≡ shelf.old) }
    {
        let cells = self.cells.appended(len, shelf, &more.cells, more_len)?;
        Ok(Column {
            cells,
            alloc: self.alloc,
        })
    }

    /// A column of the values at these numbers, in this order. It shares what whole pages it can with this one, which stays.
    /// `Err` for want of memory.
    pub fn picked(&self, shelf: &mut Shelf<'_>, numbers: &[u32]) -> Result<Column, AllocError>
        requires kept { IsKept shelf.old self.now }
        requires within { All (λ i. i < length (column shelf.old self.now)) numbers.now }
        requires room { (id : ℕ) → count shelf.old.own id + times id (own self.now) < 2 ^ 128 }
        ensures values { (names : NameTable) → IfOk result (λ c. values shelf.new names c ≡ values_at (values shelf.old names self.now) numbers.now) }
        ensures column { (names : NameTable) → IsColumn shelf.old names self.now → IfOk result (IsColumn shelf.new names) }
        ensures pages { (n : ℕ) → n ≤ length numbers.now → ((i : ℕ) → i < n → slice_index_or numbers.now i 0 ≡ i)
            → IfOk result (λ c. live_pages shelf.new.own + n / MOST_CELLS ≤ live_pages shelf.old.own + length c) }
        ensures shifts { IfOk result (λ c. Shifts shelf.old shelf.new [] c) }
        ensures err { OnErr result (shelf.new ≡ shelf.old) }
    {
        let cells = self.cells.picked(shelf, numbers)?;
        Ok(Column {
            cells,
            alloc: self.alloc,
        })
    }

    /// A column of the first `len` values, each as it stands under a head of this kind: as it is put there, else the kind's
    /// default. It has new pages; this one stays. `Err` for want of memory: then only the table may have grown.
    pub fn converted(
        &self,
        kind: Kind,
        len: u32,
        shelf: &mut Shelf<'_>,
        names: &mut Names,
    ) -> Result<Column, AllocError>
        requires column { IsColumn shelf.old names.old self.now }
        requires within { len ≤ length (column shelf.old self.now) }
        ensures values { IfOk result (λ c. values shelf.new names.new c ≡ map (fitted_to kind) (take len (values shelf.old names.old self.now))) }
        ensures column { IfOk result (IsColumn shelf.new names.new) }
        ensures shifts { IfOk result (λ c. Shifts shelf.old shelf.new [] c) }
        ensures grows { Grows names.old names.new }
        ensures err { OnErr result (shelf.new ≡ shelf.old) }
    {
        let default = names.default_cell(kind)?;
        let pages = self.converted_pages(kind, &default, len, shelf, names)?;
        match Column::from_pages(self.alloc, pages, shelf) {
            Ok(column) => Ok(column),
            Err(_) => Err(AllocError),
        }
    }

    // The pages of the first `len` values under a kind.
    #[tactic(auto, using(crate::proofs::NameLemmas::grows_none))]
    fn converted_pages(
        &self,
        kind: Kind,
        default: &Cell,
        len: u32,
        shelf: &Shelf<'_>,
        names: &mut Names,
    ) -> Result<PageList, AllocError>
        requires column { IsColumn shelf.now names.old self.now }
        requires default { IsDefault names.old kind default.now }
        requires within { len ≤ length (column shelf.now self.now) }
        ensures stands { IfOk result (λ pages. StandsFor names.new (joined pages) (map (fitted_to kind) (take len (values shelf.now names.old self.now)))) }
        ensures paged { IfOk result IsPaged }
        ensures grows { Grows names.old names.new }
    {
        let mut pages = self.converted_full(kind, default, len / MOST_CELLS, shelf, names)?;
        let start = MOST_CELLS * (len / MOST_CELLS);
        if start == len {
            return Ok(pages);
        }
        let cells = self.converted_run(kind, default, start, len - start, shelf, names)?;
        pages.add(Page::from_vec(cells))?;
        Ok(pages)
    }

    // The first `count` pages, which are full, under a kind.
    #[tactic(auto, using(crate::proofs::NameLemmas::grows_none))]
    fn converted_full(
        &self,
        kind: Kind,
        default: &Cell,
        count: u32,
        shelf: &Shelf<'_>,
        names: &mut Names,
    ) -> Result<PageList, AllocError>
        requires column { IsColumn shelf.now names.old self.now }
        requires default { IsDefault names.old kind default.now }
        requires within { MOST_CELLS * count ≤ length (column shelf.now self.now) }
        requires fits { MOST_CELLS * count < 2 ^ 32 }
        ensures stands { IfOk result (λ pages. StandsFor names.new (joined pages) (map (fitted_to kind) (take (MOST_CELLS * count) (values shelf.now names.old self.now)))) }
        ensures full { IfOk result (λ pages. All (λ page. length page ≡ MOST_CELLS) pages) }
        ensures grows { Grows names.old names.new }
    {
        let mut pages = PageList::new(self.alloc);
        for page in 0..count {
            let cells = self.converted_run(
                kind,
                default,
                MOST_CELLS * page,
                MOST_CELLS,
                shelf,
                names,
            )?;
            pages.add(Page::from_vec(cells))?;
        }
        Ok(pages)
    }

    // The `count` cells from number `start` on, under a kind.
    #[tactic(auto, using(crate::proofs::NameLemmas::grows_none))]
    fn converted_run(
        &self,
        kind: Kind,
        default: &Cell,
        start: u32,
        count: u32,
        shelf: &Shelf<'_>,
        names: &mut Names,
    ) -> Result<Vec<Cell>, AllocError>
        requires kept { IsKept shelf.now self.now }
        requires numbered { All (IsNumbered names.old) (column shelf.now self.now) }
        requires default { IsDefault names.old kind default.now }
        requires within { start + count ≤ length (column shelf.now self.now) }
        requires fits { start + count < 2 ^ 32 }
        ensures stands { IfOk result (λ cells. StandsFor names.new cells.items (map (fitted_to kind) (take count (drop start (values shelf.now names.old self.now))))) }
        ensures len { IfOk result (λ cells. length cells.items ≡ count) }
        ensures grows { Grows names.old names.new }
    {
        let mut cells = Vec::with_capacity(self.alloc, count as usize)?;
        for k in 0..count {
            let cell = self.cells.get(shelf, start + k);
            cells.push(names.fitted_or(&cell, kind, default)?)?;
        }
        Ok(cells)
    }
}
