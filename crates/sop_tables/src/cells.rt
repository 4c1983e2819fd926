//! Values and flags of a table: set one by one, and whole columns of values taken out and put in as pages.
ghost use Rattle.std.specs.Prelude.{◌≡◌, ◌+◌, ◌<◌, ◌≤◌, [], length, map, replicate, slice_index_or, pos, All, IfOk, IfErr, OnOk, OnErr};
ghost use Rattle.sop_model.specs.declared.value.Value.TheVariants as value;
ghost use Rattle.sop_model.specs.Rows.{changed_at, with_value, with_flag, rows_held};
ghost use Rattle.sop_pages.specs.Pages.{live_pages};
ghost use Rattle.sop_cells.specs.Shelves.{joined, IsPaged};
ghost use Rattle.sop_columns.specs.Names.{value_of, IsNumbered};
ghost use Rattle.sop_tables.specs.Tables.{rows, places_in, column_at, with_column, members_at, with_members, default_at, IsTable, IsHeld, IsTableStep, IsNoStep, IsSparing};

use crate::table::Table;
use sop_cells::Shelf;
use sop_columns::{Column, Names};
use sop_model::Value;
use sop_pages::PageList;
use std::alloc::AllocError;
use std::mem;

impl Table {
    /// Makes `value` the value of an element under the attribute with the number `head`, both from 0. Other tables stay as
    /// they are. `Err` for want of memory: then only names may have come.
    pub fn set_value(
        &mut self,
        head: u32,
        element: u32,
        value: &Value,
        shelf: &mut Shelf<'_>,
        names: &mut Names,
    ) -> Result<(), AllocError>
        requires table { IsTable shelf.old names.old self.old }
        requires held { IsHeld shelf.old (places_in self.old) }
        requires head { head < length self.old.set.heads }
        requires element { element < self.old.count }
        ensures rows { OnOk result (rows shelf.new names.new self.new
            ≡ changed_at (with_value head value.now) (rows shelf.old names.old self.old) element) }
        ensures rest { self.new ≡ with_column self.old head (column_at self.new head) }
        ensures step { IsTableStep shelf.old shelf.new names.old names.new self.old self.new }
        ensures sparing { IsSparing shelf.old shelf.new (column_at self.old head) (column_at self.new head) }
        ensures err { OnErr result ((shelf.new ≡ shelf.old) × (self.new ≡ self.old)) }
    {
        let column = &mut self.columns[head as usize];
        column.set(shelf, names, element, value)?;
        Ok(())
    }

    /// Puts an element into the group with the number `group`, or takes it out of it, both numbers from 0. Other tables stay
    /// as they are. `Err` for want of memory: then nothing changed.
    pub fn set_member(
        &mut self,
        group: u32,
        element: u32,
        on: bool,
        shelf: &mut Shelf<'_>,
        names: &Names,
    ) -> Result<(), AllocError>
        requires table { IsTable shelf.old names.now self.old }
        requires held { IsHeld shelf.old (places_in self.old) }
        requires group { group < length self.old.set.groups }
        requires element { element < self.old.count }
        ensures rows { OnOk result (rows shelf.new names.now self.new
            ≡ changed_at (with_flag group on) (rows shelf.old names.now self.old) element) }
        ensures rest { self.new ≡ with_members self.old group (members_at self.new group) }
        ensures step { IsTableStep shelf.old shelf.new names.now names.now self.old self.new }
        ensures pages { live_pages shelf.new.own ≤ live_pages shelf.old.own + 1 }
        ensures err { OnErr result ((shelf.new ≡ shelf.old) × (self.new ≡ self.old)) }
    {
        let members = &mut self.members[group as usize];
        members.set(shelf, element, on)?;
        Ok(())
    }

    /// Takes the values of the attribute with the number `head`, from 0, out as pages, as many cells as elements, each page
    /// but the last of 1,024 cells. Its values are defaults then. Other tables stay as they are. `Err` for want of memory:
    /// then only names may have come.
    pub fn take_loose(
        &mut self,
        head: u32,
        shelf: &mut Shelf<'_>,
        names: &mut Names,
    ) -> Result<PageList, AllocError>
        requires table { IsTable shelf.old names.old self.old }
        requires held { IsHeld shelf.old (places_in self.old) }
        requires head { head < length self.old.set.heads }
        ensures values { IfOk result (λ pages. map (value_of names.old) (joined pages)
            ≡ map (λ row. slice_index_or row.values head (value.Int (pos 0))) (rows shelf.old names.old self.old)) }
        ensures paged { IfOk result IsPaged }
        ensures numbered { IfOk result (λ pages. All (IsNumbered names.old) (joined pages)) }
        ensures rows { OnOk result (rows shelf.new names.new self.new
            ≡ rows_held head (rows shelf.old names.old self.old) (replicate self.old.count (default_at self.old.set head))) }
        ensures rest { OnOk result (self.new ≡ with_column self.old head (column_at self.new head)) }
        ensures step { OnOk result (IsTableStep shelf.old shelf.new names.old names.new self.old self.new) }
        ensures pages { OnOk result (live_pages shelf.new.own ≤ live_pages shelf.old.own + length (column_at self.new head)) }
        ensures err { OnErr result ((self.new ≡ self.old) × IsNoStep shelf.old shelf.new names.old names.new) }
    {
        let count = self.count;
        let kind = self.set.heads.get(head as usize).kind;
        let fresh = Column::new(self.alloc, kind, count, shelf, names)?;
        let old = self.replace(head, fresh);
        match old.into_pages(count, shelf) {
            Ok(pages) => Ok(pages),
            Err((old, error)) => {
                let fresh = self.replace(head, old);
                fresh.release(shelf);
                Err(error)
            }
        }
    }

    /// Makes the cells of these pages, each but the last of 1,024 cells, the values of the attribute with the number `head`,
    /// from 0. Other tables stay as they are. `Err` gives the pages back for want of memory: then nothing changed.
    pub fn adopt(
        &mut self,
        head: u32,
        pages: PageList,
        shelf: &mut Shelf<'_>,
        names: &Names,
    ) -> Result<(), (PageList, AllocError)>
        requires table { IsTable shelf.old names.now self.old }
        requires held { IsHeld shelf.old (places_in self.old) }
        requires head { head < length self.old.set.heads }
        requires paged { IsPaged pages }
        requires numbered { All (IsNumbered names.now) (joined pages) }
        requires many { length (joined pages) ≡ self.old.count }
        ensures rows { OnOk result (rows shelf.new names.now self.new
            ≡ rows_held head (rows shelf.old names.now self.old) (map (value_of names.now) (joined pages))) }
        ensures rest { OnOk result (self.new ≡ with_column self.old head (column_at self.new head)) }
        ensures step { OnOk result (IsTableStep shelf.old shelf.new names.now names.now self.old self.new) }
        ensures pages { OnOk result (live_pages shelf.new.own ≤ live_pages shelf.old.own + length pages) }
        ensures err { IfErr result (λ e. (shelf.new ≡ shelf.old) × (self.new ≡ self.old) × (e.0 ≡ pages)) }
    {
        match Column::from_pages(self.alloc, pages, shelf) {
            Ok(column) => {
                let old = self.replace(head, column);
                old.release(shelf);
                Ok(())
            }
            Err(back) => Err(back),
        }
    }

    // Puts a column in the place of another, which comes out.
    fn replace(&mut self, head: u32, column: Column) -> Column
        requires { head < length self.old.columns }
        ensures now { self.new ≡ with_column self.old head column }
        ensures out { result ≡ column_at self.old head }
    {
        mem::replace(&mut self.columns[head as usize], column)
    }
}
