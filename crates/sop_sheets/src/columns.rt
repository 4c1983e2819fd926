//! Whole columns of a geometry: taken out as pages, and put in.
ghost use Rattle.std.specs.Prelude.{◌≡◌, ◌+◌, ◌<◌, ◌≤◌, [], length, map, replicate, slice_index_or, pos, All, IsTrue, IfOk, IfErr, OnOk, OnErr};
ghost use Rattle.sop_model.specs.Values.{is_value_within};
ghost use Rattle.sop_model.specs.Rows.{rows_held, column_of, column_held, column_cleared, HasHead, IsOfHead};
ghost use Rattle.sop_model.specs.Geometry.{count_of};
ghost use Rattle.sop_model.specs.declared.value.Value.TheVariants as value;
ghost use Rattle.sop_pages.specs.Pages.{live_pages};
ghost use Rattle.sop_cells.specs.Shelves.{joined, IsPaged};
ghost use Rattle.sop_columns.specs.Names.{value_of, IsNumbered};
ghost use Rattle.sop_tables.specs.Tables.{rows, places_in, column_at, with_column, default_at, IsTable, IsHeld, IsTableStep, IsNoStep};
ghost use Rattle.sop_sheets.specs.Sheets.{table_of, with_table, places_of, geo_of, IsSheet, Becomes, Stays};

use crate::sheet::Sheet;
use sop_cells::Shelf;
use sop_columns::Names;
use sop_model::Class;
use sop_pages::PageList;
use std::alloc::AllocError;

impl Sheet {
    /// Takes the values of the attribute with the number `head`, from 0, out as pages, as many cells as elements, each page but the last
    /// of 1,024 cells. Its values are defaults then. `Err` for want of memory: then only names may have come.
    pub fn take_loose(
        &mut self,
        class: Class,
        head: u32,
        shelf: &mut Shelf<'_>,
        names: &mut Names,
    ) -> Result<PageList, AllocError>
        requires sheet { IsSheet shelf.old names.old self.old }
        requires held { IsHeld shelf.old (places_of self.old) }
        requires head { HasHead (geo_of shelf.old names.old self.old) class head }
        ensures values { IfOk result (λ pages. map (value_of names.old) (joined pages) ≡ column_of (geo_of shelf.old names.old self.old) class head) }
        ensures paged { IfOk result IsPaged }
        ensures numbered { IfOk result (λ pages. All (IsNumbered names.old) (joined pages)) }
        ensures ok { OnOk result (Becomes shelf.old shelf.new names.old names.new self.old self.new (column_cleared (geo_of shelf.old names.old self.old) class head)) }
        ensures err { OnErr result (Stays shelf.old shelf.new names.old names.new self.old self.new) }
    {
        self.take_loose_in(class, head, shelf, names)
    }

    /// Makes the cells of these pages, each but the last of 1,024 cells, the values of the attribute with the number `head`, from 0.
    /// `Err` gives the pages back for want of memory: then nothing changed.
    pub fn adopt(
        &mut self,
        class: Class,
        head: u32,
        pages: PageList,
        shelf: &mut Shelf<'_>,
        names: &Names,
    ) -> Result<(), (PageList, AllocError)>
        requires sheet { IsSheet shelf.old names.now self.old }
        requires held { IsHeld shelf.old (places_of self.old) }
        requires head { HasHead (geo_of shelf.old names.now self.old) class head }
        requires paged { IsPaged pages }
        requires numbered { All (IsNumbered names.now) (joined pages) }
        requires many { length (joined pages) ≡ count_of (geo_of shelf.old names.now self.old) class }
        requires kinds { All (IsOfHead (geo_of shelf.old names.now self.old) class head) (map (value_of names.now) (joined pages)) }
        requires within { All (λ v. IsTrue (is_value_within v)) (map (value_of names.now) (joined pages)) }
        ensures ok { OnOk result (Becomes shelf.old shelf.new names.now names.now self.old self.new (column_held (geo_of shelf.old names.now self.old) class head (map (value_of names.now) (joined pages)))) }
        ensures pages { OnOk result (live_pages shelf.new.own ≤ live_pages shelf.old.own + length pages) }
        ensures err { IfErr result (λ e. Stays shelf.old shelf.new names.now names.now self.old self.new × (e.0 ≡ pages)) }
    {
        self.adopt_in(class, head, pages, shelf, names)
    }

    // The same of the table of a class.
    fn take_loose_in(
        &mut self,
        class: Class,
        head: u32,
        shelf: &mut Shelf<'_>,
        names: &mut Names,
    ) -> Result<PageList, AllocError>
        requires table { IsTable shelf.old names.old (table_of self.old class) }
        requires held { IsHeld shelf.old (places_in (table_of self.old class)) }
        requires head { head < length (table_of self.old class).set.heads }
        ensures values { IfOk result (λ pages. map (value_of names.old) (joined pages) ≡ map (λ row. slice_index_or row.values head (value.Int (pos 0))) (rows shelf.old names.old (table_of self.old class))) }
        ensures paged { IfOk result IsPaged }
        ensures numbered { IfOk result (λ pages. All (IsNumbered names.old) (joined pages)) }
        ensures rows { OnOk result (rows shelf.new names.new (table_of self.new class) ≡ rows_held head (rows shelf.old names.old (table_of self.old class)) (replicate (table_of self.old class).count (default_at (table_of self.old class).set head))) }
        ensures rest { OnOk result (self.new ≡ with_table self.old class (table_of self.new class)) }
        ensures column { OnOk result (table_of self.new class ≡ with_column (table_of self.old class) head (column_at (table_of self.new class) head)) }
        ensures step { OnOk result (IsTableStep shelf.old shelf.new names.old names.new (table_of self.old class) (table_of self.new class)) }
        ensures err { OnErr result ((self.new ≡ self.old) × IsNoStep shelf.old shelf.new names.old names.new) }
    {
        match class {
            Class::Detail => self.detail.take_loose(head, shelf, names),
            Class::Prim => self.prim.take_loose(head, shelf, names),
            Class::Point => self.point.take_loose(head, shelf, names),
            Class::Vertex => self.vertex.take_loose(head, shelf, names),
        }
    }

    // The same of the table of a class.
    fn adopt_in(
        &mut self,
        class: Class,
        head: u32,
        pages: PageList,
        shelf: &mut Shelf<'_>,
        names: &Names,
    ) -> Result<(), (PageList, AllocError)>
        requires table { IsTable shelf.old names.now (table_of self.old class) }
        requires held { IsHeld shelf.old (places_in (table_of self.old class)) }
        requires head { head < length (table_of self.old class).set.heads }
        requires paged { IsPaged pages }
        requires numbered { All (IsNumbered names.now) (joined pages) }
        requires many { length (joined pages) ≡ (table_of self.old class).count }
        ensures rows { OnOk result (rows shelf.new names.now (table_of self.new class) ≡ rows_held head (rows shelf.old names.now (table_of self.old class)) (map (value_of names.now) (joined pages))) }
        ensures rest { OnOk result (self.new ≡ with_table self.old class (table_of self.new class)) }
        ensures column { OnOk result (table_of self.new class ≡ with_column (table_of self.old class) head (column_at (table_of self.new class) head)) }
        ensures step { OnOk result (IsTableStep shelf.old shelf.new names.now names.now (table_of self.old class) (table_of self.new class)) }
        ensures pages { OnOk result (live_pages shelf.new.own ≤ live_pages shelf.old.own + length pages) }
        ensures err { IfErr result (λ e. (shelf.new ≡ shelf.old) × (self.new ≡ self.old) × (e.0 ≡ pages)) }
    {
        match class {
            Class::Detail => self.detail.adopt(head, pages, shelf, names),
            Class::Prim => self.prim.adopt(head, pages, shelf, names),
            Class::Point => self.point.adopt(head, pages, shelf, names),
            Class::Vertex => self.vertex.adopt(head, pages, shelf, names),
        }
    }
}
