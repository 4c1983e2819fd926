//! Values and flags of a geometry, set one by one.
ghost use Rattle.std.specs.Prelude.{◌≡◌, ◌+◌, ◌<◌, ◌≤◌, length, IsTrue, OnOk, OnErr};
ghost use Rattle.sop_model.specs.Values.{is_value_within};
ghost use Rattle.sop_model.specs.Rows.{changed_at, with_value, with_flag, value_set, member_set, HasHead, HasGroup, HasElement, IsOfHead};
ghost use Rattle.sop_pages.specs.Pages.{live_pages};
ghost use Rattle.sop_tables.specs.Tables.{rows, places_in, column_at, with_column, members_at, with_members, IsTable, IsHeld, IsTableStep, IsSparing};
ghost use Rattle.sop_sheets.specs.Sheets.{table_of, with_table, places_of, geo_of, IsSheet, Becomes, Stays};

use crate::sheet::Sheet;
use sop_cells::Shelf;
use sop_columns::Names;
use sop_model::{Class, Value};
use std::alloc::AllocError;

impl Sheet {
    /// Makes `value` the value of an element under the attribute with the number `head`, both from 0. `Err` for want of memory: then
    /// only names may have come.
    pub fn set_value(
        &mut self,
        class: Class,
        head: u32,
        element: u32,
        value: &Value,
        shelf: &mut Shelf<'_>,
        names: &mut Names,
    ) -> Result<(), AllocError>
        requires sheet { IsSheet shelf.old names.old self.old }
        requires held { IsHeld shelf.old (places_of self.old) }
        requires head { HasHead (geo_of shelf.old names.old self.old) class head }
        requires element { HasElement (geo_of shelf.old names.old self.old) class element }
        requires kind { IsOfHead (geo_of shelf.old names.old self.old) class head value.now }
        requires within { IsTrue (is_value_within value.now) }
        ensures ok { OnOk result (Becomes shelf.old shelf.new names.old names.new self.old self.new (value_set (geo_of shelf.old names.old self.old) class head element value.now)) }
        ensures rest { self.new ≡ with_table self.old class (with_column (table_of self.old class) head (column_at (table_of self.new class) head)) }
        ensures sparing { IsSparing shelf.old shelf.new (column_at (table_of self.old class) head) (column_at (table_of self.new class) head) }
        ensures err { OnErr result (Stays shelf.old shelf.new names.old names.new self.old self.new) }
    {
        self.set_value_in(class, head, element, value, shelf, names)
    }

    /// Puts an element into the group with the number `group`, or takes it out of it, both numbers from 0. `Err` for want of memory:
    /// then nothing changed.
    pub fn set_member(
        &mut self,
        class: Class,
        group: u32,
        element: u32,
        on: bool,
        shelf: &mut Shelf<'_>,
        names: &Names,
    ) -> Result<(), AllocError>
        requires sheet { IsSheet shelf.old names.now self.old }
        requires held { IsHeld shelf.old (places_of self.old) }
        requires group { HasGroup (geo_of shelf.old names.now self.old) class group }
        requires element { HasElement (geo_of shelf.old names.now self.old) class element }
        ensures ok { OnOk result (Becomes shelf.old shelf.new names.now names.now self.old self.new (member_set (geo_of shelf.old names.now self.old) class group element on)) }
        ensures pages { live_pages shelf.new.own ≤ live_pages shelf.old.own + 1 }
        ensures err { OnErr result (Stays shelf.old shelf.new names.now names.now self.old self.new) }
    {
        self.set_member_in(class, group, element, on, shelf, names)
    }

    // The same of the table of a class.
    fn set_value_in(
        &mut self,
        class: Class,
        head: u32,
        element: u32,
        value: &Value,
        shelf: &mut Shelf<'_>,
        names: &mut Names,
    ) -> Result<(), AllocError>
        requires table { IsTable shelf.old names.old (table_of self.old class) }
        requires held { IsHeld shelf.old (places_in (table_of self.old class)) }
        requires head { head < length (table_of self.old class).set.heads }
        requires element { element < (table_of self.old class).count }
        ensures rows { OnOk result (rows shelf.new names.new (table_of self.new class) ≡ changed_at (with_value head value.now) (rows shelf.old names.old (table_of self.old class)) element) }
        ensures rest { self.new ≡ with_table self.old class (table_of self.new class) }
        ensures column { table_of self.new class ≡ with_column (table_of self.old class) head (column_at (table_of self.new class) head) }
        ensures step { IsTableStep shelf.old shelf.new names.old names.new (table_of self.old class) (table_of self.new class) }
        ensures sparing { IsSparing shelf.old shelf.new (column_at (table_of self.old class) head) (column_at (table_of self.new class) head) }
        ensures err { OnErr result ((shelf.new ≡ shelf.old) × (self.new ≡ self.old)) }
    {
        match class {
            Class::Detail => self.detail.set_value(head, element, value, shelf, names),
            Class::Prim => self.prim.set_value(head, element, value, shelf, names),
            Class::Point => self.point.set_value(head, element, value, shelf, names),
            Class::Vertex => self.vertex.set_value(head, element, value, shelf, names),
        }
    }

    // The same of the table of a class.
    fn set_member_in(
        &mut self,
        class: Class,
        group: u32,
        element: u32,
        on: bool,
        shelf: &mut Shelf<'_>,
        names: &Names,
    ) -> Result<(), AllocError>
        requires table { IsTable shelf.old names.now (table_of self.old class) }
        requires held { IsHeld shelf.old (places_in (table_of self.old class)) }
        requires group { group < length (table_of self.old class).set.groups }
        requires element { element < (table_of self.old class).count }
        ensures rows { OnOk result (rows shelf.new names.now (table_of self.new class) ≡ changed_at (with_flag group on) (rows shelf.old names.now (table_of self.old class)) element) }
        ensures rest { self.new ≡ with_table self.old class (table_of self.new class) }
        ensures set { (table_of self.new class).set ≡ (table_of self.old class).set }
        ensures step { IsTableStep shelf.old shelf.new names.now names.now (table_of self.old class) (table_of self.new class) }
        ensures pages { live_pages shelf.new.own ≤ live_pages shelf.old.own + 1 }
        ensures err { OnErr result ((shelf.new ≡ shelf.old) × (self.new ≡ self.old)) }
    {
        match class {
            Class::Detail => self.detail.set_member(group, element, on, shelf, names),
            Class::Prim => self.prim.set_member(group, element, on, shelf, names),
            Class::Point => self.point.set_member(group, element, on, shelf, names),
            Class::Vertex => self.vertex.set_member(group, element, on, shelf, names),
        }
    }
}
