//! Attributes and groups that come to a geometry, and attributes that go.
ghost use Rattle.std.specs.Prelude.{◌≡◌, ◌<◌, ◌≤◌, false, length, map, OnOk, OnErr};
ghost use Rattle.sop_model.specs.Limits.{most_heads, most_groups};
ghost use Rattle.sop_model.specs.Geometry.{heads_of};
ghost use Rattle.sop_model.specs.Rows.{with_last_value, without_value, with_last_flag, with_last_head, without_head, with_last_group, attr_added, attr_deleted, group_added, HasHead, HasGroups, IsNewHead, IsNewGroup, IsNotPosition};
ghost use Rattle.sop_model.specs.Values.{default_of};
ghost use Rattle.sop_pages.specs.Pages.{live_pages};
ghost use Rattle.sop_cells.specs.Shelves.{ShelfPages};
ghost use Rattle.sop_columns.specs.Names.{NameTable, Grows};
ghost use Rattle.sop_tables.specs.Tables.{rows, places_in, IsTable, IsHeld, IsTableStep};
ghost use Rattle.sop_sheets.specs.Sheets.{table_of, with_table, places_of, geo_of, IsSheet, Becomes, Stays};

use crate::sheet::Sheet;
use sop_cells::Shelf;
use sop_columns::Names;
use sop_model::{Class, Head};
use sop_outside::Text;
use std::alloc::AllocError;

impl Sheet {
    /// Adds an attribute of a new name behind the others of its class, of which there must be fewer than 64. Each element has its
    /// default there. `Err` for want of memory: then only names may have come.
    pub fn add_attr(
        &mut self,
        class: Class,
        head: Head,
        shelf: &mut Shelf<'_>,
        names: &mut Names,
    ) -> Result<(), AllocError>
        requires sheet { IsSheet shelf.old names.old self.old }
        requires held { IsHeld shelf.old (places_of self.old) }
        requires fresh { IsNewHead (geo_of shelf.old names.old self.old) class head.name }
        requires few { length (heads_of (geo_of shelf.old names.old self.old) class).heads < most_heads }
        ensures ok { OnOk result (Becomes shelf.old shelf.new names.old names.new self.old self.new (attr_added (geo_of shelf.old names.old self.old) class head)) }
        ensures err { OnErr result (Stays shelf.old shelf.new names.old names.new self.old self.new) }
    {
        self.add_attr_in(class, head, shelf, names)
    }

    /// Takes the attribute with the number `head`, from 0, away, with its values. It must not be the points' `P`. It takes no memory.
    pub fn del_attr(&mut self, class: Class, head: u32, shelf: &mut Shelf<'_>, names: &Names)
        requires sheet { IsSheet shelf.old names.now self.old }
        requires held { IsHeld shelf.old (places_of self.old) }
        requires head { HasHead (geo_of shelf.old names.now self.old) class head }
        requires apart { IsNotPosition class head }
        ensures gone { Becomes shelf.old shelf.new names.now names.now self.old self.new (attr_deleted (geo_of shelf.old names.now self.old) class head) }
        ensures pages { live_pages shelf.new.own ≤ live_pages shelf.old.own }
    {
        self.del_attr_in(class, head, shelf, names);
    }

    /// Adds a group of a new name behind the others of its class, of which there must be fewer than 256. It has no member. `Err` for
    /// want of memory: then nothing changed.
    pub fn add_group(
        &mut self,
        class: Class,
        name: Text,
        shelf: &Shelf<'_>,
        names: &Names,
    ) -> Result<(), AllocError>
        requires sheet { IsSheet shelf.now names.now self.old }
        requires held { IsHeld shelf.now (places_of self.old) }
        requires class { HasGroups class }
        requires fresh { IsNewGroup (geo_of shelf.now names.now self.old) class name }
        requires few { length (heads_of (geo_of shelf.now names.now self.old) class).groups < most_groups }
        ensures ok { OnOk result (Becomes shelf.now shelf.now names.now names.now self.old self.new (group_added (geo_of shelf.now names.now self.old) class name)) }
        ensures err { OnErr result (Stays shelf.now shelf.now names.now names.now self.old self.new) }
    {
        self.add_group_in(class, name)
    }

    // The same of the table of a class.
    fn add_attr_in(
        &mut self,
        class: Class,
        head: Head,
        shelf: &mut Shelf<'_>,
        names: &mut Names,
    ) -> Result<(), AllocError>
        requires table { IsTable shelf.old names.old (table_of self.old class) }
        requires held { IsHeld shelf.old (places_in (table_of self.old class)) }
        requires room { length (table_of self.old class).set.heads < most_heads }
        ensures rows { OnOk result (rows shelf.new names.new (table_of self.new class) ≡ map (with_last_value (default_of head.kind)) (rows shelf.old names.old (table_of self.old class))) }
        ensures set { OnOk result ((table_of self.new class).set ≡ with_last_head (table_of self.old class).set head) }
        ensures rest { self.new ≡ with_table self.old class (table_of self.new class) }
        ensures step { OnOk result (IsTableStep shelf.old shelf.new names.old names.new (table_of self.old class) (table_of self.new class)) }
        ensures grows { Grows names.old names.new }
        ensures err { OnErr result ((shelf.new ≡ shelf.old) × (self.new ≡ self.old)) }
    {
        match class {
            Class::Detail => self.detail.add_attr(head, shelf, names),
            Class::Prim => self.prim.add_attr(head, shelf, names),
            Class::Point => self.point.add_attr(head, shelf, names),
            Class::Vertex => self.vertex.add_attr(head, shelf, names),
        }
    }

    // The same of the table of a class.
    fn del_attr_in(&mut self, class: Class, head: u32, shelf: &mut Shelf<'_>, names: &Names)
        requires table { IsTable shelf.old names.now (table_of self.old class) }
        requires held { IsHeld shelf.old (places_in (table_of self.old class)) }
        requires head { head < length (table_of self.old class).set.heads }
        ensures rows { rows shelf.new names.now (table_of self.new class) ≡ map (without_value head) (rows shelf.old names.now (table_of self.old class)) }
        ensures set { (table_of self.new class).set ≡ without_head (table_of self.old class).set head }
        ensures rest { self.new ≡ with_table self.old class (table_of self.new class) }
        ensures step { IsTableStep shelf.old shelf.new names.now names.now (table_of self.old class) (table_of self.new class) }
        ensures pages { live_pages shelf.new.own ≤ live_pages shelf.old.own }
    {
        match class {
            Class::Detail => self.detail.del_attr(head, shelf, names),
            Class::Prim => self.prim.del_attr(head, shelf, names),
            Class::Point => self.point.del_attr(head, shelf, names),
            Class::Vertex => self.vertex.del_attr(head, shelf, names),
        }
    }

    // The same of the table of a class.
    fn add_group_in(&mut self, class: Class, name: Text) -> Result<(), AllocError>
        requires { length (table_of self.old class).set.groups < most_groups }
        ensures rows { (s : ShelfPages) (n : NameTable) → OnOk result (rows s n (table_of self.new class) ≡ map (with_last_flag false) (rows s n (table_of self.old class))) }
        ensures set { OnOk result ((table_of self.new class).set ≡ with_last_group (table_of self.old class).set name) }
        ensures rest { self.new ≡ with_table self.old class (table_of self.new class) }
        ensures step { (s : ShelfPages) (n : NameTable) → IsTable s n (table_of self.old class) → OnOk result (IsTableStep s s n n (table_of self.old class) (table_of self.new class)) }
        ensures err { OnErr result (self.new ≡ self.old) }
    {
        match class {
            Class::Detail => self.detail.add_group(name),
            Class::Prim => self.prim.add_group(name),
            Class::Point => self.point.add_group(name),
            Class::Vertex => self.vertex.add_group(name),
        }
    }
}
