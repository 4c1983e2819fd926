//! A geometry as columns: what it holds, and copies that hold the same pages.
ghost use Rattle.std.specs.Prelude.{◌≡◌, ◌≤◌, [], length, position, IfOk, OnOk, OnErr};
ghost use Rattle.std.specs.Str.{bytes_eq};
ghost use Rattle.sop_model.specs.Limits.{most_heads, most_groups};
ghost use Rattle.sop_pages.specs.Pages.{live_pages};
ghost use Rattle.sop_cells.specs.Shelves.{Shifts};
ghost use Rattle.sop_tables.specs.Tables.{IsHeld, HasRoom};
ghost use Rattle.sop_sheets.specs.Sheets.{table_of, places_of};

use crate::topology::Topology;
use sop_cells::Shelf;
use sop_model::Class;
use sop_shape::Shape;
use sop_tables::Table;
use std::alloc::AllocError;
use std::marker::Model;

/// A geometry as columns: a table for each class, whose pages stand on a shelf, and the shape of the primitives. Contracts see the
/// places of the pages, and by `geo_of` the geometry that they stand for on a shelf and with its names.
#[derive(Drop)]
pub struct Sheet {
    pub(crate) detail: Table,
    pub(crate) prim: Table,
    pub(crate) point: Table,
    pub(crate) vertex: Table,
    pub(crate) topology: Topology,
}

impl Model for Sheet {
    ghost use Rattle.sop_sheets.specs.Sheets.{SheetLists};

    ghost Value = { SheetLists };

    ghost view = { λ s. record { detail = s.detail; prim = s.prim; point = s.point; vertex = s.vertex; shape = s.topology } };
}

impl Sheet {
    /// The table of a class.
    pub(crate) fn table(&self, class: Class) -> &Table
        ensures { result.now ≡ table_of self.now class }
    {
        match class {
            Class::Detail => &self.detail,
            Class::Prim => &self.prim,
            Class::Point => &self.point,
            Class::Vertex => &self.vertex,
        }
    }

    /// The shape of the primitives.
    pub(crate) fn shape(&self) -> &Shape
        ensures { result.now ≡ self.now.shape }
    {
        self.topology.shape()
    }

    /// How many elements a class has.
    pub fn count(&self, class: Class) -> u32
        ensures { result ≡ (table_of self.now class).count }
    {
        self.table(class).count()
    }

    /// How many attributes a class has, of which it may have 64.
    pub fn heads(&self, class: Class) -> usize
        ensures { result ≡ length (table_of self.now class).set.heads }
    {
        self.table(class).heads().len()
    }

    /// How many groups a class has, of which it may have 256.
    pub fn groups(&self, class: Class) -> usize
        ensures { result ≡ length (table_of self.now class).set.groups }
    {
        self.table(class).groups().len()
    }

    /// The number of the attribute of this name; `None` exactly where there is none.
    pub fn find(&self, class: Class, name: &str) -> Option<u32>
        requires { length (table_of self.now class).set.heads ≤ most_heads }
        ensures { result ≡ position (λ h. bytes_eq h.name name.now) (table_of self.now class).set.heads }
    {
        self.table(class).find(name)
    }

    /// The number of the group of this name; `None` exactly where there is none.
    pub fn find_group(&self, class: Class, name: &str) -> Option<u32>
        requires { length (table_of self.now class).set.groups ≤ most_groups }
        ensures { result ≡ position (λ g. bytes_eq g name.now) (table_of self.now class).set.groups }
    {
        self.table(class).find_group(name)
    }

    /// An equal sheet. The shelf doesn't count its places before `hold`; `Err` for want of memory.
    pub fn copy(&self) -> Result<Sheet, AllocError>
        ensures { IfOk result (λ sheet. sheet ≡ self.now) }
    {
        Ok(Sheet {
            detail: self.detail.copy()?,
            prim: self.prim.copy()?,
            point: self.point.copy()?,
            vertex: self.vertex.copy()?,
            topology: self.topology.share()?,
        })
    }

    /// Counts the places of a copy. It takes no memory.
    pub fn hold(&self, shelf: &mut Shelf<'_>)
        requires held { IsHeld shelf.old (places_of self.now) }
        requires room { HasRoom shelf.old (places_of self.now) }
        ensures shifts { Shifts shelf.old shelf.new [] (places_of self.now) }
        ensures pages { live_pages shelf.new.own ≡ live_pages shelf.old.own }
    {
        self.detail.hold(shelf);
        self.prim.hold(shelf);
        self.point.hold(shelf);
        self.vertex.hold(shelf);
    }

    /// Lets all its pages go. It takes no memory.
    pub fn release(self, shelf: &mut Shelf<'_>)
        requires held { IsHeld shelf.old (places_of self) }
        ensures shifts { Shifts shelf.old shelf.new (places_of self) [] }
        ensures pages { live_pages shelf.new.own ≤ live_pages shelf.old.own }
    {
        self.detail.release(shelf);
        self.prim.release(shelf);
        self.point.release(shelf);
        self.vertex.release(shelf);
    }
}
