//! A geometry as columns, read.
ghost use Rattle.std.specs.Prelude.{◌≡◌};
ghost use Rattle.sop_tables.specs.Tables.{IsHeld};
ghost use Rattle.sop_sheets.specs.Sheets.{geo_of, places_of, IsSheet};

use crate::sheet::Sheet;
use sop_cells::Shelf;
use sop_columns::Names;
use sop_model::{Class, GeoView, Kind, ValueRef};
use std::marker::Model;

/// A geometry that is kept as columns, to be read. Contracts see the geometry.
#[derive(Drop)]
pub struct GeoRef<'a> {
    sheet: &'a Sheet,
    shelf: &'a Shelf<'a>,
    names: &'a Names,
}

impl<'a> Model for GeoRef<'a> {
    ghost use Rattle.sop_model.specs.declared.geo.Geo.{Geo};
    ghost use Rattle.sop_tables.specs.Tables.{IsHeld};
    ghost use Rattle.sop_sheets.specs.Sheets.{geo_of, places_of, IsSheet};

    ghost Value = { Geo };

    ghost view = { λ r. geo_of r.shelf.now r.names.now r.sheet.now };

    ghost invariant = { λ r. IsSheet r.shelf.now r.names.now r.sheet.now × IsHeld r.shelf.now (places_of r.sheet.now) };
}

impl<'a> GeoRef<'a> {
    /// A view of the geometry that a sheet stands for on a shelf, with its names. It takes no memory.
    pub fn new(sheet: &'a Sheet, shelf: &'a Shelf<'a>, names: &'a Names) -> GeoRef<'a>
        requires sheet { IsSheet shelf.now names.now sheet.now }
        requires held { IsHeld shelf.now (places_of sheet.now) }
        ensures { result ≡ geo_of shelf.now names.now sheet.now }
    {
        GeoRef {
            sheet,
            shelf,
            names,
        }
    }
}

impl<'a> GeoView for GeoRef<'a> {
    ghost use Rattle.sop_model.specs.declared.geo.Geo.{Geo};

    ghost geo = { λ g. g };

    fn count(&self, class: Class) -> u32 {
        self.sheet.count(class)
    }

    fn heads(&self, class: Class) -> u32 {
        self.sheet.heads(class) as u32
    }

    fn head_name(&self, class: Class, head: u32) -> &str {
        self.sheet.table(class).heads()[head as usize].name.as_str()
    }

    fn head_kind(&self, class: Class, head: u32) -> Kind {
        self.sheet.table(class).heads()[head as usize].kind
    }

    fn find(&self, class: Class, name: &str) -> Option<u32> {
        self.sheet.find(class, name)
    }

    fn groups(&self, class: Class) -> u32 {
        self.sheet.groups(class) as u32
    }

    fn group_name(&self, class: Class, group: u32) -> &str {
        self.sheet.table(class).groups()[group as usize].as_str()
    }

    fn find_group(&self, class: Class, name: &str) -> Option<u32> {
        self.sheet.find_group(class, name)
    }

    fn value(&self, class: Class, head: u32, element: u32) -> ValueRef<'_> {
        let table = self.sheet.table(class);
        table.get(self.shelf, self.names, head, element)
    }

    fn member(&self, class: Class, group: u32, element: u32) -> bool {
        let table = self.sheet.table(class);
        table.member(self.shelf, self.names, group, element)
    }

    fn closed(&self, prim: u32) -> bool {
        self.sheet.shape().closed(prim)
    }

    fn first_vertex(&self, prim: u32) -> u32 {
        self.sheet.shape().first_vertex(prim)
    }

    fn size(&self, prim: u32) -> u32 {
        self.sheet.shape().size(prim)
    }

    fn point_of(&self, vertex: u32) -> u32 {
        self.sheet.shape().point_of(vertex)
    }

    fn prim_of(&self, vertex: u32) -> u32 {
        self.sheet.shape().prim_of(vertex)
    }
}
