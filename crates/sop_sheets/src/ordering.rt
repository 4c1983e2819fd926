//! Points or primitives of a geometry in another order.
ghost use Rattle.std.specs.Prelude.{OnOk, OnErr};
ghost use Rattle.sop_model.specs.declared.class.Class.TheVariants.{Prim, Point};
ghost use Rattle.sop_model.specs.Geometry.{count_of};
ghost use Rattle.sop_model.specs.Rows.{reordered, IsOrderOf};
ghost use Rattle.sop_tables.specs.Tables.{IsHeld, HasRoomFor};
ghost use Rattle.sop_sheets.specs.Sheets.{places_of, geo_of, sheet_room, IsSheet, Becomes, Stays};

use crate::remade::Changes;
use crate::sheet::Sheet;
use sop_cells::Shelf;
use sop_columns::Names;
use sop_model::Class;
use sop_tables::Change;
use std::alloc::AllocError;

impl Sheet {
    /// Puts points or primitives in another order: the new one at a place is the old one of the number that stands there in `perm`.
    /// Vertices go with their primitives. Of the detail and of vertices nothing changes. `Err` for want of memory: then only names may
    /// have come.
    pub fn reorder(
        &mut self,
        class: Class,
        perm: &[u32],
        shelf: &mut Shelf<'_>,
        names: &mut Names,
    ) -> Result<(), AllocError>
        requires sheet { IsSheet shelf.old names.old self.old }
        requires held { IsHeld shelf.old (places_of self.old) }
        requires room { HasRoomFor shelf.old sheet_room }
        requires order { IsOrderOf (count_of (geo_of shelf.old names.old self.old) class) perm.now }
        ensures ok { OnOk result (Becomes shelf.old shelf.new names.old names.new self.old self.new (reordered (geo_of shelf.old names.old self.old) class perm.now)) }
        ensures err { OnErr result (Stays shelf.old shelf.new names.old names.new self.old self.new) }
    {
        match class {
            Class::Prim => self.reorder_prims(perm, shelf, names),
            Class::Point => self.reorder_points(perm, shelf, names),
            Class::Detail | Class::Vertex => Ok(()),
        }
    }

    // Primitives in another order, and the vertices with them.
    fn reorder_prims(
        &mut self,
        perm: &[u32],
        shelf: &mut Shelf<'_>,
        names: &mut Names,
    ) -> Result<(), AllocError>
        requires sheet { IsSheet shelf.old names.old self.old }
        requires held { IsHeld shelf.old (places_of self.old) }
        requires room { HasRoomFor shelf.old sheet_room }
        requires order { IsOrderOf (count_of (geo_of shelf.old names.old self.old) Prim) perm.now }
        ensures ok { OnOk result (Becomes shelf.old shelf.new names.old names.new self.old self.new (reordered (geo_of shelf.old names.old self.old) Prim perm.now)) }
        ensures err { OnErr result (Stays shelf.old shelf.new names.old names.new self.old self.new) }
    {
        let made = self.shape().reordered_prims(perm)?;
        let (shape, vertices) = made;
        let topology = self.topology.with_shape(shape)?;
        let changes = Changes {
            detail: Change::Longer(0),
            prim: Change::Picked(perm),
            point: Change::Longer(0),
            vertex: Change::Picked(vertices.as_slice()),
        };
        self.rebuild(changes, topology, shelf, names)
    }

    // Points in another order, to whose new numbers the vertices refer.
    fn reorder_points(
        &mut self,
        perm: &[u32],
        shelf: &mut Shelf<'_>,
        names: &mut Names,
    ) -> Result<(), AllocError>
        requires sheet { IsSheet shelf.old names.old self.old }
        requires held { IsHeld shelf.old (places_of self.old) }
        requires room { HasRoomFor shelf.old sheet_room }
        requires order { IsOrderOf (count_of (geo_of shelf.old names.old self.old) Point) perm.now }
        ensures ok { OnOk result (Becomes shelf.old shelf.new names.old names.new self.old self.new (reordered (geo_of shelf.old names.old self.old) Point perm.now)) }
        ensures err { OnErr result (Stays shelf.old shelf.new names.old names.new self.old self.new) }
    {
        let shape = self.shape().reordered_points(perm)?;
        let topology = self.topology.with_shape(shape)?;
        let changes = Changes {
            detail: Change::Longer(0),
            prim: Change::Longer(0),
            point: Change::Picked(perm),
            vertex: Change::Longer(0),
        };
        self.rebuild(changes, topology, shelf, names)
    }
}
