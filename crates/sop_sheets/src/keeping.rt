//! What is left of a geometry where marked elements go.
ghost use Rattle.std.specs.Prelude.{OnOk, OnErr};
ghost use Rattle.sop_model.specs.Sweep.{swept, AreMarksOf};
ghost use Rattle.sop_tables.specs.Tables.{IsHeld, HasRoomFor};
ghost use Rattle.sop_sheets.specs.Sheets.{places_of, geo_of, sheet_room, IsSheet, Becomes, Stays};

use crate::remade::Changes;
use crate::sheet::Sheet;
use sop_cells::Shelf;
use sop_columns::Names;
use sop_model::Class;
use sop_rows::Marks;
use sop_shape::Left;
use sop_tables::Change;
use std::alloc::AllocError;

impl Sheet {
    /// Takes away the marked elements and what can't stay without them; the rest keeps its order. The time grows with all elements, also
    /// where none is marked, since a primitive that lost its vertices before goes too. `Err` for want of memory: then only names may have
    /// come.
    pub fn keep(
        &mut self,
        marks: &Marks,
        shelf: &mut Shelf<'_>,
        names: &mut Names,
    ) -> Result<(), AllocError>
        requires sheet { IsSheet shelf.old names.old self.old }
        requires held { IsHeld shelf.old (places_of self.old) }
        requires room { HasRoomFor shelf.old sheet_room }
        requires marks { AreMarksOf (geo_of shelf.old names.old self.old) marks.now }
        ensures ok { OnOk result (Becomes shelf.old shelf.new names.old names.new self.old self.new (swept (geo_of shelf.old names.old self.old) marks.now)) }
        ensures err { OnErr result (Stays shelf.old shelf.new names.old names.new self.old self.new) }
    {
        let left = self.shape().kept(self.count(Class::Point), marks)?;
        let Left {
            shape,
            points,
            vertices,
            prims,
        } = left;
        let topology = self.topology.with_shape(shape)?;
        let changes = Changes {
            detail: Change::Longer(0),
            prim: Change::Picked(prims.as_slice()),
            point: Change::Picked(points.as_slice()),
            vertex: Change::Picked(vertices.as_slice()),
        };
        self.rebuild(changes, topology, shelf, names)
    }
}
