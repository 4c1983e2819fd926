//! Primitives and vertices that come to a geometry.
ghost use Rattle.std.specs.Prelude.{◌≡◌, ◌+◌, ◌<◌, ◌≤◌, [], ◌∷◌, ◌++◌, length, IsTrue, IfOk, OnOk, OnErr};
ghost use Rattle.sop_model.specs.declared.class.Class.TheVariants.{Prim, Vertex};
ghost use Rattle.sop_model.specs.Geometry.{empty_row, count_of};
ghost use Rattle.sop_model.specs.Limits.{most_prims, most_vertices};
ghost use Rattle.sop_model.specs.Rows.{default_row, picked, prim_added, vertices_added, ArePoints, ArePlaces};
ghost use Rattle.sop_tables.specs.Tables.{rows, places_in, IsTable, IsHeld, HasRoomFor, IsTableMade, IsNoStep};
ghost use Rattle.sop_tables.specs.Changes.{ArePicks, HasCells};
ghost use Rattle.sop_sheets.specs.Sheets.{places_of, geo_of, sheet_room, IsSheet, Becomes, Stays};

use crate::remade::Changes;
use crate::sheet::Sheet;
use crate::topology::Topology;
use sop_cells::Shelf;
use sop_columns::Names;
use sop_tables::{Change, Table};
use std::alloc::AllocError;
use std::mem;

impl Sheet {
    /// Adds a primitive behind the others, with a vertex on each of these points in turn; all have defaults and are in no group. A
    /// geometry has at most 1,000,000 primitives and 4,000,000 vertices. Spare cells are taken where each column has them, without a
    /// page. `Err` for want of memory: then only names may have come.
    pub fn add_prim(
        &mut self,
        closed: bool,
        points: &[u32],
        shelf: &mut Shelf<'_>,
        names: &mut Names,
    ) -> Result<(), AllocError>
        requires sheet { IsSheet shelf.old names.old self.old }
        requires held { IsHeld shelf.old (places_of self.old) }
        requires room { HasRoomFor shelf.old sheet_room }
        requires points { ArePoints (geo_of shelf.old names.old self.old) points.now }
        requires prims { count_of (geo_of shelf.old names.old self.old) Prim < most_prims }
        requires vertices { count_of (geo_of shelf.old names.old self.old) Vertex + length points.now ≤ most_vertices }
        ensures ok { OnOk result (Becomes shelf.old shelf.new names.old names.new self.old self.new (prim_added (geo_of shelf.old names.old self.old) closed points.now)) }
        ensures err { OnErr result (Stays shelf.old shelf.new names.old names.new self.old self.new) }
    {
        if self.has_cells(points.len() as u32, shelf, names) {
            self.add_prim_within(closed, points, shelf, names)
        } else {
            self.add_prim_beside(closed, points, shelf, names)
        }
    }

    // Whether each column has cells for a primitive more and for so many vertices more.
    fn has_cells(&self, vertices: u32, shelf: &Shelf<'_>, names: &Names) -> bool
        requires prim { IsTable shelf.now names.now self.now.prim }
        requires vertex { IsTable shelf.now names.now self.now.vertex }
        requires held_prim { IsHeld shelf.now (places_in self.now.prim) }
        requires held_vertex { IsHeld shelf.now (places_in self.now.vertex) }
        requires most_prim { self.now.prim.count + 1 ≤ most_vertices }
        requires most_vertex { self.now.vertex.count + vertices ≤ most_vertices }
        ensures prims { IsTrue result → HasCells shelf.now self.now.prim (self.now.prim.count + 1) }
        ensures vertices { IsTrue result → HasCells shelf.now self.now.vertex (self.now.vertex.count + vertices) }
    {
        self.prim.has_room(1, shelf, names) && self.vertex.has_room(vertices, shelf, names)
    }

    // A primitive in spare cells.
    fn add_prim_within(
        &mut self,
        closed: bool,
        points: &[u32],
        shelf: &Shelf<'_>,
        names: &Names,
    ) -> Result<(), AllocError>
        requires sheet { IsSheet shelf.now names.now self.old }
        requires points { ArePoints (geo_of shelf.now names.now self.old) points.now }
        requires prims { count_of (geo_of shelf.now names.now self.old) Prim < most_prims }
        requires vertices { count_of (geo_of shelf.now names.now self.old) Vertex + length points.now ≤ most_vertices }
        requires prim_cells { HasCells shelf.now self.old.prim (self.old.prim.count + 1) }
        requires vertex_cells { HasCells shelf.now self.old.vertex (self.old.vertex.count + length points.now) }
        ensures ok { OnOk result (Becomes shelf.now shelf.now names.now names.now self.old self.new (prim_added (geo_of shelf.now names.now self.old) closed points.now)) }
        ensures err { OnErr result (self.new ≡ self.old) }
    {
        self.topology.add_prim(closed, points)?;
        self.prim.occupy(1, shelf, names);
        self.vertex.occupy(points.len() as u32, shelf, names);
        Ok(())
    }

    // A primitive in tables that are made beside these. The shape changes in place, so that its only holder doesn't copy it.
    fn add_prim_beside(
        &mut self,
        closed: bool,
        points: &[u32],
        shelf: &mut Shelf<'_>,
        names: &mut Names,
    ) -> Result<(), AllocError>
        requires sheet { IsSheet shelf.old names.old self.old }
        requires held { IsHeld shelf.old (places_of self.old) }
        requires room { HasRoomFor shelf.old sheet_room }
        requires points { ArePoints (geo_of shelf.old names.old self.old) points.now }
        requires prims { count_of (geo_of shelf.old names.old self.old) Prim < most_prims }
        requires vertices { count_of (geo_of shelf.old names.old self.old) Vertex + length points.now ≤ most_vertices }
        ensures ok { OnOk result (Becomes shelf.old shelf.new names.old names.new self.old self.new (prim_added (geo_of shelf.old names.old self.old) closed points.now)) }
        ensures err { OnErr result (Stays shelf.old shelf.new names.old names.new self.old self.new) }
    {
        let changes = Changes {
            detail: Change::Longer(0),
            prim: Change::Longer(1),
            point: Change::Longer(0),
            vertex: Change::Longer(points.len() as u32),
        };
        let made = self.remade(changes, shelf, names)?;
        if let Err(error) = self.topology.add_prim(closed, points) {
            made.release(shelf);
            return Err(error);
        }
        self.replace(made, shelf);
        Ok(())
    }

    /// Adds a vertex for each primitive and point in turn, on that point at the end of that primitive, with defaults and in no group. A
    /// geometry has at most 4,000,000 vertices. The time grows with the vertices and what is added. `Err` for want of memory: then only
    /// names may have come.
    pub fn add_vertices(
        &mut self,
        adds: &[(u32, u32)],
        shelf: &mut Shelf<'_>,
        names: &mut Names,
    ) -> Result<(), AllocError>
        requires sheet { IsSheet shelf.old names.old self.old }
        requires held { IsHeld shelf.old (places_of self.old) }
        requires room { HasRoomFor shelf.old sheet_room }
        requires places { ArePlaces (geo_of shelf.old names.old self.old) adds.now }
        requires vertices { count_of (geo_of shelf.old names.old self.old) Vertex + length adds.now ≤ most_vertices }
        ensures ok { OnOk result (Becomes shelf.old shelf.new names.old names.new self.old self.new (vertices_added (geo_of shelf.old names.old self.old) adds.now)) }
        ensures err { OnErr result (Stays shelf.old shelf.new names.old names.new self.old self.new) }
    {
        if adds.is_empty() {
            return Ok(());
        }
        let (shape, numbers) = self.topology.shape().with_vertices(adds)?;
        let topology = Topology::new(*numbers.allocator(), shape)?;
        let vertex = picked_with_new(&self.vertex, numbers.as_slice(), shelf, names)?;
        let old = mem::replace(&mut self.vertex, vertex);
        old.release(shelf);
        self.topology = topology;
        Ok(())
    }
}

/// The elements of a table with these numbers, in a table beside it; the number behind the last one stands for a new element, with
/// defaults and in no group. `Err` for want of memory: then only names may have come.
fn picked_with_new(
    table: &Table,
    numbers: &[u32],
    shelf: &mut Shelf<'_>,
    names: &mut Names,
) -> Result<Table, AllocError>
    requires table { IsTable shelf.old names.old table.now }
    requires held { IsHeld shelf.old (places_in table.now) }
    requires room { HasRoomFor shelf.old sheet_room }
    requires most { table.now.count + 1 ≤ most_vertices }
    requires numbers { ArePicks (table.now.count + 1) numbers.now }
    ensures set { IfOk result (λ made. made.set ≡ table.now.set) }
    ensures rows { IfOk result (λ made. rows shelf.new names.new made ≡ picked (rows shelf.old names.old table.now ++ default_row table.now.set ∷ []) empty_row numbers.now) }
    ensures made { IfOk result (IsTableMade shelf.old shelf.new names.old names.new) }
    ensures err { OnErr result (IsNoStep shelf.old shelf.new names.old names.new) }
{
    let longer = table.changed(Change::Longer(1), shelf, names)?;
    let made = longer.changed(Change::Picked(numbers), shelf, names);
    longer.release(shelf);
    made
}
