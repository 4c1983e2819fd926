//! Elements that come behind the others of a geometry.
ghost use Rattle.std.specs.Prelude.{◌≡◌, ◌+◌, ◌≤◌, ◌++◌, replicate, OnOk, OnErr};
ghost use Rattle.sop_model.specs.declared.class.Class.TheVariants.{Point};
ghost use Rattle.sop_model.specs.Geometry.{count_of};
ghost use Rattle.sop_model.specs.Limits.{most_points, most_vertices};
ghost use Rattle.sop_model.specs.Rows.{default_row, points_added};
ghost use Rattle.sop_tables.specs.Tables.{rows, places_in, table_room, IsTable, IsHeld, HasRoomFor, IsTableStep, IsNoStep};
ghost use Rattle.sop_sheets.specs.Sheets.{places_of, geo_of, IsSheet, Becomes, Stays};

use crate::sheet::Sheet;
use sop_cells::Shelf;
use sop_columns::Names;
use sop_tables::{Change, Table};
use std::alloc::AllocError;
use std::mem;

impl Sheet {
    /// Adds `more` points behind the others, with defaults and in no group; a geometry has at most 1,000,000. Spare cells are taken
    /// where each column has them, without memory. `Err` for want of memory: then only names may have come.
    pub fn add_points(
        &mut self,
        more: u32,
        shelf: &mut Shelf<'_>,
        names: &mut Names,
    ) -> Result<(), AllocError>
        requires sheet { IsSheet shelf.old names.old self.old }
        requires held { IsHeld shelf.old (places_of self.old) }
        requires room { HasRoomFor shelf.old table_room }
        requires few { count_of (geo_of shelf.old names.old self.old) Point + more ≤ most_points }
        ensures ok { OnOk result (Becomes shelf.old shelf.new names.old names.new self.old self.new (points_added (geo_of shelf.old names.old self.old) more)) }
        ensures err { OnErr result (Stays shelf.old shelf.new names.old names.new self.old self.new) }
    {
        grow(&mut self.point, more, shelf, names)
    }
}

/// Adds elements behind the others of a table: in spare cells, or else in a table that is made beside it and takes its place.
fn grow(
    table: &mut Table,
    more: u32,
    shelf: &mut Shelf<'_>,
    names: &mut Names,
) -> Result<(), AllocError>
    requires table { IsTable shelf.old names.old table.old }
    requires held { IsHeld shelf.old (places_in table.old) }
    requires room { HasRoomFor shelf.old table_room }
    requires most { table.old.count + more ≤ most_vertices }
    ensures set { OnOk result (table.new.set ≡ table.old.set) }
    ensures rows { OnOk result (rows shelf.new names.new table.new ≡ rows shelf.old names.old table.old ++ replicate more (default_row table.old.set)) }
    ensures step { OnOk result (IsTableStep shelf.old shelf.new names.old names.new table.old table.new) }
    ensures err { OnErr result ((table.new ≡ table.old) × IsNoStep shelf.old shelf.new names.old names.new) }
{
    if table.has_room(more, shelf, names) {
        table.occupy(more, shelf, names);
        return Ok(());
    }
    let longer = table.changed(Change::Longer(more), shelf, names)?;
    let old = mem::replace(table, longer);
    old.release(shelf);
    Ok(())
}
