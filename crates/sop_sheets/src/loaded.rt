//! A geometry made of one that is read.
ghost use Rattle.std.specs.Prelude.{◌≡◌, IfOk, OnErr};
ghost use Rattle.sop_model.specs.Geometry.{IsReadable, AreValuesWithin};
ghost use Rattle.sop_tables.specs.Tables.{IsNoStep};
ghost use Rattle.sop_sheets.specs.Sheets.{geo_of, IsSheetMade};
ghost use Rattle.sop_sheets.specs.Loaded.{AreLoaded};

use crate::sheet::Sheet;
use crate::topology::Topology;
use sop_cells::Shelf;
use sop_columns::Names;
use sop_model::{Class, GeoView};
use sop_shape::Shape;
use sop_tables::Table;
use std::alloc::{AllocError, Global};

impl Sheet {
    /// A sheet of a geometry that is read, beside all others. It takes memory from `alloc`. `Err` for want of memory: then only names may
    /// have come.
    pub fn of_view<V: GeoView>(
        alloc: Global,
        view: &V,
        shelf: &mut Shelf<'_>,
        names: &mut Names,
    ) -> Result<Sheet, AllocError>
        requires readable { IsReadable (V.geo view.now) }
        requires values { AreValuesWithin (V.geo view.now) }
        ensures made { IfOk result (IsSheetMade shelf.old shelf.new names.old names.new) }
        ensures geo { IfOk result (λ sheet. geo_of shelf.new names.new sheet ≡ V.geo view.now) }
        ensures err { OnErr result (IsNoStep shelf.old shelf.new names.old names.new) }
    {
        let shape = Shape::of_view(alloc, view)?;
        let topology = Topology::new(alloc, shape)?;
        let front = two_of_view(alloc, view, Class::Detail, Class::Prim, shelf, names)?;
        let (detail, prim) = front;
        match two_of_view(alloc, view, Class::Point, Class::Vertex, shelf, names) {
            Ok(back) => {
                let (point, vertex) = back;
                Ok(Sheet {
                    detail,
                    prim,
                    point,
                    vertex,
                    topology,
                })
            }
            Err(error) => {
                detail.release(shelf);
                prim.release(shelf);
                Err(error)
            }
        }
    }
}

/// The tables of two classes. `Err` for want of memory: then only names may have come.
fn two_of_view<V: GeoView>(
    alloc: Global,
    view: &V,
    first: Class,
    second: Class,
    shelf: &mut Shelf<'_>,
    names: &mut Names,
) -> Result<(Table, Table), AllocError>
    requires readable { IsReadable (V.geo view.now) }
    ensures made { IfOk result (λ made. AreLoaded shelf.old shelf.new names.old names.new (V.geo view.now) first second made.0 made.1) }
    ensures err { OnErr result (IsNoStep shelf.old shelf.new names.old names.new) }
{
    let made = Table::of_view(alloc, view, first, shelf, names)?;
    match Table::of_view(alloc, view, second, shelf, names) {
        Ok(next) => Ok((made, next)),
        Err(error) => {
            made.release(shelf);
            Err(error)
        }
    }
}
