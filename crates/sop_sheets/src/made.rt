//! A geometry made anew.
ghost use Rattle.std.specs.Prelude.{◌≡◌, [], IfOk, OnErr};
ghost use Rattle.sop_model.specs.Geometry.{empty_geo};
ghost use Rattle.sop_tables.specs.Tables.{IsNoStep};
ghost use Rattle.sop_sheets.specs.Sheets.{geo_of, IsSheetMade};

use crate::sheet::Sheet;
use crate::topology::Topology;
use sop_cells::Shelf;
use sop_columns::Names;
use sop_model::HeadSet;
use sop_shape::Shape;
use sop_tables::Table;
use std::alloc::{AllocError, Global};

impl Sheet {
    /// The empty geometry: no element but the detail, and the point attribute `P` alone. It takes memory from `alloc`. `Err` for want
    /// of memory: then only names may have come.
    pub fn empty(
        alloc: Global,
        shelf: &mut Shelf<'_>,
        names: &mut Names,
    ) -> Result<Sheet, AllocError>
        ensures made { IfOk result (IsSheetMade shelf.old shelf.new names.old names.new) }
        ensures geo { IfOk result (λ sheet. geo_of shelf.new names.new sheet ≡ empty_geo) }
        ensures err { OnErr result (IsNoStep shelf.old shelf.new names.old names.new) }
    {
        let topology = Topology::new(alloc, Shape::empty(alloc))?;
        let position = HeadSet::position(alloc)?;
        let detail = Table::new(alloc, HeadSet::empty(alloc), 1, shelf, names)?;
        let prim = Table::new(alloc, HeadSet::empty(alloc), 0, shelf, names)?;
        let vertex = Table::new(alloc, HeadSet::empty(alloc), 0, shelf, names)?;
        let point = Table::new(alloc, position, 0, shelf, names)?;
        Ok(Sheet {
            detail,
            prim,
            point,
            vertex,
            topology,
        })
    }
}
