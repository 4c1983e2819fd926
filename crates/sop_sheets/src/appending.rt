//! One geometry behind another.
ghost use Rattle.std.specs.Prelude.{◌≡◌, ◌↔◌, IsTrue, OnOk, OnErr};
ghost use Rattle.sop_model.specs.Geometry.{IsWithin};
ghost use Rattle.sop_model.specs.Appending.{appended};
ghost use Rattle.sop_tables.specs.Tables.{IsHeld, HasRoomFor};
ghost use Rattle.sop_sheets.specs.Together.{CountsFit, SetFits, SetsFit, SetsKept};
ghost use Rattle.sop_sheets.specs.Sheets.{places_of, geo_of, sheet_room, IsSheet, Becomes, Stays};

use crate::remade::Changes;
use crate::sheet::Sheet;
use sop_cells::Shelf;
use sop_columns::Names;
use sop_model::Class;
use sop_model::limits::{MOST_POINTS, MOST_PRIMS, MOST_VERTICES};
use sop_tables::Change;
use std::alloc::AllocError;

impl Sheet {
    /// Puts another geometry behind this one, as a merge of the two does, where both together are within the limits. Whole pages are
    /// shared with both where they can be. The other one stays. `Err` for want of memory: then only names may have come.
    pub fn append(
        &mut self,
        other: &Sheet,
        shelf: &mut Shelf<'_>,
        names: &mut Names,
    ) -> Result<(), AllocError>
        requires sheet { IsSheet shelf.old names.old self.old }
        requires held { IsHeld shelf.old (places_of self.old) }
        requires other { IsSheet shelf.old names.old other.now }
        requires other_held { IsHeld shelf.old (places_of other.now) }
        requires room { HasRoomFor shelf.old sheet_room }
        requires within { IsWithin (appended (geo_of shelf.old names.old self.old) (geo_of shelf.old names.old other.now)) }
        ensures ok { OnOk result (Becomes shelf.old shelf.new names.old names.new self.old self.new (appended (geo_of shelf.old names.old self.old) (geo_of shelf.old names.old other.now))) }
        ensures err { OnErr result (Stays shelf.old shelf.new names.old names.new self.old self.new) }
    {
        let changes = Changes {
            detail: Change::Widened(&other.detail),
            prim: Change::Appended(&other.prim),
            point: Change::Appended(&other.point),
            vertex: Change::Appended(&other.vertex),
        };
        let points = self.point.count();
        let made = self.remade(changes, shelf, names)?;
        if let Err(error) = self.topology.append(&other.topology, points) {
            made.release(shelf);
            return Err(error);
        }
        self.replace(made, shelf);
        Ok(())
    }

    /// Whether this geometry with another one behind it is within the limits of elements, attributes and groups. It takes no memory.
    pub fn takes(&self, other: &Sheet, shelf: &Shelf<'_>, names: &Names) -> bool
        requires sheet { IsSheet shelf.now names.now self.now }
        requires other { IsSheet shelf.now names.now other.now }
        ensures { IsTrue result ↔ IsWithin (appended (geo_of shelf.now names.now self.now) (geo_of shelf.now names.now other.now)) }
    {
        self.counts_fit(other) && self.sets_fit(other)
    }

    // Whether there may be as many elements as both have.
    fn counts_fit(&self, other: &Sheet) -> bool
        ensures { IsTrue result ↔ CountsFit self.now other.now }
    {
        let points = self.point.count() as usize + other.point.count() as usize;
        let prims = self.prim.count() as usize + other.prim.count() as usize;
        let vertices = self.vertex.count() as usize + other.vertex.count() as usize;
        points <= MOST_POINTS && prims <= MOST_PRIMS && vertices <= MOST_VERTICES
    }

    // Whether each class may have the attributes and groups of both.
    fn sets_fit(&self, other: &Sheet) -> bool
        requires own { SetsKept self.now }
        requires other { SetsKept other.now }
        ensures { IsTrue result ↔ SetsFit self.now other.now }
    {
        self.two_fit(other, Class::Detail, Class::Prim)
            && self.two_fit(other, Class::Point, Class::Vertex)
    }

    // Whether each of two classes may.
    fn two_fit(&self, other: &Sheet, class: Class, next: Class) -> bool
        requires own { SetsKept self.now }
        requires other { SetsKept other.now }
        ensures { IsTrue result ↔ SetFits self.now other.now class × SetFits self.now other.now next }
    {
        self.set_fits(other, class) && self.set_fits(other, next)
    }

    // Whether a class may.
    fn set_fits(&self, other: &Sheet, class: Class) -> bool
        requires own { SetsKept self.now }
        requires other { SetsKept other.now }
        ensures { IsTrue result ↔ SetFits self.now other.now class }
    {
        self.table(class).sets_fit(other.table(class))
    }
}
