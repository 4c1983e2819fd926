//! Elements that come in spare cells.
ghost use Rattle.std.specs.Prelude.{◌≡◌, ◌↔◌, ◌+◌, ◌≤◌, ◌++◌, replicate, IsTrue};
ghost use Rattle.sop_model.specs.Limits.{most_vertices};
ghost use Rattle.sop_model.specs.Rows.{default_row};
ghost use Rattle.sop_tables.specs.Tables.{rows, places_in, IsTable, IsHeld};
ghost use Rattle.sop_tables.specs.Changes.{HasCells};

use crate::table::Table;
use sop_cells::Shelf;
use sop_columns::Names;

impl Table {
    /// Whether each column has a cell for `more` further elements, so that `occupy` takes them. It takes no memory.
    pub fn has_room(&self, more: u32, shelf: &Shelf<'_>, names: &Names) -> bool
        requires table { IsTable shelf.now names.now self.now }
        requires held { IsHeld shelf.now (places_in self.now) }
        requires most { self.now.count + more ≤ most_vertices }
        ensures { IsTrue result ↔ HasCells shelf.now self.now (self.now.count + more) }
    {
        let total = self.count() + more;
        for column in &self.columns {
            if !column.reaches(shelf, total) {
                return false;
            }
        }
        true
    }

    /// Takes `more` further elements behind the others, with defaults and in no group, where the columns have the cells.
    /// It takes no memory and no page.
    pub fn occupy(&mut self, more: u32, shelf: &Shelf<'_>, names: &Names)
        requires table { IsTable shelf.now names.now self.old }
        requires cells { HasCells shelf.now self.old (self.old.count + more) }
        requires most { self.old.count + more ≤ most_vertices }
        ensures set { self.new.set ≡ self.old.set }
        ensures count { self.new.count ≡ self.old.count + more }
        ensures places { places_in self.new ≡ places_in self.old }
        ensures table { IsTable shelf.now names.now self.new }
        ensures rows { rows shelf.now names.now self.new ≡ rows shelf.now names.now self.old ++ replicate more (default_row self.old.set) }
    {
        self.count += more;
    }
}
