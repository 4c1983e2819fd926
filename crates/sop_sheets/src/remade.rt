//! A geometry made beside another, class by class, and put in its place.
ghost use Rattle.std.specs.Prelude.{◌≡◌, ◌^◌, ◌≤◌, [], IfOk, OnOk, OnErr};
ghost use Rattle.sop_model.specs.declared.geo.Geo.{Geo};
ghost use Rattle.sop_model.specs.declared.class.Class.{Class};
ghost use Rattle.sop_pages.specs.Pages.{live_pages};
ghost use Rattle.sop_cells.specs.Shelves.{Shifts};
ghost use Rattle.sop_tables.specs.Tables.{IsHeld, HasRoomFor, IsNoStep};
ghost use Rattle.sop_tables.specs.Changes.{IsSource};
ghost use Rattle.sop_sheets.specs.Sheets.{table_of, places_of, sheet_room, Becomes, Stays};
ghost use Rattle.sop_sheets.specs.Remade.{change_of, places_made, sheet_of, AreChanged, IsRemade, IsRebuilt};

use crate::sheet::Sheet;
use crate::topology::Topology;
use sop_cells::Shelf;
use sop_columns::Names;
use sop_tables::{Change, Table};
use std::alloc::AllocError;
use std::mem;

/// What a new sheet has of the elements of each class of another one.
#[derive(Clone, Copy)]
pub(crate) struct Changes<'a> {
    pub(crate) detail: Change<'a>,
    pub(crate) prim: Change<'a>,
    pub(crate) point: Change<'a>,
    pub(crate) vertex: Change<'a>,
}

/// A table for each class, made beside those of a sheet.
#[derive(Drop)]
pub(crate) struct Tables {
    pub(crate) detail: Table,
    pub(crate) prim: Table,
    pub(crate) point: Table,
    pub(crate) vertex: Table,
}

impl Tables {
    /// Lets all their pages go. It takes no memory.
    pub(crate) fn release(self, shelf: &mut Shelf<'_>)
        requires held { IsHeld shelf.old (places_made self) }
        ensures shifts { Shifts shelf.old shelf.new (places_made self) [] }
        ensures pages { live_pages shelf.new.own ≤ live_pages shelf.old.own }
    {
        self.detail.release(shelf);
        self.prim.release(shelf);
        self.point.release(shelf);
        self.vertex.release(shelf);
    }
}

impl Sheet {
    /// Tables of this sheet's elements, beside it: `changes` says of which in each class, and what comes to them. This sheet stays.
    /// `Err` for want of memory: then only names may have come.
    pub(crate) fn remade(
        &self,
        changes: Changes<'_>,
        shelf: &mut Shelf<'_>,
        names: &mut Names,
    ) -> Result<Tables, AllocError>
        requires source { (class : Class) → IsSource shelf.old names.old (table_of self.now class) (change_of changes class) }
        requires room { HasRoomFor shelf.old sheet_room }
        ensures made { IfOk result (λ made. IsRemade shelf.old shelf.new names.old names.new self.now changes.entry (sheet_of made self.now.shape)) }
        ensures err { OnErr result (IsNoStep shelf.old shelf.new names.old names.new) }
    {
        let front = both(
            &self.detail,
            changes.detail,
            &self.prim,
            changes.prim,
            shelf,
            names,
        )?;
        let (detail, prim) = front;
        match both(
            &self.point,
            changes.point,
            &self.vertex,
            changes.vertex,
            shelf,
            names,
        ) {
            Ok(back) => {
                let (point, vertex) = back;
                Ok(Tables {
                    detail,
                    prim,
                    point,
                    vertex,
                })
            }
            Err(error) => {
                detail.release(shelf);
                prim.release(shelf);
                Err(error)
            }
        }
    }

    /// Puts tables that were made beside this sheet's in their place, and lets the pages of these go. It takes no memory.
    pub(crate) fn replace(&mut self, made: Tables, shelf: &mut Shelf<'_>)
        requires held { IsHeld shelf.old (places_of self.old) }
        ensures new { self.new ≡ sheet_of made self.old.shape }
        ensures shifts { Shifts shelf.old shelf.new (places_of self.old) [] }
    {
        let old = Tables {
            detail: mem::replace(&mut self.detail, made.detail),
            prim: mem::replace(&mut self.prim, made.prim),
            point: mem::replace(&mut self.point, made.point),
            vertex: mem::replace(&mut self.vertex, made.vertex),
        };
        old.release(shelf);
    }

    /// Makes the tables anew by `changes`, and puts them and another shape in the place of this sheet's. `Err` for want of memory: then
    /// only names may have come.
    pub(crate) fn rebuild(
        &mut self,
        changes: Changes<'_>,
        topology: Topology,
        shelf: &mut Shelf<'_>,
        names: &mut Names,
    ) -> Result<(), AllocError>
        requires source { (class : Class) → IsSource shelf.old names.old (table_of self.old class) (change_of changes class) }
        requires held { IsHeld shelf.old (places_of self.old) }
        requires room { HasRoomFor shelf.old sheet_room }
        ensures ok { OnOk result ((g : Geo) → IsRebuilt shelf.old names.old self.old changes.entry topology g → Becomes shelf.old shelf.new names.old names.new self.old self.new g) }
        ensures err { OnErr result (Stays shelf.old shelf.new names.old names.new self.old self.new) }
    {
        let made = self.remade(changes, shelf, names)?;
        self.replace(made, shelf);
        self.topology = topology;
        Ok(())
    }
}

/// A table of the elements of `first` and one of those of `second`, beside both. `Err` for want of memory: then only names may have come.
fn both(
    first: &Table,
    change: Change<'_>,
    second: &Table,
    other: Change<'_>,
    shelf: &mut Shelf<'_>,
    names: &mut Names,
) -> Result<(Table, Table), AllocError>
    requires first { IsSource shelf.old names.old first.now change }
    requires second { IsSource shelf.old names.old second.now other }
    requires room { HasRoomFor shelf.old (2 ^ 36) }
    ensures made { IfOk result (λ made. AreChanged shelf.old shelf.new names.old names.new first.now change.entry second.now other.entry made.0 made.1) }
    ensures err { OnErr result (IsNoStep shelf.old shelf.new names.old names.new) }
{
    let made = first.changed(change, shelf, names)?;
    match second.changed(other, shelf, names) {
        Ok(next) => Ok((made, next)),
        Err(error) => {
            made.release(shelf);
            Err(error)
        }
    }
}
