//! Whole columns of a geometry: taken out as pages, and put in.
ghost use Rattle.std.specs.Prelude.{◌≡◌, ◌+◌, ◌≤◌, length, map, All, IsTrue, Some, IfOk, IfErr, OnOk, OnErr, IfSome, IsSomeAnd};
ghost use Rattle.sop_model.specs.Values.{is_value_within};
ghost use Rattle.sop_model.specs.Geometry.{count_of};
ghost use Rattle.sop_model.specs.Rows.{column_of, column_held, column_cleared, HasHead, IsOfHead};
ghost use Rattle.sop_cells.specs.Shelves.{joined, IsPaged};
ghost use Rattle.sop_columns.specs.Names.{value_of, IsNumbered};
ghost use Rattle.sop_vault.specs.Keyed.{at};
ghost use Rattle.sop_vault.specs.Vaults.{Changed, IsAsBefore};

use crate::vault::{GeoKey, Vault};
use sop_model::Class;
use sop_pages::PageList;
use std::alloc::AllocError;

impl<'b> Vault<'b> {
    /// Takes the values of the attribute with the number `head`, from 0, out as pages that no geometry holds: as many cells as elements,
    /// each page but the last of 1,024 cells. Its values are defaults then. `Err` for want of memory: then only names may have come.
    pub fn take_loose(
        &mut self,
        key: GeoKey,
        class: Class,
        head: u32,
    ) -> Result<PageList, AllocError>
        requires { IsSomeAnd (at self.old.geos key) (λ g. HasHead g class head) }
        ensures values { IfOk result (λ pages. IfSome (at self.old.geos key) (λ g. map (value_of self.old.names) (joined pages) ≡ column_of g class head)) }
        ensures paged { IfOk result IsPaged }
        ensures numbered { IfOk result (λ pages. All (IsNumbered self.old.names) (joined pages)) }
        ensures ok { OnOk result (IfSome (at self.old.geos key) (λ g. Changed self.old self.new key (Some (column_cleared g class head)))) }
        ensures err { OnErr result (IsAsBefore self.old self.new) }
    {
        let Some(sheet) = self.sheets.get_mut(key.number()) else {
            unreachable!()
        };
        let taken = sheet.take_loose(class, head, &mut self.shelf, &mut self.names);
        self.shelf.each_is_counted();
        let pages = taken?;
        Ok(pages)
    }

    /// Makes the cells of these pages, each but the last of 1,024 cells, the values of the attribute with the number `head`, from 0:
    /// as many as elements, of the attribute's kind, naming texts and lists of this vault. `Err` gives the pages back for want of memory:
    /// then nothing changed.
    pub fn adopt(
        &mut self,
        key: GeoKey,
        class: Class,
        head: u32,
        pages: PageList,
    ) -> Result<(), (PageList, AllocError)>
        requires there { IsSomeAnd (at self.old.geos key) (λ g. HasHead g class head × (length (joined pages) ≡ count_of g class) × All (IsOfHead g class head) (map (value_of self.old.names) (joined pages))) }
        requires paged { IsPaged pages }
        requires numbered { All (IsNumbered self.old.names) (joined pages) }
        requires within { All (λ v. IsTrue (is_value_within v)) (map (value_of self.old.names) (joined pages)) }
        ensures ok { OnOk result (IfSome (at self.old.geos key) (λ g. Changed self.old self.new key (Some (column_held g class head (map (value_of self.old.names) (joined pages)))))) }
        ensures names { self.new.names ≡ self.old.names }
        ensures pages { OnOk result (self.new.pages ≤ self.old.pages + length pages) }
        ensures err { IfErr result (λ e. IsAsBefore self.old self.new × (e.0 ≡ pages)) }
    {
        let Some(sheet) = self.sheets.get_mut(key.number()) else {
            unreachable!()
        };
        let adopted = sheet.adopt(class, head, pages, &mut self.shelf, &self.names);
        self.shelf.each_is_counted();
        if let Err(back) = adopted {
            return Err(back);
        }
        Ok(())
    }
}
