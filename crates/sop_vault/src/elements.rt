//! Elements that come to a geometry, go from it or take another order.
ghost use Rattle.std.specs.Prelude.{◌≡◌, ◌↔◌, ◌+◌, ◌≤◌, Some, IfErr, OnOk, OnErr, IfSome, IsSomeAnd, IsTrue};
ghost use Rattle.sop_model.specs.declared.class.Class.TheVariants.{Point};
ghost use Rattle.sop_model.specs.Limits.{most_points};
ghost use Rattle.sop_model.specs.Geometry.{count_of};
ghost use Rattle.sop_model.specs.Rows.{points_added, reordered, IsOrderOf};
ghost use Rattle.sop_model.specs.Sweep.{swept, AreMarksOf};
ghost use Rattle.sop_vault.specs.Keyed.{at, IsLive};
ghost use Rattle.sop_vault.specs.Vaults.{Changed, IsAsBefore};
ghost use Rattle.sop_vault.specs.Refusals.{points_refused};
ghost use Rattle.sop_vault.specs.declared.vault_end.VaultEnd.TheVariants.{Memory};

use crate::vault::{GeoKey, Vault};
use crate::vault_end::VaultEnd;
use sop_model::Class;
use sop_model::limits::MOST_POINTS;
use sop_rows::Marks;

impl<'b> Vault<'b> {
    /// Adds `more` points behind the others, with defaults and in no group. Full pages stay shared. `Limit` where the geometry would
    /// have more than 1,000,000.
    pub fn add_points(&mut self, key: GeoKey, more: u32) -> Result<(), VaultEnd>
        requires live { IsLive self.old.geos key }
        ensures ok { OnOk result (IfSome (at self.old.geos key) (λ g. Changed self.old self.new key (Some (points_added g more)))) }
        ensures refused { IfErr result (λ end. IfSome (at self.old.geos key) (λ g. points_refused more g end)) }
        ensures err { OnErr result (IsAsBefore self.old self.new) }
    {
        if !self.has_points_left(key, more) {
            return Err(VaultEnd::Limit);
        }
        let _capacity = self.sheets.capacity();
        let Some(sheet) = self.sheets.get_mut(key.number()) else {
            unreachable!()
        };
        let added = sheet.add_points(more, &mut self.shelf, &mut self.names);
        self.shelf.each_is_counted();
        added?;
        Ok(())
    }

    /// Takes away the marked elements, and what can't stay without them; the rest keeps its order. A primitive without vertices goes, also
    /// where nothing is marked. With a primitive whose points are marked with it go those that no other vertex uses. There are as many
    /// marks as elements. `Memory` leaves all as it was, but that names may have come.
    pub fn keep(&mut self, key: GeoKey, marks: &Marks) -> Result<(), VaultEnd>
        requires marks { IsSomeAnd (at self.old.geos key) (λ g. AreMarksOf g marks.now) }
        ensures ok { OnOk result (IfSome (at self.old.geos key) (λ g. Changed self.old self.new key (Some (swept g marks.now)))) }
        ensures memory { IfErr result (λ end. end ≡ Memory) }
        ensures err { OnErr result (IsAsBefore self.old self.new) }
    {
        let _capacity = self.sheets.capacity();
        let Some(sheet) = self.sheets.get_mut(key.number()) else {
            unreachable!()
        };
        let kept = sheet.keep(marks, &mut self.shelf, &mut self.names);
        self.shelf.each_is_counted();
        Ok(kept?)
    }

    /// Puts points or primitives in another order: the new one at a place is the old one of the number that stands there in `perm`, which
    /// has each number once. Vertices go with their primitives. With the class of the detail or of vertices nothing changes. `Memory`
    /// leaves all as it was, but that names may have come.
    pub fn reorder(&mut self, key: GeoKey, class: Class, perm: &[u32]) -> Result<(), VaultEnd>
        requires order { IsSomeAnd (at self.old.geos key) (λ g. IsOrderOf (count_of g class) perm.now) }
        ensures ok { OnOk result (IfSome (at self.old.geos key) (λ g. Changed self.old self.new key (Some (reordered g class perm.now)))) }
        ensures memory { IfErr result (λ end. end ≡ Memory) }
        ensures err { OnErr result (IsAsBefore self.old self.new) }
    {
        let _capacity = self.sheets.capacity();
        let Some(sheet) = self.sheets.get_mut(key.number()) else {
            unreachable!()
        };
        let moved = sheet.reorder(class, perm, &mut self.shelf, &mut self.names);
        self.shelf.each_is_counted();
        Ok(moved?)
    }

    // Whether a geometry may have so many points more.
    fn has_points_left(&self, key: GeoKey, more: u32) -> bool
        requires { IsLive self.now.geos key }
        ensures { IfSome (at self.now.geos key) (λ g. IsTrue result ↔ count_of g Point + more ≤ most_points) }
    {
        let Some(sheet) = self.sheets.get(key.number()) else {
            unreachable!()
        };
        sheet.count(Class::Point) as usize + more as usize <= MOST_POINTS
    }
}
