//! One geometry of a vault behind another.
ghost use Rattle.std.specs.Prelude.{◌≡◌, ◌↔◌, Some, IfErr, OnOk, OnErr, IfSome, IsTrue};
ghost use Rattle.sop_model.specs.Geometry.{IsWithin};
ghost use Rattle.sop_model.specs.Appending.{appended};
ghost use Rattle.sop_vault.specs.Keyed.{at, IsLive};
ghost use Rattle.sop_vault.specs.Vaults.{Changed, IsAsBefore};
ghost use Rattle.sop_vault.specs.Refusals.{append_refused};

use crate::vault::{GeoKey, Vault};
use crate::vault_end::VaultEnd;

impl<'b> Vault<'b> {
    /// Puts the geometry `from` behind the geometry `into`, as a merge of the two does. Whole pages are shared with both where they can
    /// be. The two keys may be one. `Limit` exactly where both together would pass a limit of elements, attributes or groups.
    pub fn append(&mut self, into: GeoKey, from: GeoKey) -> Result<(), VaultEnd>
        requires into { IsLive self.old.geos into }
        requires from { IsLive self.old.geos from }
        ensures ok { OnOk result (IfSome (at self.old.geos from) (λ b. IfSome (at self.old.geos into) (λ a. Changed self.old self.new into (Some (appended a b))))) }
        ensures refused { IfErr result (λ end. IfSome (at self.old.geos from) (λ b. IfSome (at self.old.geos into) (λ a. append_refused a b end))) }
        ensures err { OnErr result (IsAsBefore self.old self.new) }
    {
        if !self.has_room_for(into, from) {
            return Err(VaultEnd::Limit);
        }
        let Some(more) = self.sheets.get(from.number()) else {
            unreachable!()
        };
        let more = more.copy()?;
        let _capacity = self.sheets.capacity();
        let Some(sheet) = self.sheets.get_mut(into.number()) else {
            unreachable!()
        };
        let appended = sheet.append(&more, &mut self.shelf, &mut self.names);
        self.shelf.each_is_counted();
        appended?;
        Ok(())
    }

    // Whether both geometries together are within the limits.
    fn has_room_for(&self, into: GeoKey, from: GeoKey) -> bool
        requires into { IsLive self.now.geos into }
        requires from { IsLive self.now.geos from }
        ensures { IfSome (at self.now.geos from) (λ b. IfSome (at self.now.geos into) (λ a. IsTrue result ↔ IsWithin (appended a b))) }
    {
        let Some(first) = self.sheets.get(into.number()) else {
            unreachable!()
        };
        let Some(second) = self.sheets.get(from.number()) else {
            unreachable!()
        };
        first.takes(second, &self.shelf, &self.names)
    }
}
