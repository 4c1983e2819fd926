//! Attributes and groups that come to a geometry, and attributes that go.
ghost use Rattle.std.specs.Prelude.{◌≡◌, ◌<◌, ◌≤◌, None, Some, length, IfOk, IfErr, OnOk, OnErr, IfSome, IsSomeAnd, IsTrue};
ghost use Rattle.sop_model.specs.Names.{is_name};
ghost use Rattle.sop_model.specs.declared.value.Kind.{Kind};
ghost use Rattle.sop_model.specs.Limits.{most_heads, most_groups};
ghost use Rattle.sop_model.specs.Geometry.{heads_of};
ghost use Rattle.sop_model.specs.Rows.{head_named, group_named, attr_added, attr_deleted, group_added, HasGroups};
ghost use Rattle.sop_vault.specs.Keyed.{at, IsLive};
ghost use Rattle.sop_vault.specs.Vaults.{Changed, IsAsBefore};
ghost use Rattle.sop_vault.specs.Refusals.{attr_refused, gone_refused, group_refused, IsNoPosition};

use crate::vault::{GeoKey, Vault};
use crate::vault_end::VaultEnd;
use sop_model::limits::{MOST_GROUPS, MOST_HEADS};
use sop_model::{Class, Head, Kind};
use sop_outside::Text;

impl<'b> Vault<'b> {
    /// Adds an attribute behind the others of its class, with its default everywhere, and answers its number. `Exists` where the class
    /// has an attribute of this name, `Limit` where it has 64 already.
    pub fn add_attr(
        &mut self,
        key: GeoKey,
        class: Class,
        name: &str,
        kind: Kind,
    ) -> Result<u32, VaultEnd>
        requires live { IsLive self.old.geos key }
        requires name { IsTrue (is_name name.now) }
        ensures ok { OnOk result (IfSome (at self.old.geos key) (λ g. Changed self.old self.new key (Some (attr_added g class (record { name = name.now; kind = kind }))))) }
        ensures number { IfOk result (λ number. IfSome (at self.old.geos key) (λ g. number ≡ length (heads_of g class).heads)) }
        ensures refused { IfErr result (λ end. IfSome (at self.old.geos key) (λ g. attr_refused class (record { name = name.now; kind = kind }) g end)) }
        ensures err { OnErr result (IsAsBefore self.old self.new) }
    {
        let number = match self.attr_number(key, class, name) {
            Ok(number) => number,
            Err(end) => return Err(end),
        };
        let name = Text::from_str(self.alloc, name)?;
        let Some(sheet) = self.sheets.get_mut(key.number()) else {
            unreachable!()
        };
        let added = sheet.add_attr(class, Head { name, kind }, &mut self.shelf, &mut self.names);
        self.shelf.each_is_counted();
        added?;
        Ok(number)
    }

    /// Takes an attribute away, with its values. It must not be the points' `P`. `NoAttr` where the class has none of this name.
    pub fn del_attr(&mut self, key: GeoKey, class: Class, name: &str) -> Result<(), VaultEnd>
        requires live { IsLive self.old.geos key }
        requires apart { IsNoPosition class name.now }
        ensures ok { OnOk result (IfSome (at self.old.geos key) (λ g. IsSomeAnd (head_named g class name.now) (λ head. Changed self.old self.new key (Some (attr_deleted g class head))))) }
        ensures pages { self.new.pages ≤ self.old.pages }
        ensures refused { IfErr result (λ end. IfSome (at self.old.geos key) (λ g. gone_refused class name.now g end)) }
        ensures err { OnErr result (IsAsBefore self.old self.new) }
    {
        let Some(head) = self.attr_named(key, class, name) else {
            return Err(VaultEnd::NoAttr);
        };
        let Some(sheet) = self.sheets.get_mut(key.number()) else {
            unreachable!()
        };
        sheet.del_attr(class, head, &mut self.shelf, &self.names);
        self.shelf.each_is_counted();
        Ok(())
    }

    /// Adds a group without members behind the others of its class, which isn't the detail, and answers its number. `Exists` where the
    /// class has a group of this name, `Limit` where it has 256 already.
    pub fn add_group(&mut self, key: GeoKey, class: Class, name: &str) -> Result<u32, VaultEnd>
        requires live { IsLive self.old.geos key }
        requires name { IsTrue (is_name name.now) }
        requires class { HasGroups class }
        ensures ok { OnOk result (IfSome (at self.old.geos key) (λ g. Changed self.old self.new key (Some (group_added g class name.now)))) }
        ensures number { IfOk result (λ number. IfSome (at self.old.geos key) (λ g. number ≡ length (heads_of g class).groups)) }
        ensures pages { self.new.pages ≡ self.old.pages }
        ensures refused { IfErr result (λ end. IfSome (at self.old.geos key) (λ g. group_refused class name.now g end)) }
        ensures err { OnErr result (IsAsBefore self.old self.new) }
    {
        let number = match self.group_number(key, class, name) {
            Ok(number) => number,
            Err(end) => return Err(end),
        };
        let name = Text::from_str(self.alloc, name)?;
        let Some(sheet) = self.sheets.get_mut(key.number()) else {
            unreachable!()
        };
        let added = sheet.add_group(class, name, &self.shelf, &self.names);
        self.shelf.each_is_counted();
        added?;
        Ok(number)
    }

    // The number of the attribute of this name.
    fn attr_named(&self, key: GeoKey, class: Class, name: &str) -> Option<u32>
        requires { IsLive self.now.geos key }
        ensures { IfSome (at self.now.geos key) (λ g. result ≡ head_named g class name.now) }
    {
        let Some(sheet) = self.sheets.get(key.number()) else {
            unreachable!()
        };
        sheet.find(class, name)
    }

    // The number that an attribute of a new name gets, or why it gets none.
    fn attr_number(&self, key: GeoKey, class: Class, name: &str) -> Result<u32, VaultEnd>
        requires { IsLive self.now.geos key }
        ensures ok { IfOk result (λ number. IfSome (at self.now.geos key) (λ g. (head_named g class name.now ≡ None) × (number ≡ length (heads_of g class).heads) × (number < most_heads))) }
        ensures refused { IfErr result (λ end. IfSome (at self.now.geos key) (λ g. (kind : Kind) → attr_refused class (record { name = name.now; kind = kind }) g end)) }
    {
        let Some(sheet) = self.sheets.get(key.number()) else {
            unreachable!()
        };
        if sheet.find(class, name).is_some() {
            return Err(VaultEnd::Exists);
        }
        let number = sheet.heads(class);
        if number >= MOST_HEADS {
            return Err(VaultEnd::Limit);
        }
        Ok(number as u32)
    }

    // The number that a group of a new name gets, or why it gets none.
    fn group_number(&self, key: GeoKey, class: Class, name: &str) -> Result<u32, VaultEnd>
        requires { IsLive self.now.geos key }
        ensures ok { IfOk result (λ number. IfSome (at self.now.geos key) (λ g. (group_named g class name.now ≡ None) × (number ≡ length (heads_of g class).groups) × (number < most_groups))) }
        ensures refused { IfErr result (λ end. IfSome (at self.now.geos key) (λ g. group_refused class name.now g end)) }
    {
        let Some(sheet) = self.sheets.get(key.number()) else {
            unreachable!()
        };
        if sheet.find_group(class, name).is_some() {
            return Err(VaultEnd::Exists);
        }
        let number = sheet.groups(class);
        if number >= MOST_GROUPS {
            return Err(VaultEnd::Limit);
        }
        Ok(number as u32)
    }
}
