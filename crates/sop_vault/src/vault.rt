//! The vault: keys, shares of geometries, and views.
ghost use Rattle.std.specs.Prelude.{◌≡◌, ℕ, ◌+◌, ◌≤◌, [], Some, None, IfOk, IfErr, OnOk, OnErr, IfSome, IsSomeAnd, IsTrue};
ghost use Rattle.sop_model.specs.Geometry.{empty_geo, IsReadable, AreValuesWithin};
ghost use Rattle.sop_model.specs.Values.{is_value_within};
ghost use Rattle.sop_columns.specs.Names.{value_of, IsNumbered, IsThere};
ghost use Rattle.sop_model.specs.Rows.{value_set, member_set, HasHead, HasGroup, HasElement, IsOfHead};
ghost use Rattle.sop_vault.specs.declared.vault_end.VaultEnd.TheVariants.{Memory};
ghost use Rattle.sop_vault.specs.Keyed.{at, IsLive};
ghost use Rattle.sop_model.specs.declared.class.Class.{Class};
ghost use Rattle.sop_vault.specs.Vaults.{share_at, Changed, Added, IsAsBefore, IsVault};

use crate::vault_end::VaultEnd;
use slab::Slab;
use sop_cells::Shelf;
use sop_columns::Names;
use sop_model::{Class, GeoView, Value};
use sop_pages::Cell;
use sop_sheets::{GeoRef, Sheet};
use std::alloc::{AllocError, Global};
use std::marker::Model;

/// Names a geometry in its vault.
#[derive(Clone, Copy, Debug, PartialEq, Eq)]
pub struct GeoKey {
    key: usize,
}

impl Model for GeoKey {
    ghost use Rattle.std.specs.Prelude.{ℕ};

    ghost Value = { ℕ };

    ghost view = { λ p. p.key };

    ghost inverse = { λ n. record { key = n } };
}

impl GeoKey {
    // Its place in the vault.
    pub(crate) fn number(self) -> usize
        ensures { result ≡ self }
    {
        self.key
    }
}

/// Geometries by key.
#[derive(Drop)]
pub struct Vault<'b> {
    pub(crate) shelf: Shelf<'b>,
    pub(crate) names: Names,
    pub(crate) sheets: Slab<Sheet>,
    pub(crate) alloc: Global,
}

impl<'b> Model for Vault<'b> {
    ghost use Rattle.sop_vault.specs.Vaults.{VaultMap, vault_of, Counted};

    ghost Value = { VaultMap };

    ghost view = { λ v. vault_of v.shelf v.names v.sheets.slots };

    ghost invariant = { λ v. Counted v.shelf v.names v.sheets.slots };
}

impl<'b> Vault<'b> {
    /// A vault without geometries. It takes memory from `alloc` when it grows.
    pub fn new(alloc: Global) -> Vault<'b>
        ensures geos { result.geos ≡ [] }
        ensures texts { result.names.texts ≡ [] }
        ensures lists { result.names.lists ≡ [] }
        ensures pages { result.pages ≡ 0 }
    {
        let shelf = Shelf::new(alloc);
        shelf.each_is_counted();
        Vault {
            shelf,
            names: Names::new(alloc),
            sheets: Slab::new(alloc),
            alloc,
        }
    }

    /// A new key of the empty geometry: no element but the detail, and the point attribute `P` alone. `Err` for want of memory: then only
    /// names may have come.
    pub fn empty(&mut self) -> Result<GeoKey, AllocError>
        ensures ok { IfOk result (λ new. Added self.old self.new new (Some empty_geo)) }
        ensures err { OnErr result (IsAsBefore self.old self.new) }
    {
        self.sheets.reserve(1)?;
        let made = Sheet::empty(self.alloc, &mut self.shelf, &mut self.names);
        self.shelf.each_is_counted();
        let key = self.sheets.insert_reserved(made?);
        Ok(GeoKey { key })
    }

    /// A new key of a geometry that is read. It is read column by column, so that its rows are never made. `Err` for want of memory: then
    /// only names may have come.
    pub fn load<V: GeoView>(&mut self, view: &V) -> Result<GeoKey, AllocError>
        requires readable { IsReadable (V.geo view.now) }
        requires values { AreValuesWithin (V.geo view.now) }
        ensures ok { IfOk result (λ new. Added self.old self.new new (Some (V.geo view.now))) }
        ensures err { OnErr result (IsAsBefore self.old self.new) }
    {
        self.sheets.reserve(1)?;
        let made = Sheet::of_view(self.alloc, view, &mut self.shelf, &mut self.names);
        self.shelf.each_is_counted();
        let key = self.sheets.insert_reserved(made?);
        Ok(GeoKey { key })
    }

    /// The cell that stands for a value in this vault's pages. A text or a list that is there already keeps its number, and another one
    /// gets the next. No geometry changes. `Err` for want of memory: then only names may have come.
    pub fn cell(&mut self, value: &Value) -> Result<Cell, AllocError>
        ensures value { IfOk result (λ cell. value_of self.new.names cell ≡ value.now) }
        ensures numbered { IfOk result (λ cell. IsNumbered self.new.names cell) }
        ensures known { IsThere self.old.names value.now → self.new.names ≡ self.old.names }
        ensures kept { IsAsBefore self.old self.new }
    {
        self.shelf.each_is_counted();
        self.names.cell(value)
    }

    /// A new key of the same geometry. No page is copied. `Err` for want of memory: then nothing changed.
    pub fn share(&mut self, key: GeoKey) -> Result<GeoKey, AllocError>
        requires { IsLive self.old.geos key }
        ensures ok { IfOk result (λ new. Added self.old self.new new (at self.old.geos key)) }
        ensures pages { self.new.pages ≡ self.old.pages }
        ensures names { self.new.names ≡ self.old.names }
        ensures err { OnErr result (IsAsBefore self.old self.new) }
    {
        self.sheets.reserve(1)?;
        let Some(sheet) = self.sheets.get(key.key) else {
            unreachable!()
        };
        let sheet = sheet.copy()?;
        let _capacity = self.sheets.capacity();
        sheet.hold(&mut self.shelf);
        self.shelf.each_is_counted();
        let key = self.sheets.insert_reserved(sheet);
        Ok(GeoKey { key })
    }

    /// The key goes, and the pages that no other geometry holds. It takes no memory.
    pub fn drop_geo(&mut self, key: GeoKey)
        requires { IsLive self.old.geos key }
        ensures gone { Changed self.old self.new key None }
        ensures pages { self.new.pages ≤ self.old.pages }
        ensures names { self.new.names ≡ self.old.names }
    {
        let sheet = self.sheets.remove(key.key);
        sheet.release(&mut self.shelf);
        self.shelf.each_is_counted();
    }

    /// The geometry, to be read: it is well made, but that primitives may lack vertices, and within the limits. It takes no memory.
    pub fn view(&self, key: GeoKey) -> GeoRef<'_>
        requires { IsLive self.now.geos key }
        ensures geo { at self.now.geos key ≡ Some result }
        ensures readable { IsReadable result }
        ensures values { AreValuesWithin result }
    {
        let Some(sheet) = self.sheets.get(key.key) else {
            unreachable!()
        };
        GeoRef::new(sheet, &self.shelf, &self.names)
    }

    /// How many pages there are. A page counts once, however many geometries hold it.
    pub fn pages(&self) -> u64
        ensures { result ≡ self.now.pages }
    {
        self.shelf.pages()
    }

    /// A law: this is what some vault stands for. So its pages are those that its geometries hold, by the lemma `same_pages` on two vaults.
    /// The call does nothing.
    pub fn is_vault(&self)
        ensures { IsVault self.now }
    {
        let _ = &self.shelf;
    }

    /// Makes `value` the value of an element under the attribute with the number `head`, both from 0. `Memory` leaves all as it was, but
    /// that names may have come. A page comes only where the column gives up one that others hold too, so that the pages and these
    /// places of the column, added up, don't rise.
    pub fn set(
        &mut self,
        key: GeoKey,
        class: Class,
        head: u32,
        element: u32,
        value: &Value,
    ) -> Result<(), VaultEnd>
        requires there { IsSomeAnd (at self.old.geos key) (λ g. HasHead g class head × HasElement g class element × IsOfHead g class head value.now) }
        requires within { IsTrue (is_value_within value.now) }
        ensures ok { OnOk result (IfSome (at self.old.geos key) (λ g. Changed self.old self.new key (Some (value_set g class head element value.now)))) }
        ensures pages { self.new.pages ≤ self.old.pages + 1 }
        ensures spare { self.new.pages + share_at self.new.shares key class head ≤ self.old.pages + share_at self.old.shares key class head }
        ensures falls { (c : Class) (h : ℕ) → share_at self.new.shares key c h ≤ share_at self.old.shares key c h }
        ensures memory { IfErr result (λ end. end ≡ Memory) }
        ensures err { OnErr result (IsAsBefore self.old self.new) }
    {
        let Some(sheet) = self.sheets.get_mut(key.key) else {
            unreachable!()
        };
        let set = sheet.set_value(
            class,
            head,
            element,
            value,
            &mut self.shelf,
            &mut self.names,
        );
        self.shelf.each_is_counted();
        Ok(set?)
    }

    /// Puts an element into the group with the number `group`, or takes it out of it, both numbers from 0. `Memory` leaves all as it was.
    pub fn set_member(
        &mut self,
        key: GeoKey,
        class: Class,
        group: u32,
        element: u32,
        on: bool,
    ) -> Result<(), VaultEnd>
        requires { IsSomeAnd (at self.old.geos key) (λ g. HasGroup g class group × HasElement g class element) }
        ensures ok { OnOk result (IfSome (at self.old.geos key) (λ g. Changed self.old self.new key (Some (member_set g class group element on)))) }
        ensures pages { self.new.pages ≤ self.old.pages + 1 }
        ensures memory { IfErr result (λ end. end ≡ Memory) }
        ensures err { OnErr result (IsAsBefore self.old self.new) }
    {
        let Some(sheet) = self.sheets.get_mut(key.key) else {
            unreachable!()
        };
        let set = sheet.set_member(class, group, element, on, &mut self.shelf, &self.names);
        self.shelf.each_is_counted();
        Ok(set?)
    }
}
