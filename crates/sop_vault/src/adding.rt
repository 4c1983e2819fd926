//! Primitives and vertices that come to a geometry.
ghost use Rattle.std.specs.Prelude.{◌≡◌, ◌↔◌, ◌+◌, ◌<◌, ◌≤◌, ◌&&◌, nat_lt, Bool, length, Some, IfErr, OnOk, OnErr, IfSome, IsTrue};
ghost use Rattle.std.specs.List.{list_all};
ghost use Rattle.sop_model.specs.declared.class.Class.TheVariants.{Prim, Vertex};
ghost use Rattle.sop_model.specs.Limits.{most_prims, most_vertices};
ghost use Rattle.sop_model.specs.Geometry.{count_of};
ghost use Rattle.sop_model.specs.Rows.{prim_added, vertices_added, ArePoints, ArePlaces};
ghost use Rattle.sop_sheets.specs.Sheets.{table_of};
ghost use Rattle.sop_vault.specs.Keyed.{at, IsLive};
ghost use Rattle.sop_vault.specs.Vaults.{Changed, IsAsBefore};
ghost use Rattle.sop_vault.specs.Refusals.{prim_refused, vertices_refused};

use crate::vault::{GeoKey, Vault};
use crate::vault_end::VaultEnd;
use sop_model::Class;
use sop_model::limits::{MOST_PRIMS, MOST_VERTICES};
use sop_sheets::Sheet;

impl<'b> Vault<'b> {
    /// Adds a primitive behind the others, with a vertex on each of these points in turn; all have defaults and are in no group. There
    /// may be no point: such a primitive stays until the next `keep`.
    /// `NoPoint` where the geometry lacks one of the points, else `Limit` where it would have more than 1,000,000 primitives or
    /// 4,000,000 vertices.
    pub fn add_prim(&mut self, key: GeoKey, closed: bool, points: &[u32]) -> Result<(), VaultEnd>
        requires live { IsLive self.old.geos key }
        ensures ok { OnOk result (IfSome (at self.old.geos key) (λ g. Changed self.old self.new key (Some (prim_added g closed points.now)))) }
        ensures refused { IfErr result (λ end. IfSome (at self.old.geos key) (λ g. prim_refused closed points.now g end)) }
        ensures err { OnErr result (IsAsBefore self.old self.new) }
    {
        if let Err(end) = self.try_prim(key, points) {
            return Err(end);
        }
        let _capacity = self.sheets.capacity();
        let Some(sheet) = self.sheets.get_mut(key.number()) else {
            unreachable!()
        };
        let added = sheet.add_prim(closed, points, &mut self.shelf, &mut self.names);
        self.shelf.each_is_counted();
        added?;
        Ok(())
    }

    /// Adds a vertex for each primitive and point in turn, on that point at the end of that primitive, with defaults and in no group. The
    /// time grows with all vertices of the geometry, so many are best handed over at once.
    /// `NoPoint` where the geometry lacks one of the primitives or points, else `Limit` where it would have more than 4,000,000 vertices.
    pub fn add_vertices(&mut self, key: GeoKey, adds: &[(u32, u32)]) -> Result<(), VaultEnd>
        requires live { IsLive self.old.geos key }
        ensures ok { OnOk result (IfSome (at self.old.geos key) (λ g. Changed self.old self.new key (Some (vertices_added g adds.now)))) }
        ensures refused { IfErr result (λ end. IfSome (at self.old.geos key) (λ g. vertices_refused adds.now g end)) }
        ensures err { OnErr result (IsAsBefore self.old self.new) }
    {
        if let Err(end) = self.try_vertices(key, adds) {
            return Err(end);
        }
        let _capacity = self.sheets.capacity();
        let Some(sheet) = self.sheets.get_mut(key.number()) else {
            unreachable!()
        };
        let added = sheet.add_vertices(adds, &mut self.shelf, &mut self.names);
        self.shelf.each_is_counted();
        added?;
        Ok(())
    }

    // Whether a primitive on these points may come, or why not.
    fn try_prim(&self, key: GeoKey, points: &[u32]) -> Result<(), VaultEnd>
        requires { IsLive self.now.geos key }
        ensures ok { OnOk result (IfSome (at self.now.geos key) (λ g. ArePoints g points.now × (count_of g Prim < most_prims) × (count_of g Vertex + length points.now ≤ most_vertices))) }
        ensures refused { (closed : Bool) → IfErr result (λ end. IfSome (at self.now.geos key) (λ g. prim_refused closed points.now g end)) }
    {
        let Some(sheet) = self.sheets.get(key.number()) else {
            unreachable!()
        };
        if !are_below(points, sheet.count(Class::Point)) {
            return Err(VaultEnd::NoPoint);
        }
        if !has_room(sheet, 1, points.len()) {
            return Err(VaultEnd::Limit);
        }
        Ok(())
    }

    // Whether these vertices may come, or why not.
    fn try_vertices(&self, key: GeoKey, adds: &[(u32, u32)]) -> Result<(), VaultEnd>
        requires { IsLive self.now.geos key }
        ensures ok { OnOk result (IfSome (at self.now.geos key) (λ g. ArePlaces g adds.now × (count_of g Vertex + length adds.now ≤ most_vertices))) }
        ensures refused { IfErr result (λ end. IfSome (at self.now.geos key) (λ g. vertices_refused adds.now g end)) }
    {
        let Some(sheet) = self.sheets.get(key.number()) else {
            unreachable!()
        };
        if !are_places(adds, sheet.count(Class::Prim), sheet.count(Class::Point)) {
            return Err(VaultEnd::NoPoint);
        }
        if !has_room(sheet, 0, adds.len()) {
            return Err(VaultEnd::Limit);
        }
        Ok(())
    }
}

/// Whether each of these numbers is below `count`.
fn are_below(numbers: &[u32], count: u32) -> bool
    ensures { result ≡ list_all (λ n. nat_lt n count) numbers.now }
{
    numbers.iter().all(|number| *number < count)
}

/// Whether each is the number of a primitive and of a point, of which there are so many.
fn are_places(adds: &[(u32, u32)], prims: u32, points: u32) -> bool
    ensures { result ≡ list_all (λ a. nat_lt a.0 prims && nat_lt a.1 points) adds.now }
{
    adds.iter().all(|add| add.0 < prims && add.1 < points)
}

/// Whether a geometry may have so many primitives and vertices more.
fn has_room(sheet: &Sheet, prims: usize, vertices: usize) -> bool
    requires { prims ≤ 1 }
    ensures { IsTrue result ↔ (((table_of sheet.now Prim).count + prims ≤ most_prims) × ((table_of sheet.now Vertex).count + vertices ≤ most_vertices)) }
{
    sheet.count(Class::Prim) as usize + prims <= MOST_PRIMS
        && vertices <= MOST_VERTICES
        && sheet.count(Class::Vertex) as usize + vertices <= MOST_VERTICES
}
