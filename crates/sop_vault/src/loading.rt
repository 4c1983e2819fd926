//! Geometries of rows that come into the vault.
ghost use Rattle.std.specs.Prelude.{◌≡◌, ◌↔◌, ◌≤◌, length, Some, IfOk, IfErr, OnErr, IsTrue};
ghost use Rattle.sop_model.specs.declared.class.Class.{Class};
ghost use Rattle.sop_model.specs.Limits.{most_points, most_prims, most_vertices};
ghost use Rattle.sop_model.specs.Vertices.{corners_of};
ghost use Rattle.sop_model.specs.Geometry.{heads_of, set_bounds, AreKept, IsSound, IsWithin, AreValuesWithin};
ghost use Rattle.sop_vault.specs.Refusals.{rows_refused};
ghost use Rattle.sop_vault.specs.Vaults.{Added, IsAsBefore};

use crate::vault::{GeoKey, Vault};
use crate::vault_end::VaultEnd;
use sop_model::limits::{MOST_GROUPS, MOST_HEADS, MOST_POINTS, MOST_PRIMS, MOST_VERTICES};
use sop_model::{Geo, HeadSet, PrimList};

impl<'b> Vault<'b> {
    /// A new key of a geometry of rows, whose primitives may lack vertices. `Limit` where it has more points, primitives, vertices,
    /// attributes or groups than a geometry may have.
    pub fn load_rows(&mut self, rows: &Geo) -> Result<GeoKey, VaultEnd>
        requires sound { IsSound rows.now }
        requires values { AreValuesWithin rows.now }
        ensures ok { IfOk result (λ new. Added self.old self.new new (Some rows.now)) }
        ensures refused { IfErr result (rows_refused rows.now) }
        ensures err { OnErr result (IsAsBefore self.old self.new) }
    {
        if !is_within(rows) {
            return Err(VaultEnd::Limit);
        }
        Ok(self.load(rows)?)
    }
}

/// Whether rows have no more elements, attributes and groups than a geometry may have.
fn is_within(rows: &Geo) -> bool
    ensures { IsTrue result ↔ IsWithin rows.now }
{
    are_elements_few(rows) && are_sets_few(rows)
}

fn are_elements_few(rows: &Geo) -> bool
    ensures { IsTrue result ↔ ((length rows.now.points ≤ most_points) × ((length rows.now.prims ≤ most_prims) × (length (corners_of rows.now.prims) ≤ most_vertices))) }
{
    rows.points.len() <= MOST_POINTS && are_prims_few(&rows.prims)
}

fn are_prims_few(prims: &PrimList) -> bool
    ensures { IsTrue result ↔ ((length prims.now ≤ most_prims) × (length (corners_of prims.now) ≤ most_vertices)) }
{
    prims.len() <= MOST_PRIMS && prims.vertices() <= MOST_VERTICES as u64
}

fn are_sets_few(rows: &Geo) -> bool
    ensures { IsTrue result ↔ ((class : Class) → AreKept (set_bounds (heads_of rows.now class))) }
{
    are_two_few(&rows.detail, &rows.prim) && are_two_few(&rows.point, &rows.vertex)
}

fn are_two_few(first: &HeadSet, second: &HeadSet) -> bool
    ensures { IsTrue result ↔ (AreKept (set_bounds first.now) × AreKept (set_bounds second.now)) }
{
    is_set_few(first) && is_set_few(second)
}

fn is_set_few(set: &HeadSet) -> bool
    ensures { IsTrue result ↔ AreKept (set_bounds set.now) }
{
    set.heads.len() <= MOST_HEADS && set.groups.len() <= MOST_GROUPS
}
