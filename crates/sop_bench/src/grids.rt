// Geometries in a vault: points at places of their own, and quads on them.
ghost use Rattle.std.specs.Prelude.{◌<◌, ◌≤◌, All, IfSome, IsSomeAnd};
ghost use Rattle.sop_model.specs.Limits.{most_points};
ghost use Rattle.sop_vault.specs.Keyed.{at};
ghost use Rattle.sop_bench.specs.Vaults.{HasPlaces, Leaves, Makes};

use sop_fixed::{Real, Vec3};
use sop_model::{Class, Value};
use sop_vault::{GeoKey, Vault};

/// A new key of so many points at 0 0 0; none where memory runs out or there are too many.
pub fn with_points(vault: &mut Vault<'_>, points: u32) -> Option<GeoKey>
    ensures { IfSome result (λ key. Makes vault.old.geos vault.new.geos key points) }
{
    let key = vault.empty().ok()?;
    vault.add_points(key, points).ok()?;
    Some(key)
}

/// A new key of so many points at 0 0 0 and as many quads.
pub fn with_quads(vault: &mut Vault<'_>, points: u32) -> Option<GeoKey>
    requires { points ≤ most_points }
    ensures { IfSome result (λ key. Makes vault.old.geos vault.new.geos key points) }
{
    let key = with_points(vault, points)?;
    add_quads(vault, key, points)?;
    Some(key)
}

/// A new key of so many points at places of their own and as many quads.
pub fn grid(vault: &mut Vault<'_>, points: u32) -> Option<GeoKey>
    requires { points ≤ most_points }
    ensures { IfSome result (λ key. Makes vault.old.geos vault.new.geos key points) }
{
    let key = with_quads(vault, points)?;
    place_points(vault, key, points, 0)?;
    Some(key)
}

/// Puts each point at a place of its own, another one in each round.
pub fn place_points(vault: &mut Vault<'_>, key: GeoKey, points: u32, round: u32) -> Option<()>
    requires { IsSomeAnd (at vault.old.geos key) (HasPlaces points) }
    ensures { IfSome result (λ done. Leaves vault.old.geos vault.new.geos key points) }
{
    for point in 0..points {
        place_point(vault, key, points, point, round)?;
    }
    Some(())
}

fn place_point(
    vault: &mut Vault<'_>,
    key: GeoKey,
    points: u32,
    point: u32,
    round: u32,
) -> Option<()>
    requires there { IsSomeAnd (at vault.old.geos key) (HasPlaces points) }
    requires point { point < points }
    ensures { IfSome result (λ done. Leaves vault.old.geos vault.new.geos key points) }
{
    let place = Value::Vector(place_of(point, round)?);
    vault.set(key, Class::Point, 0, point, &place).ok()
}

/// The place of a point in a round.
fn place_of(point: u32, round: u32) -> Option<Vec3> {
    Some(Vec3 {
        x: Real::of_millionths(i64::from(point)).ok()?,
        y: Real::of_millionths(i64::from(round)).ok()?,
        z: Real::of_millionths(1).ok()?,
    })
}

/// Adds a quad for each point.
fn add_quads(vault: &mut Vault<'_>, key: GeoKey, points: u32) -> Option<()>
    requires there { IsSomeAnd (at vault.old.geos key) (HasPlaces points) }
    requires few { points ≤ most_points }
    ensures { IfSome result (λ done. Leaves vault.old.geos vault.new.geos key points) }
{
    for first in 0..points {
        add_quad(vault, key, points, first)?;
    }
    Some(())
}

fn add_quad(vault: &mut Vault<'_>, key: GeoKey, points: u32, first: u32) -> Option<()>
    requires there { IsSomeAnd (at vault.old.geos key) (HasPlaces points) }
    requires few { points ≤ most_points }
    requires first { first < points }
    ensures { IfSome result (λ done. Leaves vault.old.geos vault.new.geos key points) }
{
    let corners = corners_from(points, first);
    vault.add_prim(key, true, &corners).ok()
}

/// A point and the three behind it, where the first one comes after the last.
fn corners_from(points: u32, first: u32) -> [u32; 4]
    requires few { points ≤ most_points }
    requires first { first < points }
    ensures { All (λ corner. corner < points) result }
{
    [
        first,
        (first + 1) % points,
        (first + 2) % points,
        (first + 3) % points,
    ]
}
