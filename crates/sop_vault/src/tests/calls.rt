//! Calls of a vault, whose conditions are tested as they run. What is live stays live in each.
ghost use Rattle.std.specs.Prelude.{◌≡◌, ◌≢◌, IfOk, IsTrue, IsPermutation};
ghost use Rattle.std.specs.List.{range_with_len};
ghost use Rattle.sop_model.specs.Names.{is_name};
ghost use Rattle.sop_model.specs.Geometry.{IsReadable};
ghost use Rattle.sop_model.specs.Sweep.{AreMarksOf};
ghost use Rattle.sop_vault.specs.Keyed.{IsLive};
ghost use Rattle.sop_vault.specs.Living.{StayLive};

use super::looks::{has_place, has_text};
use crate::{GeoKey, Vault, VaultEnd};
use sop_fixed::{Real, Vec3};
use sop_model::{Class, Geo, GeoView, Kind, Value};
use sop_outside::Text;
use sop_rows::Marks;
use sop_sheets::GeoRef;
use std::alloc::{AllocError, Global};

/// A new key of so many points.
pub fn with_points(vault: &mut Vault<'_>, points: u32) -> Result<GeoKey, VaultEnd>
    ensures live { IfOk result (λ key. IsLive vault.new.geos key) }
    ensures stay { StayLive vault.old.geos vault.new.geos }
{
    let key = vault.empty()?;
    vault.add_points(key, points)?;
    Ok(key)
}

/// A new key of a point that comes as a row, so far along x.
pub fn with_row(alloc: Global, vault: &mut Vault<'_>, millionths: i64) -> Result<GeoKey, VaultEnd>
    ensures live { IfOk result (λ key. IsLive vault.new.geos key) }
    ensures stay { StayLive vault.old.geos vault.new.geos }
{
    let rows = Geo::of_points(alloc, &[along_x(millionths)?])?;
    vault.load_rows(&rows)
}

/// Another key of a geometry.
pub fn share(vault: &mut Vault<'_>, key: GeoKey) -> Result<GeoKey, VaultEnd>
    requires { IsLive vault.old.geos key }
    ensures other { IfOk result (λ new. new ≢ key) }
    ensures live { IfOk result (λ new. IsLive vault.new.geos new) }
    ensures stay { StayLive vault.old.geos vault.new.geos }
{
    let new = vault.share(key)?;
    Ok(new)
}

/// Adds points.
pub fn add_points(vault: &mut Vault<'_>, key: GeoKey, more: u32) -> Result<(), VaultEnd>
    requires { IsLive vault.old.geos key }
    ensures { StayLive vault.old.geos vault.new.geos }
{
    vault.add_points(key, more)
}

/// Adds an attribute of texts to the primitives.
pub fn add_attr(vault: &mut Vault<'_>, key: GeoKey, name: &str) -> Result<(), VaultEnd>
    requires live { IsLive vault.old.geos key }
    requires name { IsTrue (is_name name.now) }
    ensures { StayLive vault.old.geos vault.new.geos }
{
    vault.add_attr(key, Class::Prim, name, Kind::Str)?;
    Ok(())
}

/// Takes an attribute of the primitives away.
pub fn del_attr(vault: &mut Vault<'_>, key: GeoKey, name: &str) -> Result<(), VaultEnd>
    requires { IsLive vault.old.geos key }
    ensures { StayLive vault.old.geos vault.new.geos }
{
    vault.del_attr(key, Class::Prim, name)
}

/// Adds a group of points.
pub fn add_group(vault: &mut Vault<'_>, key: GeoKey, name: &str) -> Result<(), VaultEnd>
    requires live { IsLive vault.old.geos key }
    requires name { IsTrue (is_name name.now) }
    ensures { StayLive vault.old.geos vault.new.geos }
{
    vault.add_group(key, Class::Point, name)?;
    Ok(())
}

/// Puts a point into the first group of points.
pub fn set_member(vault: &mut Vault<'_>, key: GeoKey, point: u32) -> Result<(), VaultEnd>
    requires { IsLive vault.old.geos key }
    ensures { StayLive vault.old.geos vault.new.geos }
{
    if vault.view(key).groups(Class::Point) == 0 || point >= vault.view(key).count(Class::Point) {
        return Err(VaultEnd::NoPoint);
    }
    vault.set_member(key, Class::Point, 0, point, true)
}

/// Moves a point along x.
pub fn set_x(
    vault: &mut Vault<'_>,
    key: GeoKey,
    point: u32,
    millionths: i64,
) -> Result<(), VaultEnd>
    requires { IsLive vault.old.geos key }
    ensures { StayLive vault.old.geos vault.new.geos }
{
    if !has_place(&vault.view(key), point) {
        return Err(VaultEnd::NoPoint);
    }
    let place = Value::Vector(along_x(millionths)?);
    vault.set(key, Class::Point, 0, point, &place)
}

fn along_x(millionths: i64) -> Result<Vec3, VaultEnd> {
    let (Ok(x), Ok(zero)) = (Real::of_millionths(millionths), Real::of_millionths(0)) else {
        return Err(VaultEnd::Limit);
    };
    Ok(Vec3 {
        x,
        y: zero,
        z: zero,
    })
}

/// Adds a closed primitive.
pub fn add_prim(vault: &mut Vault<'_>, key: GeoKey, points: &[u32]) -> Result<(), VaultEnd>
    requires { IsLive vault.old.geos key }
    ensures { StayLive vault.old.geos vault.new.geos }
{
    vault.add_prim(key, true, points)
}

/// Adds a vertex to a primitive.
pub fn add_vertex(vault: &mut Vault<'_>, key: GeoKey, prim: u32, point: u32) -> Result<(), VaultEnd>
    requires { IsLive vault.old.geos key }
    ensures { StayLive vault.old.geos vault.new.geos }
{
    vault.add_vertices(key, &[(prim, point)])
}

/// Takes a point away.
pub fn keep_without(
    alloc: Global,
    vault: &mut Vault<'_>,
    key: GeoKey,
    point: u32,
) -> Result<(), VaultEnd>
    requires { IsLive vault.old.geos key }
    ensures { StayLive vault.old.geos vault.new.geos }
{
    let marks = mark_of(alloc, &vault.view(key), point)?;
    vault.keep(key, &marks)
}

/// A mark on a point, where there is such a point.
fn mark_of(alloc: Global, view: &GeoRef<'_>, point: u32) -> Result<Marks, AllocError>
    requires { IsReadable view.now }
    ensures { IfOk result (λ marks. AreMarksOf view.now marks) }
{
    let mut marks = Marks::for_view(alloc, view)?;
    if point < view.count(Class::Point) {
        marks.mark_point(point);
    }
    Ok(marks)
}

/// Puts the points in their order from the last to the first.
pub fn reverse(alloc: Global, vault: &mut Vault<'_>, key: GeoKey) -> Result<(), VaultEnd>
    requires { IsLive vault.old.geos key }
    ensures { StayLive vault.old.geos vault.new.geos }
{
    let order = backwards(alloc, vault.view(key).count(Class::Point))?;
    vault.reorder(key, Class::Point, &order)
}

fn backwards(alloc: Global, count: u32) -> Result<Vec<u32>, AllocError>
    ensures { IfOk result (λ order. IsPermutation (range_with_len 0 count) order.items) }
{
    let mut numbers = numbers_below(alloc, count)?;
    numbers.reverse();
    Ok(numbers)
}

fn numbers_below(alloc: Global, count: u32) -> Result<Vec<u32>, AllocError>
    ensures { IfOk result (λ numbers. numbers.items ≡ range_with_len 0 count) }
{
    let mut numbers = Vec::with_capacity(alloc, count as usize)?;
    for number in 0..count {
        numbers.push(number)?;
    }
    Ok(numbers)
}

/// Puts a geometry behind itself.
pub fn double(vault: &mut Vault<'_>, key: GeoKey) -> Result<(), VaultEnd>
    requires { IsLive vault.old.geos key }
    ensures { StayLive vault.old.geos vault.new.geos }
{
    vault.append(key, key)
}

/// A new key of two points, the first of which is moved: of three the second one went, and the other two changed places.
pub fn turned(alloc: Global, vault: &mut Vault<'_>, millionths: i64) -> Result<GeoKey, VaultEnd>
    ensures live { IfOk result (λ key. IsLive vault.new.geos key) }
    ensures stay { StayLive vault.old.geos vault.new.geos }
{
    let key = with_points(vault, 3)?;
    set_x(vault, key, 2, millionths)?;
    keep_without(alloc, vault, key, 1)?;
    reverse(alloc, vault, key)?;
    Ok(key)
}

/// The cell of a text.
pub fn cell_of(vault: &mut Vault<'_>, text: Text) -> Result<(), VaultEnd>
    ensures { StayLive vault.old.geos vault.new.geos }
{
    vault.cell(&Value::Str(text))?;
    Ok(())
}

/// Gives a primitive a text under its first attribute.
pub fn set_text(
    alloc: Global,
    vault: &mut Vault<'_>,
    key: GeoKey,
    prim: u32,
) -> Result<(), VaultEnd>
    requires { IsLive vault.old.geos key }
    ensures { StayLive vault.old.geos vault.new.geos }
{
    let text = Text::from_str(alloc, "text")?;
    if !has_text(&vault.view(key), prim) {
        return Err(VaultEnd::NoAttr);
    }
    vault.set(key, Class::Prim, 0, prim, &Value::Str(text))
}

/// A new key of the empty geometry, which is dropped again.
pub fn add_and_drop(vault: &mut Vault<'_>) -> Result<(), VaultEnd>
    ensures { StayLive vault.old.geos vault.new.geos }
{
    let key = vault.empty()?;
    vault.drop_geo(key);
    Ok(())
}

/// A new key of a point that comes as a row; it stays.
pub fn load_row(alloc: Global, vault: &mut Vault<'_>) -> Result<(), VaultEnd>
    ensures { StayLive vault.old.geos vault.new.geos }
{
    with_row(alloc, vault, 1)?;
    Ok(())
}

/// A new key of a geometry, which is dropped again.
pub fn share_and_drop(vault: &mut Vault<'_>, key: GeoKey) -> Result<(), VaultEnd>
    requires { IsLive vault.old.geos key }
    ensures { StayLive vault.old.geos vault.new.geos }
{
    let copy = vault.share(key)?;
    vault.drop_geo(copy);
    Ok(())
}
