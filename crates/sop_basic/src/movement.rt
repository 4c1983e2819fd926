// Points moved one after the other.
ghost use Rattle.std.specs.Prelude.{◌≡◌, ◌<◌, ◌≤◌, ℕ, Some, Ok, length, slice_get, IsTrue};
ghost use Rattle.sop_model.specs.declared.geo.Geo.{Geo};
ghost use Rattle.sop_model.specs.Limits.{most_points};
ghost use Rattle.sop_model.specs.declared.class.Class.TheVariants as class;
ghost use Rattle.sop_model.specs.declared.value.Value.TheVariants as value;
ghost use Rattle.sop_model.specs.Geometry.{empty_geo};
ghost use Rattle.sop_model.specs.Places.{places_of};
ghost use Rattle.sop_model.specs.Rows.{value_set};
ghost use Rattle.sop_vault.specs.Keyed.{at, IsLive};
ghost use Rattle.sop_basic.specs.Making.{Makes};
ghost use Rattle.sop_basic.specs.Movements.{Rule, point_moved, points_moved, points_made};

use crate::filling::set_value;
use crate::making::add_points;
use sop_fixed::{NumFault, Vec3};
use sop_model::{Class, CookStop, Fault, GeoView, Value, place_of};
use sop_vault::{GeoKey, Vault};

/// Where points go, by number and place.
pub trait Movement {
    ghost rule: { Self → Rule };

    /// Whether it is told where the point of a number goes.
    ghost tells: { Self → ℕ → Type 0 };

    /// Where the point of a number goes from its place, or that its arithmetic has no result. It takes no memory.
    fn target(&self, point: u32, place: &Vec3) -> Result<Vec3, NumFault>
        requires { tells self.now point }
        ensures { result ≡ rule self.now point place.now };
}

/// Moves each point. `Range` names the first whose arithmetic has no result.
pub fn move_points<'b, M: Movement>(
    vault: &mut Vault<'b>,
    key: GeoKey,
    movement: &M,
) -> Result<(), CookStop>
    requires live { IsLive vault.old.geos key }
    requires told { (g : Geo) → at vault.old.geos key ≡ Some g → (i : ℕ) → i < length g.points → M.tells movement.now i }
    ensures { (g : Geo) → at vault.old.geos key ≡ Some g → Makes vault.old vault.new key (points_moved (M.rule movement.now) g) result }
{
    let points = vault.view(key).count(Class::Point);
    for point in 0..points {
        move_point(vault, key, movement, point)?;
    }
    Ok(())
}

/// Moves one point.
fn move_point<'b, M: Movement>(
    vault: &mut Vault<'b>,
    key: GeoKey,
    movement: &M,
    point: u32,
) -> Result<(), CookStop>
    requires live { IsLive vault.old.geos key }
    requires there { (g : Geo) → at vault.old.geos key ≡ Some g → point < length g.points }
    requires told { M.tells movement.now point }
    ensures { (g : Geo) → at vault.old.geos key ≡ Some g → Makes vault.old vault.new key (point_moved (M.rule movement.now) g point) result }
{
    let place = place_of(&vault.view(key), point);
    match movement.target(point, &place) {
        Ok(target) => put_point(vault, key, point, &place, &target),
        Err(_fault) => Err(CookStop::Fault(Fault::Range(point))),
    }
}

/// Puts a point from a place to another. Where both are one nothing is written, so that its page stays shared.
fn put_point<'b>(
    vault: &mut Vault<'b>,
    key: GeoKey,
    point: u32,
    from: &Vec3,
    to: &Vec3,
) -> Result<(), CookStop>
    requires live { IsLive vault.old.geos key }
    requires there { (g : Geo) → at vault.old.geos key ≡ Some g → point < length g.points }
    requires from { (g : Geo) → at vault.old.geos key ≡ Some g → slice_get (places_of g) point ≡ Some from.now }
    ensures { (g : Geo) → at vault.old.geos key ≡ Some g → Makes vault.old vault.new key (Ok (value_set g class.Point 0 point (value.Vector to.now))) result }
{
    vault.is_vault();
    if is_one(from, to) {
        return Ok(());
    }
    set_value(vault, key, Class::Point, 0, point, &Value::Vector(*to))
}

/// Whether two places are one.
fn is_one(a: &Vec3, b: &Vec3) -> bool
    ensures { IsTrue result → a.now ≡ b.now }
{
    *a == *b
}

/// Makes so many points, at most 1,000,000, where the movement takes them from the middle. `Range` names the first whose arithmetic has
/// no result.
pub fn make_points<'b, M: Movement>(
    vault: &mut Vault<'b>,
    key: GeoKey,
    count: u32,
    movement: &M,
) -> Result<(), CookStop>
    requires fresh { at vault.old.geos key ≡ Some empty_geo }
    requires few { count ≤ most_points }
    requires told { (i : ℕ) → i < count → M.tells movement.now i }
    ensures { Makes vault.old vault.new key (points_made (M.rule movement.now) count) result }
{
    add_points(vault, key, count)?;
    move_points(vault, key, movement)
}
