// `add`: points at places, and one primitive through them.
ghost use Rattle.std.specs.Prelude.{◌≡◌, ◌∷◌, ◌+◌, ◌<◌, [], List, Some, IfOk, IfSome, OnErr, length, unwrap_or};
ghost use Rattle.std.specs.Option.{option_and_then};
ghost use Rattle.sop_fixed.specs.declared.vec3.Vec3 as vector;
ghost use Rattle.sop_model.specs.declared.geo.Geo.{Geo};
ghost use Rattle.sop_model.specs.Geometry.{empty_geo};
ghost use Rattle.sop_net.specs.declared.node_type.NodeType.TheVariants as type;
ghost use Rattle.sop_net.specs.NodeTable.{parms_of};
ghost use Rattle.sop_net.specs.Network.{AreValues};
ghost use Rattle.sop_vault.specs.Keyed.{at, IsLive};
ghost use Rattle.sop_vault.specs.Vaults.{Added, IsAsBefore};
ghost use Rattle.sop_basic.specs.ParmTexts.{vectors_in};
ghost use Rattle.sop_basic.specs.Making.{Gives};
ghost use Rattle.sop_basic.specs.Outcomes.{limited};
ghost use Rattle.sop_basic.specs.Add.{with_points, with_prim, with_poly, added, add_geo};
ghost use Rattle.sop_basic.specs.Additions.{Extends};

use crate::filling::set_value;
use crate::making::{finish, stop_of};
use crate::numbers::numbers_between;
use crate::parm_texts::next_vector;
use sop_fixed::Vec3;
use sop_model::{Class, CookStop, GeoView, Value};
use sop_net::Parms;
use sop_vault::{GeoKey, Vault};
use std::alloc::{AllocError, Global};

/// Cooks an `add` node, to which an input may be wired: a new key. `Limit` for too many points, primitives or vertices, and for the weight.
pub fn cook_add<'b>(
    alloc: Global,
    vault: &mut Vault<'b>,
    parms: &Parms,
    input: Option<GeoKey>,
) -> Result<GeoKey, CookStop>
    requires live { IfSome input (λ key. IsLive vault.old.geos key) }
    requires values { AreValues (parms_of type.Add) parms.now }
    ensures { Gives vault.old vault.new (limited (add_geo parms.now (option_and_then (at vault.old.geos) input))) result }
{
    let key = begin(vault, input)?;
    let made = add_all(alloc, vault, key, parms.text(0), parms.text(1));
    finish(vault, key, made)
}

/// A new key of the input's geometry, or of the empty one where there is no input.
fn begin<'b>(vault: &mut Vault<'b>, input: Option<GeoKey>) -> Result<GeoKey, AllocError>
    requires { IfSome input (λ key. IsLive vault.old.geos key) }
    ensures ok { IfOk result (λ key. Added vault.old vault.new key (Some (unwrap_or (option_and_then (at vault.old.geos) input) empty_geo))) }
    ensures err { OnErr result (IsAsBefore vault.old vault.new) }
{
    match input {
        Some(input) => vault.share(input),
        None => vault.empty(),
    }
}

/// Adds the points of a text, and the primitive that `poly` asks for.
fn add_all<'b>(
    alloc: Global,
    vault: &mut Vault<'b>,
    key: GeoKey,
    points: &str,
    poly: &str,
) -> Result<(), CookStop>
    requires { IsLive vault.old.geos key }
    ensures { (g : Geo) → at vault.old.geos key ≡ Some g → Extends vault.old vault.new key (added g (vectors_in points.now) poly.now) result }
{
    let first = vault.view(key).count(Class::Point);
    add_places(vault, key, points)?;
    add_poly(alloc, vault, key, poly, first)
}

/// Adds a point at each place of a text.
fn add_places<'b>(vault: &mut Vault<'b>, key: GeoKey, text: &str) -> Result<(), CookStop>
    requires { IsLive vault.old.geos key }
    ensures { (g : Geo) → at vault.old.geos key ≡ Some g → Extends vault.old vault.new key (with_points g (vectors_in text.now)) result }
{
    let mut rest = text.as_bytes();
    while let Some((place, left)) = next_vector(rest) {
        add_point(vault, key, place)?;
        rest = left;
    }
    Ok(())
}

/// Adds a point at a place.
fn add_point<'b>(vault: &mut Vault<'b>, key: GeoKey, place: Vec3) -> Result<(), CookStop>
    requires { IsLive vault.old.geos key }
    ensures { (g : Geo) → at vault.old.geos key ≡ Some g → Extends vault.old vault.new key (with_points g (place ∷ [])) result }
{
    let number = vault.view(key).count(Class::Point);
    if let Err(end) = vault.add_points(key, 1) {
        return Err(stop_of(end));
    }
    set_value(vault, key, Class::Point, 0, number, &Value::Vector(place))
}

/// Adds the primitive that `poly` asks for, through the points from the number `first` on.
fn add_poly<'b>(
    alloc: Global,
    vault: &mut Vault<'b>,
    key: GeoKey,
    poly: &str,
    first: u32,
) -> Result<(), CookStop>
    requires { IsLive vault.old.geos key }
    ensures { (g : Geo) (places : List vector.Vec3) → at vault.old.geos key ≡ Some g → length g.points ≡ first + length places → Extends vault.old vault.new key (with_poly poly.now g first places) result }
{
    if poly == "open" {
        add_through(alloc, vault, key, false, first)
    } else if poly == "closed" {
        add_through(alloc, vault, key, true, first)
    } else {
        Ok(())
    }
}

/// Adds one primitive through the points from the number `first` on, where there is one of them.
fn add_through<'b>(
    alloc: Global,
    vault: &mut Vault<'b>,
    key: GeoKey,
    closed: bool,
    first: u32,
) -> Result<(), CookStop>
    requires { IsLive vault.old.geos key }
    ensures { (g : Geo) (places : List vector.Vec3) → at vault.old.geos key ≡ Some g → length g.points ≡ first + length places → Extends vault.old vault.new key (with_prim closed g first places) result }
{
    let end = vault.view(key).count(Class::Point);
    if end <= first {
        return Ok(());
    }
    let numbers = numbers_between(alloc, first, end)?;
    if let Err(end) = vault.add_prim(key, closed, numbers.as_slice()) {
        return Err(stop_of(end));
    }
    Ok(())
}
