// An attribute that a node makes sure of.
ghost use Rattle.std.specs.Prelude.{◌≡◌, Some, None, IsTrue};
ghost use Rattle.sop_model.specs.declared.geo.Geo.{Geo};
ghost use Rattle.sop_model.specs.Names.{is_name};
ghost use Rattle.sop_model.specs.Rows.{head_named, attr_added};
ghost use Rattle.sop_vault.specs.Keyed.{at, IsLive};
ghost use Rattle.sop_vault.specs.Refusals.{IsNoPosition};
ghost use Rattle.sop_basic.specs.Heads.{is_kind, is_position, with_head, with_head_at};
ghost use Rattle.sop_basic.specs.Fillings.{Finds};

use crate::making::stop_of;
use sop_model::{Class, CookStop, GeoView, Kind};
use sop_vault::{GeoKey, Vault};

/// Makes sure that a class has an attribute of this name and kind, and answers its number. One of another kind is deleted, and made anew
/// last. `Limit` where the class has 64 others.
pub fn ensure_head<'b>(
    vault: &mut Vault<'b>,
    key: GeoKey,
    class: Class,
    name: &str,
    kind: Kind,
) -> Result<u32, CookStop>
    requires live { IsLive vault.old.geos key }
    requires name { IsTrue (is_name name.now) }
    requires apart { IsNoPosition class name.now }
    ensures { (g : Geo) → at vault.old.geos key ≡ Some g → Finds vault.old vault.new key class (record { name = name.now; kind = kind }) (with_head g class (record { name = name.now; kind = kind })) result }
{
    match vault.view(key).find(class, name) {
        None => add_head(vault, key, class, name, kind),
        Some(head) => keep_head(vault, key, class, name, kind, head),
    }
}

/// The attribute of this name and number, or, where it has another kind, a new one.
fn keep_head<'b>(
    vault: &mut Vault<'b>,
    key: GeoKey,
    class: Class,
    name: &str,
    kind: Kind,
    head: u32,
) -> Result<u32, CookStop>
    requires live { IsLive vault.old.geos key }
    requires name { IsTrue (is_name name.now) }
    requires apart { IsNoPosition class name.now }
    requires there { (g : Geo) → at vault.old.geos key ≡ Some g → head_named g class name.now ≡ Some head }
    ensures { (g : Geo) → at vault.old.geos key ≡ Some g → Finds vault.old vault.new key class (record { name = name.now; kind = kind }) (with_head_at g class (record { name = name.now; kind = kind }) (Some head)) result }
{
    if is_kind(kind, vault.view(key).head_kind(class, head)) {
        return Ok(head);
    }
    if let Err(end) = vault.del_attr(key, class, name) {
        return Err(stop_of(end));
    }
    add_head(vault, key, class, name, kind)
}

/// A new attribute behind the others.
fn add_head<'b>(
    vault: &mut Vault<'b>,
    key: GeoKey,
    class: Class,
    name: &str,
    kind: Kind,
) -> Result<u32, CookStop>
    requires live { IsLive vault.old.geos key }
    requires name { IsTrue (is_name name.now) }
    requires free { (g : Geo) → at vault.old.geos key ≡ Some g → head_named g class name.now ≡ None }
    ensures { (g : Geo) → at vault.old.geos key ≡ Some g → Finds vault.old vault.new key class (record { name = name.now; kind = kind }) (attr_added g class (record { name = name.now; kind = kind })) result }
{
    match vault.add_attr(key, class, name, kind) {
        Ok(number) => Ok(number),
        Err(end) => Err(stop_of(end)),
    }
}

pub fn is_kind(wanted: Kind, kind: Kind) -> bool
    ensures { result ≡ is_kind wanted (Some kind) }
{
    matches!(
        (wanted, kind),
        (Kind::Int, Kind::Int)
            | (Kind::Real, Kind::Real)
            | (Kind::Vector, Kind::Vector)
            | (Kind::Str, Kind::Str)
            | (Kind::Ints, Kind::Ints)
            | (Kind::Reals, Kind::Reals)
            | (Kind::Vectors, Kind::Vectors)
            | (Kind::Strs, Kind::Strs)
    )
}

/// Whether a name is that of the points' `P`.
pub fn is_position(class: Class, name: &str) -> bool
    ensures { result ≡ is_position class name.now }
{
    match class {
        Class::Point => name == "P",
        Class::Detail | Class::Prim | Class::Vertex => false,
    }
}
