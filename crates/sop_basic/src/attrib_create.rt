// `attribcreate`: an attribute with a value.
ghost use Rattle.std.specs.Prelude.{◌≡◌, ◌≤◌, ◌&&◌, ◌||◌, ◌==◌, not, length, Some, None, Ok, IfOk, IsTrue, if◌then◌else◌};
ghost use Rattle.sop_outside.specs.Blanks.{words_of};
ghost use Rattle.sop_model.specs.declared.geo.Geo.{Geo};
ghost use Rattle.sop_model.specs.declared.value.Kind.TheVariants as kinds;
ghost use Rattle.sop_model.specs.Names.{is_name};
ghost use Rattle.sop_model.specs.Geometry.{count_of};
ghost use Rattle.sop_model.specs.Values.{kind_of, is_value_within};
ghost use Rattle.sop_net.specs.declared.node_type.NodeType.TheVariants as type;
ghost use Rattle.sop_net.specs.NodeTable.{parms_of};
ghost use Rattle.sop_net.specs.Network.{AreValues};
ghost use Rattle.sop_net.specs.ParmValues.{are_numbers, is_number};
ghost use Rattle.sop_vault.specs.Keyed.{at, IsLive};
ghost use Rattle.sop_vault.specs.Refusals.{IsNoPosition};
ghost use Rattle.sop_basic.specs.ParmTexts.{vector_in};
ghost use Rattle.sop_basic.specs.Heads.{is_position, is_kind};
ghost use Rattle.sop_basic.specs.Making.{Prepares, Gives};
ghost use Rattle.sop_basic.specs.Outcomes.{limited};
ghost use Rattle.sop_basic.specs.Fillings.{ReadsValue};
ghost use Rattle.sop_basic.specs.AttribCreate.{kind_in, value_in, may_have, value_told, set_under, attrib_create_geo};

use crate::filling::{Filling, fill};
use crate::heads::{ensure_head, is_kind, is_position};
use crate::making::finish;
use crate::parm_texts::{class_in, vector_in};
use crate::selecting::selected;
use sop_fixed::{Vec3, read_numeral, read_whole};
use sop_model::{Class, CookStop, Fault, GeoView, Kind, Value, is_name};
use sop_net::Parms;
use sop_outside::{Text, words_of};
use sop_vault::{GeoKey, Vault};
use std::alloc::{AllocError, Global};

/// Cooks an `attribcreate` node: a new key. `BadParm` for a bad name, a value that isn't a text of the kind, and the points' `P` with
/// another kind than vector; then `BadGroup` and `NoGroup` as a pattern gives them; then `Limit` for a 65th attribute or the weight.
pub fn cook_attrib_create<'b>(
    alloc: Global,
    vault: &mut Vault<'b>,
    parms: &Parms,
    input: GeoKey,
) -> Result<GeoKey, CookStop>
    requires live { IsLive vault.old.geos input }
    requires values { AreValues (parms_of type.AttribCreate) parms.now }
    ensures { (g : Geo) → at vault.old.geos input ≡ Some g → Gives vault.old vault.new (limited (attrib_create_geo parms.now g)) result }
{
    let value = match read_value(alloc, parms) {
        Ok(value) => value,
        Err(stop) => return Err(stop),
    };
    let class = class_in(parms.text(0));
    let flags = match selected(alloc, vault, input, class, parms.text(4)) {
        Ok(flags) => flags,
        Err(stop) => return Err(stop),
    };
    let key = vault.share(input)?;
    let made = set_elements(vault, key, class, parms.text(1), &value, &flags);
    finish(vault, key, made)
}

/// The value that the parameters tell; `BadParm` where one of them doesn't fit.
fn read_value(alloc: Global, parms: &Parms) -> Result<Value, CookStop>
    requires { AreValues (parms_of type.AttribCreate) parms.now }
    ensures { ReadsValue (value_told parms.now) result }
{
    let kind = kind_in(parms.text(2));
    if !may_have(class_in(parms.text(0)), parms.text(1), kind) {
        return Err(CookStop::Fault(Fault::BadParm));
    }
    match value_in(alloc, kind, parms.text(3)) {
        Ok(Some(value)) => Ok(value),
        Ok(None) => Err(CookStop::Fault(Fault::BadParm)),
        Err(_) => Err(CookStop::Memory),
    }
}

/// The kind that a word names.
fn kind_in(text: &str) -> Kind
    ensures { result ≡ kind_in text.now }
{
    if text == "int" {
        Kind::Int
    } else if text == "vector" {
        Kind::Vector
    } else if text == "string" {
        Kind::Str
    } else {
        Kind::Real
    }
}

/// Whether a class may have an attribute of this name and kind.
fn may_have(class: Class, name: &str, kind: Kind) -> bool
    ensures { result ≡ may_have class name.now kind }
{
    is_name(name.as_bytes()) && is_free(class, name, kind)
}

fn is_free(class: Class, name: &str, kind: Kind) -> bool
    ensures { result ≡ (not (is_position class name.now) || is_kind kinds.Vector (Some kind)) }
{
    !is_position(class, name) || is_kind(Kind::Vector, kind)
}

/// The value of a kind that a text says; the default where it is empty.
fn value_in(alloc: Global, kind: Kind, text: &str) -> Result<Option<Value>, AllocError>
    ensures { IfOk result (λ value. value ≡ value_in kind text.now) }
{
    if text.is_empty() {
        return Ok(Some(kind.default_value(alloc)));
    }
    match kind {
        Kind::Int => Ok(read_whole(text.as_bytes()).ok().map(Value::Int)),
        Kind::Real => Ok(read_numeral(text.as_bytes()).ok().map(Value::Real)),
        Kind::Vector => Ok(read_vector(text).map(Value::Vector)),
        Kind::Str => Ok(Some(Value::Str(Text::from_str(alloc, text)?))),
        _ => Ok(None),
    }
}

fn read_vector(text: &str) -> Option<Vec3>
    ensures { result ≡ (if are_numbers text.now && (length (words_of text.now) == 3) then Some (vector_in text.now) else None) }
{
    if are_numbers(text.as_bytes()) && words_of(text.as_bytes()).count() == 3 {
        Some(vector_in(text))
    } else {
        None
    }
}

/// Whether each word between blanks is a numeral in range.
fn are_numbers(text: &[u8]) -> bool
    ensures { result ≡ are_numbers text.now }
{
    words_of(text).all(is_number)
}

fn is_number(text: &[u8]) -> bool
    ensures { result ≡ is_number text.now }
{
    read_numeral(text).is_ok()
}

/// Sets the value of the selected elements of a class under a name.
fn set_elements<'b>(
    vault: &mut Vault<'b>,
    key: GeoKey,
    class: Class,
    name: &str,
    value: &Value,
    selected: &[bool],
) -> Result<(), CookStop>
    requires live { IsLive vault.old.geos key }
    requires each { (g : Geo) → at vault.old.geos key ≡ Some g → length selected.now ≡ count_of g class }
    requires fits { IsTrue (may_have class name.now (kind_of value.now)) }
    requires within { IsTrue (is_value_within value.now) }
    ensures { (g : Geo) → at vault.old.geos key ≡ Some g → Prepares vault.old vault.new key (Ok (set_under class name.now value.now g selected.now)) result }
{
    if is_position(class, name) {
        return set_places(vault, key, class, name, value, selected);
    }
    set_named(vault, key, class, name, value, selected)
}

/// The same where the name is that of the points' `P`, and the value a vector.
fn set_places<'b>(
    vault: &mut Vault<'b>,
    key: GeoKey,
    class: Class,
    name: &str,
    value: &Value,
    selected: &[bool],
) -> Result<(), CookStop>
    requires live { IsLive vault.old.geos key }
    requires each { (g : Geo) → at vault.old.geos key ≡ Some g → length selected.now ≡ count_of g class }
    requires position { IsTrue (is_position class name.now) }
    requires vector { kind_of value.now ≡ kinds.Vector }
    requires within { IsTrue (is_value_within value.now) }
    ensures { (g : Geo) → at vault.old.geos key ≡ Some g → Prepares vault.old vault.new key (Ok (set_under class name.now value.now g selected.now)) result }
{
    match vault.view(key).find(class, name) {
        Some(head) => fill(vault, key, class, head, &Filling::Same(value), selected),
        None => unreachable!(),
    }
}

/// The same where the name isn't that of the points' `P`.
fn set_named<'b>(
    vault: &mut Vault<'b>,
    key: GeoKey,
    class: Class,
    name: &str,
    value: &Value,
    selected: &[bool],
) -> Result<(), CookStop>
    requires live { IsLive vault.old.geos key }
    requires each { (g : Geo) → at vault.old.geos key ≡ Some g → length selected.now ≡ count_of g class }
    requires name { IsTrue (is_name name.now) }
    requires apart { IsNoPosition class name.now }
    requires within { IsTrue (is_value_within value.now) }
    ensures { (g : Geo) → at vault.old.geos key ≡ Some g → Prepares vault.old vault.new key (Ok (set_under class name.now value.now g selected.now)) result }
{
    let head = ensure_head(vault, key, class, name, value.kind())?;
    fill(vault, key, class, head, &Filling::Same(value), selected)
}
