//! What is seen of a vault.
ghost use Rattle.std.specs.Prelude.{◌≡◌, ◌<◌, Some, IsTrue};
ghost use Rattle.sop_model.specs.declared.class.Class.TheVariants.{Point, Prim};
ghost use Rattle.sop_model.specs.declared.value.Kind.TheVariants.{Str, Vector};
ghost use Rattle.sop_model.specs.Geometry.{count_of, IsReadable};
ghost use Rattle.sop_model.specs.Rows.{kind_at, HasHead, HasElement};
ghost use Rattle.sop_vault.specs.Keyed.{IsLive};

use crate::{GeoKey, Vault};
use sop_model::{Class, GeoView, Kind, ValueRef};
use sop_sheets::GeoRef;

/// How many pages a vault has, and a number for what a geometry in it has.
#[derive(Clone, Copy, Debug, PartialEq, Eq)]
pub struct Look {
    pages: u64,
    sum: u64,
}

pub fn look_at(vault: &Vault<'_>, key: GeoKey) -> Look
    requires { IsLive vault.now.geos key }
{
    let view = vault.view(key);
    let mut sum = 0;
    for class in [Class::Detail, Class::Prim, Class::Point, Class::Vertex] {
        sum = with_class(&view, class, sum);
    }
    Look {
        pages: vault.pages(),
        sum: with_prims(&view, with_vertices(&view, sum)),
    }
}

/// Where a point is along x, and none where there is no such point.
pub fn x_of(view: &GeoRef<'_>, point: u32) -> Option<i64>
    requires { IsReadable view.now }
{
    if !has_place(view, point) {
        return None;
    }
    match view.value(Class::Point, 0, point) {
        ValueRef::Vector(place) => Some(place.x.millionths()),
        _ => None,
    }
}

/// Whether there is such a point with a place.
pub fn has_place(view: &GeoRef<'_>, point: u32) -> bool
    requires { IsReadable view.now }
    ensures { IsTrue result → HasHead view.now Point 0 × HasElement view.now Point point × (kind_at view.now Point 0 ≡ Some Vector) }
{
    if view.heads(Class::Point) == 0 || point >= view.count(Class::Point) {
        return false;
    }
    view.head_kind(Class::Point, 0) == Kind::Vector
}

/// Whether there is such a primitive with a text.
pub fn has_text(view: &GeoRef<'_>, prim: u32) -> bool
    requires { IsReadable view.now }
    ensures { IsTrue result → HasHead view.now Prim 0 × HasElement view.now Prim prim × (kind_at view.now Prim 0 ≡ Some Str) }
{
    if view.heads(Class::Prim) == 0 || prim >= view.count(Class::Prim) {
        return false;
    }
    view.head_kind(Class::Prim, 0) == Kind::Str
}

/// Whether these are the texts of the first two primitives.
pub fn are_texts(view: &GeoRef<'_>, first: &str, second: &str) -> bool
    requires { IsReadable view.now }
{
    is_text(view, 0, first) && is_text(view, 1, second)
}

fn is_text(view: &GeoRef<'_>, prim: u32, text: &str) -> bool
    requires { IsReadable view.now }
{
    if !has_text(view, prim) {
        return false;
    }
    match view.value(Class::Prim, 0, prim) {
        ValueRef::Str(found) => found == text,
        _ => false,
    }
}

fn added(sum: u64, number: u64) -> u64 {
    sum.wrapping_mul(31).wrapping_add(number)
}

fn with_class(view: &GeoRef<'_>, class: Class, sum: u64) -> u64
    requires { IsReadable view.now }
{
    let mut sum = added(sum, u64::from(view.heads(class)));
    sum = added(sum, u64::from(view.groups(class)));
    for element in 0..view.count(class) {
        sum = added(sum, value_of(view, class, element));
        sum = added(sum, u64::from(is_member(view, class, element)));
    }
    added(sum, u64::from(view.count(class)))
}

/// A number for the value of the class's first attribute.
fn value_of(view: &GeoRef<'_>, class: Class, element: u32) -> u64
    requires readable { IsReadable view.now }
    requires element { element < count_of view.now class }
{
    if view.heads(class) == 0 {
        return 0;
    }
    match view.value(class, 0, element) {
        ValueRef::Int(number) => number.get().cast_unsigned(),
        ValueRef::Vector(place) => place.x.millionths().cast_unsigned(),
        ValueRef::Str(text) => text.len() as u64,
        _ => 0,
    }
}

/// Whether an element is in the class's first group.
fn is_member(view: &GeoRef<'_>, class: Class, element: u32) -> bool
    requires readable { IsReadable view.now }
    requires element { element < count_of view.now class }
{
    view.groups(class) > 0 && view.member(class, 0, element)
}

fn with_vertices(view: &GeoRef<'_>, sum: u64) -> u64
    requires { IsReadable view.now }
{
    let mut sum = sum;
    for vertex in 0..view.count(Class::Vertex) {
        sum = added(sum, u64::from(view.point_of(vertex)));
        sum = added(sum, u64::from(view.prim_of(vertex)));
    }
    sum
}

fn with_prims(view: &GeoRef<'_>, sum: u64) -> u64
    requires { IsReadable view.now }
{
    let mut sum = sum;
    for prim in 0..view.count(Class::Prim) {
        sum = added(sum, u64::from(view.closed(prim)));
    }
    sum
}
