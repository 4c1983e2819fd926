// Geometries written as listings.
ghost use Rattle.std.specs.Prelude.{◌≡◌, ◌<◌, ◌≤◌, ◌+◌, ◌++◌, IfOk, OnOk, Some, length, slice_get, take, drop, codes, flat_map};
ghost use Rattle.std.specs.Option.{option_map};
ghost use Rattle.sop_model.specs.declared.class.Class.TheVariants.{Detail, Prim, Point, Vertex};
ghost use Rattle.sop_model.specs.Geometry.{heads_of, IsReadable};
ghost use Rattle.sop_model.specs.Rows.{column_of};
ghost use Rattle.sop_model.specs.Values.{value_seen};
ghost use Rattle.sop_model.specs.Vertices.{corners_of};
ghost use Rattle.geo_text.specs.Listing.{class_word, kind_word, each_numbered, blank_number, count_line, counts_text, corner_text, closed_word, prim_line, prims_text, attr_line, value_line, attr_text, attrs_text, flags_of, member_text, group_line, groups_text, list_text};

use crate::value_text::write_value;
use itoa::Buffer;
use sop_model::{Class, GeoView, Kind, ValueRef};
use std::alloc::{AllocError, Global};

/// The listing of a geometry: the numbers of points, vertices and primitives, a line for each primitive, each attribute with the
/// value of each element, and each group with the numbers of its members. `Err` for want of memory. The time is linear in the
/// values, the vertices, the flags of members and the text.
pub fn write_list<V: GeoView>(alloc: Global, view: &V) -> Result<Vec<u8>, AllocError>
    requires { IsReadable (V.geo view.now) }
    ensures { IfOk result (λ text. text.items ≡ list_text (V.geo view.now)) }
{
    let mut text = Vec::new(alloc);
    write_counts(view, &mut text)?;
    write_prims(view, &mut text)?;
    write_all_attrs(view, &mut text)?;
    write_all_groups(view, &mut text)?;
    Ok(text)
}

/// The first three lines.
fn write_counts<V: GeoView>(view: &V, text: &mut Vec<u8>) -> Result<(), AllocError>
    requires { IsReadable (V.geo view.now) }
    ensures { OnOk result (text.new.items ≡ text.old.items ++ counts_text (V.geo view.now)) }
{
    write_count("points", view.count(Class::Point), text)?;
    write_count("vertices", view.count(Class::Vertex), text)?;
    write_count("prims", view.count(Class::Prim), text)
}

fn write_count(word: &str, count: u32, text: &mut Vec<u8>) -> Result<(), AllocError>
    ensures { OnOk result (text.new.items ≡ text.old.items ++ count_line word.now count) }
{
    text.extend_from_slice(word.as_bytes())?;
    write_number(count, text)?;
    text.extend_from_slice(b"\n")
}

/// A number behind a blank.
fn write_number(number: u32, text: &mut Vec<u8>) -> Result<(), AllocError>
    ensures { OnOk result (text.new.items ≡ text.old.items ++ blank_number number) }
{
    text.extend_from_slice(b" ")?;
    text.extend_from_slice(Buffer::new().format(number).as_bytes())
}

fn write_prims<V: GeoView>(view: &V, text: &mut Vec<u8>) -> Result<(), AllocError>
    requires { IsReadable (V.geo view.now) }
    ensures { OnOk result (text.new.items ≡ text.old.items ++ prims_text (V.geo view.now)) }
{
    for prim in 0..view.count(Class::Prim) {
        write_prim(view, prim, text)?;
    }
    Ok(())
}

fn write_prim<V: GeoView>(view: &V, prim: u32, text: &mut Vec<u8>) -> Result<(), AllocError>
    requires readable { IsReadable (V.geo view.now) }
    requires in_range { prim < length (V.geo view.now).prims }
    ensures { OnOk result (option_map (λ p. text.old.items ++ prim_line prim p) (slice_get (V.geo view.now).prims prim) ≡ Some text.new.items) }
{
    let first = view.first_vertex(prim);
    let size = view.size(prim);
    write_opening(prim, view.closed(prim), text)?;
    write_corners(view, first, size, text)?;
    text.extend_from_slice(b"\n")?;
    Ok(())
}

/// The number of a primitive, and whether it is closed.
fn write_opening(prim: u32, closed: bool, text: &mut Vec<u8>) -> Result<(), AllocError>
    ensures { OnOk result (text.new.items ≡ text.old.items ++ (codes "prim" ++ blank_number prim ++ closed_word closed)) }
{
    text.extend_from_slice(b"prim")?;
    write_number(prim, text)?;
    text.extend_from_slice(closed_word(closed).as_bytes())
}

fn closed_word(closed: bool) -> &'static str
    ensures { result.now ≡ closed_word closed }
{
    if closed { " closed" } else { " open" }
}

/// The points of `size` vertices from `first` on.
fn write_corners<V: GeoView>(
    view: &V,
    first: u32,
    size: u32,
    text: &mut Vec<u8>,
) -> Result<(), AllocError>
    requires readable { IsReadable (V.geo view.now) }
    requires in_range { first + size ≤ length (corners_of (V.geo view.now).prims) }
    ensures { OnOk result (text.new.items ≡ text.old.items ++ flat_map corner_text (take size (drop first (corners_of (V.geo view.now).prims)))) }
{
    for place in 0..size {
        write_number(view.point_of(first + place), text)?;
    }
    Ok(())
}

/// The attributes of all classes.
fn write_all_attrs<V: GeoView>(view: &V, text: &mut Vec<u8>) -> Result<(), AllocError>
    requires { IsReadable (V.geo view.now) }
    ensures { OnOk result (text.new.items ≡ text.old.items ++ (attrs_text (V.geo view.now) Detail ++ attrs_text (V.geo view.now) Prim ++ attrs_text (V.geo view.now) Point ++ attrs_text (V.geo view.now) Vertex)) }
{
    write_attrs(view, Class::Detail, text)?;
    write_attrs(view, Class::Prim, text)?;
    write_attrs(view, Class::Point, text)?;
    write_attrs(view, Class::Vertex, text)
}

fn write_attrs<V: GeoView>(view: &V, class: Class, text: &mut Vec<u8>) -> Result<(), AllocError>
    requires { IsReadable (V.geo view.now) }
    ensures { OnOk result (text.new.items ≡ text.old.items ++ attrs_text (V.geo view.now) class) }
{
    for head in 0..view.heads(class) {
        write_attr(view, class, head, text)?;
    }
    Ok(())
}

fn write_attr<V: GeoView>(
    view: &V,
    class: Class,
    head: u32,
    text: &mut Vec<u8>,
) -> Result<(), AllocError>
    requires readable { IsReadable (V.geo view.now) }
    requires in_range { head < length (heads_of (V.geo view.now) class).heads }
    ensures { OnOk result (option_map (λ h. text.old.items ++ attr_text (V.geo view.now) class head h) (slice_get (heads_of (V.geo view.now) class).heads head) ≡ Some text.new.items) }
{
    let name = view.head_name(class, head);
    write_attr_line(class, view.head_kind(class, head), name, text)?;
    write_column(view, class, head, text)?;
    Ok(())
}

fn write_attr_line(
    class: Class,
    kind: Kind,
    name: &str,
    text: &mut Vec<u8>,
) -> Result<(), AllocError>
    ensures { OnOk result (text.new.items ≡ text.old.items ++ attr_line class (record { name = name.now; kind = kind })) }
{
    text.extend_from_slice(b"attr ")?;
    text.extend_from_slice(class_word(class).as_bytes())?;
    text.extend_from_slice(b" ")?;
    text.extend_from_slice(kind_word(kind).as_bytes())?;
    text.extend_from_slice(b" ")?;
    write_line(name, text)
}

fn write_line(line: &str, text: &mut Vec<u8>) -> Result<(), AllocError>
    ensures { OnOk result (text.new.items ≡ text.old.items ++ (line.now ++ codes "\n")) }
{
    text.extend_from_slice(line.as_bytes())?;
    text.extend_from_slice(b"\n")
}

/// The value of each element, each on a line.
fn write_column<V: GeoView>(
    view: &V,
    class: Class,
    head: u32,
    text: &mut Vec<u8>,
) -> Result<(), AllocError>
    requires readable { IsReadable (V.geo view.now) }
    requires in_range { head < length (heads_of (V.geo view.now) class).heads }
    ensures { OnOk result (text.new.items ≡ text.old.items ++ flat_map value_line (column_of (V.geo view.now) class head)) }
{
    for element in 0..view.count(class) {
        write_value_line(&view.value(class, head, element), text)?;
    }
    Ok(())
}

fn write_value_line(value: &ValueRef<'_>, text: &mut Vec<u8>) -> Result<(), AllocError>
    ensures { OnOk result (text.new.items ≡ text.old.items ++ value_line (value_seen value.now)) }
{
    write_value(value, text)?;
    text.extend_from_slice(b"\n")
}

/// The groups of all classes.
fn write_all_groups<V: GeoView>(view: &V, text: &mut Vec<u8>) -> Result<(), AllocError>
    requires { IsReadable (V.geo view.now) }
    ensures { OnOk result (text.new.items ≡ text.old.items ++ (groups_text (V.geo view.now) Prim ++ groups_text (V.geo view.now) Point ++ groups_text (V.geo view.now) Vertex)) }
{
    write_groups(view, Class::Prim, text)?;
    write_groups(view, Class::Point, text)?;
    write_groups(view, Class::Vertex, text)
}

fn write_groups<V: GeoView>(view: &V, class: Class, text: &mut Vec<u8>) -> Result<(), AllocError>
    requires { IsReadable (V.geo view.now) }
    ensures { OnOk result (text.new.items ≡ text.old.items ++ groups_text (V.geo view.now) class) }
{
    for group in 0..view.groups(class) {
        write_group(view, class, group, text)?;
    }
    Ok(())
}

fn write_group<V: GeoView>(
    view: &V,
    class: Class,
    group: u32,
    text: &mut Vec<u8>,
) -> Result<(), AllocError>
    requires readable { IsReadable (V.geo view.now) }
    requires in_range { group < length (heads_of (V.geo view.now) class).groups }
    ensures { OnOk result (option_map (λ name. text.old.items ++ group_line (V.geo view.now) class group name) (slice_get (heads_of (V.geo view.now) class).groups group) ≡ Some text.new.items) }
{
    write_group_name(class, view.group_name(class, group), text)?;
    write_members(view, class, group, text)?;
    text.extend_from_slice(b"\n")?;
    Ok(())
}

fn write_group_name(class: Class, name: &str, text: &mut Vec<u8>) -> Result<(), AllocError>
    ensures { OnOk result (text.new.items ≡ text.old.items ++ (codes "group " ++ class_word class ++ codes " " ++ name.now)) }
{
    text.extend_from_slice(b"group ")?;
    text.extend_from_slice(class_word(class).as_bytes())?;
    text.extend_from_slice(b" ")?;
    text.extend_from_slice(name.as_bytes())
}

/// The number of each member of a group.
fn write_members<V: GeoView>(
    view: &V,
    class: Class,
    group: u32,
    text: &mut Vec<u8>,
) -> Result<(), AllocError>
    requires readable { IsReadable (V.geo view.now) }
    requires in_range { group < length (heads_of (V.geo view.now) class).groups }
    ensures { OnOk result (text.new.items ≡ text.old.items ++ each_numbered member_text (flags_of (V.geo view.now) class group)) }
{
    for element in 0..view.count(class) {
        write_member(element, view.member(class, group, element), text)?;
    }
    Ok(())
}

/// The number of an element, if it is a member.
fn write_member(element: u32, is_member: bool, text: &mut Vec<u8>) -> Result<(), AllocError>
    ensures { OnOk result (text.new.items ≡ text.old.items ++ member_text element is_member) }
{
    if is_member {
        return write_number(element, text);
    }
    Ok(())
}

fn class_word(class: Class) -> &'static str
    ensures { result.now ≡ class_word class }
{
    match class {
        Class::Detail => "detail",
        Class::Prim => "prim",
        Class::Point => "point",
        Class::Vertex => "vertex",
    }
}

fn kind_word(kind: Kind) -> &'static str
    ensures { result.now ≡ kind_word kind }
{
    match kind {
        Kind::Int => "int",
        Kind::Real => "float",
        Kind::Vector => "vector",
        Kind::Str => "string",
        Kind::Ints => "int[]",
        Kind::Reals => "float[]",
        Kind::Vectors => "vector[]",
        Kind::Strs => "string[]",
    }
}
