//! Geometries written as OBJ texts.
ghost use Rattle.std.specs.Prelude.{◌≡◌, ◌<◌, ◌≤◌, ◌+◌, ◌++◌, ◌&&◌, [], Ok, Option, Some, None, IfOk, OnOk, IfSome, length, take, drop, codes, decimal, if◌then◌else◌, slice_index_or, is_some, not, false, true};
ghost use Rattle.std.specs.List.{flat_map, items_where_true};
ghost use Rattle.sop_fixed.specs.Numerals.{decimal_of};
ghost use Rattle.sop_model.specs.Geometry.{IsReadable, IsGood, Fits, heads_of, rows_of, count_of, empty_row};
ghost use Rattle.sop_model.specs.Vertices.{corners_of, first_vertex_in, size_of};
ghost use Rattle.sop_model.specs.Rows.{no_prim};
ghost use Rattle.geo_text.specs.ObjMeaning.{meaning};
ghost use Rattle.geo_text.specs.Carried.{carried};
ghost use Rattle.geo_text.specs.ObjRange.{IsRealVector, IsRealUnder, AreRealUnder, AreReal};
ghost use Rattle.geo_text.specs.ObjText as written;
ghost use Rattle.geo_text.specs.ObjFlags.{flags_before, name_if};
ghost use Rattle.geo_text.specs.ObjText.{text_of, spaced_vector, vector_under, colour_text, point_line, vector_lines, points_text, parts_text, references_text, closed_parts, shape_line, same_flags, groups_line, groups_of, change_of_groups, shapes_text, no_flags};

use crate::zero::zero_vector;
use itoa::Buffer;
use sop_fixed::{Real, Vec3, print};
use sop_model::{Class, GeoView, Kind, ValueRef};
use std::alloc::{AllocError, Global};

/// The number of the attribute of a name, where it is a vector.
fn vector_head<V: GeoView>(view: &V, class: Class, name: &str) -> Option<u32>
    requires { IsReadable (V.geo view.now) }
    ensures value { result ≡ written.vector_head (heads_of (V.geo view.now) class) name.now }
    ensures within { IfSome result (λ head. head < length (heads_of (V.geo view.now) class).heads) }
{
    let head = view.find(class, name)?;
    if view.head_kind(class, head) == Kind::Vector {
        Some(head)
    } else {
        None
    }
}

/// The vector of an attribute at an element, and zero where it is none.
fn vector_at<V: GeoView>(view: &V, class: Class, head: u32, element: u32) -> Vec3
    requires readable { IsReadable (V.geo view.now) }
    requires head { head < length (heads_of (V.geo view.now) class).heads }
    requires element { element < count_of (V.geo view.now) class }
    ensures value { result ≡ vector_under head (slice_index_or (rows_of (V.geo view.now) class) element empty_row) }
    ensures real { IsRealVector (vector_under head (slice_index_or (rows_of (V.geo view.now) class) element empty_row)) }
{
    match view.value(class, head, element) {
        ValueRef::Vector(vector) => vector,
        _ => zero_vector(),
    }
}

/// A space and a number. Zero, which many are, is written at once.
fn write_real(number: Real, text: &mut Vec<u8>) -> Result<(), AllocError>
    ensures { OnOk result (text.new.items ≡ text.old.items ++ (codes " " ++ decimal_of number)) }
{
    if number.millionths().unsigned_abs() == 0 {
        return text.extend_from_slice(b" 0");
    }
    text.extend_from_slice(b" ")?;
    print(number, text)
}

fn write_vector(vector: Vec3, text: &mut Vec<u8>) -> Result<(), AllocError>
    ensures { OnOk result (text.new.items ≡ text.old.items ++ spaced_vector vector) }
{
    write_real(vector.x, text)?;
    write_real(vector.y, text)?;
    write_real(vector.z, text)
}

fn write_colour<V: GeoView>(
    view: &V,
    point: u32,
    colour: Option<u32>,
    text: &mut Vec<u8>,
) -> Result<(), AllocError>
    requires readable { IsReadable (V.geo view.now) }
    requires head { IfSome colour (λ head. head < length (V.geo view.now).point.heads) }
    requires point { point < length (V.geo view.now).points }
    ensures written { OnOk result (text.new.items ≡ text.old.items ++ colour_text colour (slice_index_or (V.geo view.now).points point empty_row)) }
    ensures real { OnOk result (IsRealUnder colour (slice_index_or (V.geo view.now).points point empty_row)) }
{
    match colour {
        Some(head) => write_vector(vector_at(view, Class::Point, head, point), text),
        None => Ok(()),
    }
}

fn write_point<V: GeoView>(
    view: &V,
    point: u32,
    colour: Option<u32>,
    text: &mut Vec<u8>,
) -> Result<(), AllocError>
    requires readable { IsReadable (V.geo view.now) }
    requires head { IfSome colour (λ head. head < length (V.geo view.now).point.heads) }
    requires point { point < length (V.geo view.now).points }
    ensures written { OnOk result (text.new.items ≡ text.old.items ++ point_line colour (slice_index_or (V.geo view.now).points point empty_row)) }
    ensures place { OnOk result (IsRealUnder (Some 0) (slice_index_or (V.geo view.now).points point empty_row)) }
    ensures colour { OnOk result (IsRealUnder colour (slice_index_or (V.geo view.now).points point empty_row)) }
{
    text.extend_from_slice(b"v")?;
    write_vector(vector_at(view, Class::Point, 0, point), text)?;
    write_colour(view, point, colour, text)?;
    text.extend_from_slice(b"\n")?;
    Ok(())
}

fn write_points<V: GeoView>(view: &V, text: &mut Vec<u8>) -> Result<(), AllocError>
    requires { IsReadable (V.geo view.now) }
    ensures written { OnOk result (text.new.items ≡ text.old.items ++ points_text (V.geo view.now)) }
    ensures places { OnOk result (AreRealUnder (Some 0) (V.geo view.now).points) }
    ensures colours { OnOk result (AreRealUnder (written.vector_head (V.geo view.now).point (codes "Cd")) (V.geo view.now).points) }
{
    let colour = vector_head(view, Class::Point, "Cd");
    for point in 0..view.count(Class::Point) {
        write_point(view, point, colour, text)?;
    }
    Ok(())
}

/// A line with the vector of an attribute for each vertex, where there is the attribute.
fn write_vectors<V: GeoView>(
    view: &V,
    keyword: &[u8],
    head: Option<u32>,
    text: &mut Vec<u8>,
) -> Result<(), AllocError>
    requires readable { IsReadable (V.geo view.now) }
    requires head { IfSome head (λ head. head < length (V.geo view.now).vertex.heads) }
    ensures written { OnOk result (text.new.items ≡ text.old.items ++ vector_lines keyword.now head (rows_of (V.geo view.now) Class.Vertex)) }
    ensures real { OnOk result (AreRealUnder head (rows_of (V.geo view.now) Class.Vertex)) }
{
    let Some(head) = head else {
        return Ok(());
    };
    for vertex in 0..view.count(Class::Vertex) {
        text.extend_from_slice(keyword)?;
        write_vector(vector_at(view, Class::Vertex, head, vertex), text)?;
        text.extend_from_slice(b"\n")?;
    }
    Ok(())
}

/// Which parts the references of a primitive have behind the point.
#[derive(Clone, Copy)]
struct Parts {
    texture: bool,
    normal: bool,
}

fn write_number(number: u64, text: &mut Vec<u8>) -> Result<(), AllocError>
    ensures { OnOk result (text.new.items ≡ text.old.items ++ decimal number) }
{
    let mut buffer = Buffer::new();
    text.extend_from_slice(buffer.format(number).as_bytes())
}

/// The parts of the vertex of this number, from 1.
fn write_parts(parts: Parts, vertex: u64, text: &mut Vec<u8>) -> Result<(), AllocError>
    ensures { OnOk result (text.new.items ≡ text.old.items ++ parts_text parts vertex) }
{
    match (parts.texture, parts.normal) {
        (true, true) => {
            text.extend_from_slice(b"/")?;
            write_number(vertex, text)?;
            text.extend_from_slice(b"/")?;
            write_number(vertex, text)
        }
        (true, false) => {
            text.extend_from_slice(b"/")?;
            write_number(vertex, text)
        }
        (false, true) => {
            text.extend_from_slice(b"//")?;
            write_number(vertex, text)
        }
        (false, false) => Ok(()),
    }
}

/// The reference of a vertex to its point, with its parts.
fn write_reference(
    point: u32,
    parts: Parts,
    vertex: u64,
    text: &mut Vec<u8>,
) -> Result<(), AllocError>
    ensures { OnOk result (text.new.items ≡ text.old.items ++ (codes " " ++ decimal (point + 1) ++ parts_text parts vertex)) }
{
    text.extend_from_slice(b" ")?;
    write_number(u64::from(point) + 1, text)?;
    write_parts(parts, vertex, text)
}

/// The references of `size` vertices from `first` on.
fn write_references<V: GeoView>(
    view: &V,
    parts: Parts,
    first: u32,
    size: u32,
    text: &mut Vec<u8>,
) -> Result<(), AllocError>
    requires readable { IsReadable (V.geo view.now) }
    requires in_range { first + size ≤ length (corners_of (V.geo view.now).prims) }
    ensures { OnOk result (text.new.items ≡ text.old.items ++ references_text parts first (take size (drop first (corners_of (V.geo view.now).prims)))) }
{
    for vertex in first..first + size {
        write_reference(view.point_of(vertex), parts, u64::from(vertex) + 1, text)?;
    }
    Ok(())
}

/// Which parts closed primitives have.
fn closed_parts<V: GeoView>(view: &V) -> Parts
    requires { IsReadable (V.geo view.now) }
    ensures { result ≡ closed_parts (V.geo view.now) }
{
    Parts {
        texture: vector_head(view, Class::Vertex, "uv").is_some(),
        normal: vector_head(view, Class::Vertex, "N").is_some(),
    }
}

/// The first word of a primitive's line.
fn keyword(closed: bool) -> &'static [u8]
    ensures { result.now ≡ (if closed then codes "f" else codes "l") }
{
    if closed { b"f" } else { b"l" }
}

/// An open primitive has no normals.
fn parts_of(parts: Parts, closed: bool) -> Parts
    ensures { result ≡ record parts { normal = parts.normal && closed } }
{
    Parts {
        texture: parts.texture,
        normal: parts.normal && closed,
    }
}

/// The line of a primitive.
fn write_shape<V: GeoView>(
    view: &V,
    prim: u32,
    parts: Parts,
    text: &mut Vec<u8>,
) -> Result<(), AllocError>
    requires readable { IsReadable (V.geo view.now) }
    requires in_range { prim < length (V.geo view.now).prims }
    requires parts { parts ≡ closed_parts (V.geo view.now) }
    ensures { OnOk result (text.new.items ≡ text.old.items ++ shape_line (V.geo view.now) (first_vertex_in (V.geo view.now).prims prim) (slice_index_or (V.geo view.now).prims prim no_prim)) }
{
    let closed = view.closed(prim);
    let first = view.first_vertex(prim);
    let size = view.size(prim);
    text.extend_from_slice(keyword(closed))?;
    write_references(view, parts_of(parts, closed), first, size, text)?;
    text.extend_from_slice(b"\n")?;
    Ok(())
}

/// Whether a primitive is in a group.
fn is_member<V: GeoView>(view: &V, prim: u32, group: u32) -> bool
    requires readable { IsReadable (V.geo view.now) }
    requires prim { prim < length (V.geo view.now).prims }
    requires group { group < length (V.geo view.now).prim.groups }
    ensures { result ≡ slice_index_or (slice_index_or (V.geo view.now).prims prim no_prim).row.flags group false }
{
    view.member(Class::Prim, group, prim)
}

/// Whether the primitive before this one is in a group.
fn was_member<V: GeoView>(view: &V, prim: u32, group: u32) -> bool
    requires readable { IsReadable (V.geo view.now) }
    requires prim { prim < length (V.geo view.now).prims }
    requires group { group < length (V.geo view.now).prim.groups }
    ensures { result ≡ slice_index_or (flags_before (V.geo view.now) prim) group false }
{
    if prim == 0 {
        false
    } else {
        is_member(view, prim - 1, group)
    }
}

/// Whether a primitive is in the same groups as the one before it.
fn is_in_same<V: GeoView>(view: &V, prim: u32) -> bool
    requires readable { IsReadable (V.geo view.now) }
    requires prim { prim < length (V.geo view.now).prims }
    ensures { result ≡ same_flags (flags_before (V.geo view.now) prim) (slice_index_or (V.geo view.now).prims prim no_prim).row.flags }
{
    for group in 0..view.groups(Class::Prim) {
        if was_member(view, prim, group) != is_member(view, prim, group) {
            return false;
        }
    }
    true
}

/// The name of a group, where a primitive is in it.
fn write_group<V: GeoView>(
    view: &V,
    prim: u32,
    group: u32,
    text: &mut Vec<u8>,
) -> Result<(), AllocError>
    requires readable { IsReadable (V.geo view.now) }
    requires prim { prim < length (V.geo view.now).prims }
    requires group { group < length (V.geo view.now).prim.groups }
    ensures { OnOk result (text.new.items ≡ text.old.items ++ name_if (slice_index_or (slice_index_or (V.geo view.now).prims prim no_prim).row.flags group false) (slice_index_or (V.geo view.now).prim.groups group [])) }
{
    if !is_member(view, prim, group) {
        return Ok(());
    }
    text.extend_from_slice(b" ")?;
    text.extend_from_slice(view.group_name(Class::Prim, group).as_bytes())
}

/// The line of the groups of a primitive.
fn write_groups<V: GeoView>(view: &V, prim: u32, text: &mut Vec<u8>) -> Result<(), AllocError>
    requires readable { IsReadable (V.geo view.now) }
    requires prim { prim < length (V.geo view.now).prims }
    ensures { OnOk result (text.new.items ≡ text.old.items ++ groups_line (groups_of (V.geo view.now) (slice_index_or (V.geo view.now).prims prim no_prim))) }
{
    text.extend_from_slice(b"g")?;
    for group in 0..view.groups(Class::Prim) {
        write_group(view, prim, group, text)?;
    }
    text.extend_from_slice(b"\n")?;
    Ok(())
}

/// The line of the groups of a primitive, where they differ from those of the one before.
fn write_change<V: GeoView>(view: &V, prim: u32, text: &mut Vec<u8>) -> Result<(), AllocError>
    requires readable { IsReadable (V.geo view.now) }
    requires prim { prim < length (V.geo view.now).prims }
    ensures { OnOk result (text.new.items ≡ text.old.items ++ change_of_groups (V.geo view.now) (flags_before (V.geo view.now) prim) (slice_index_or (V.geo view.now).prims prim no_prim)) }
{
    if is_in_same(view, prim) {
        Ok(())
    } else {
        write_groups(view, prim, text)
    }
}

fn write_prims<V: GeoView>(view: &V, text: &mut Vec<u8>) -> Result<(), AllocError>
    requires { IsReadable (V.geo view.now) }
    ensures { OnOk result (text.new.items ≡ text.old.items ++ shapes_text (V.geo view.now) 0 (no_flags (V.geo view.now)) (V.geo view.now).prims) }
{
    let parts = closed_parts(view);
    for prim in 0..view.count(Class::Prim) {
        write_change(view, prim, text)?;
        write_shape(view, prim, parts, text)?;
    }
    Ok(())
}

fn whole_text<V: GeoView>(alloc: Global, view: &V) -> Result<Vec<u8>, AllocError>
    requires { IsReadable (V.geo view.now) }
    ensures written { IfOk result (λ text. text.items ≡ text_of (V.geo view.now)) }
    ensures real { OnOk result (AreReal (V.geo view.now)) }
{
    let mut text = Vec::new(alloc);
    write_points(view, &mut text)?;
    let texture = vector_head(view, Class::Vertex, "uv");
    write_vectors(view, b"vt", texture, &mut text)?;
    let normal = vector_head(view, Class::Vertex, "N");
    write_vectors(view, b"vn", normal, &mut text)?;
    write_prims(view, &mut text)?;
    Ok(text)
}

/// The OBJ text of a geometry: a line `v` for each point, with its colour where points have a vector `Cd`; lines `vt` and `vn` for
/// each vertex, where vertices have a vector `uv` or `N`; and a line `f` or `l` for each primitive, with lines `g` where the groups
/// change. Read again, the text of a well made geometry within the limits means what it carries. The time is
/// linear in the values, flags and vertices of the geometry.
pub fn write_obj<V: GeoView>(alloc: Global, view: &V) -> Result<Vec<u8>, AllocError>
    requires { IsReadable (V.geo view.now) }
    ensures written { IfOk result (λ text. text.items ≡ text_of (V.geo view.now)) }
    ensures back { IfOk result (λ text. IsGood (V.geo view.now) → Fits (V.geo view.now) → meaning text.items ≡ Ok (carried (V.geo view.now))) }
{
    let text = whole_text(alloc, view)?;
    Ok(text)
}
