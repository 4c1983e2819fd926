// Reads of a geometry in a vault.
ghost use Rattle.sop_model.specs.Geometry.{IsReadable};

use crate::checksum::added;
use sop_model::{Class, GeoView, ValueRef};
use sop_sheets::GeoRef;

/// How many elements of a class are read.
const READS: u32 = 1000;

/// How many points, and how many primitives, lie between two that are read; four times as many vertices.
const APART: u32 = 1009;

/// A checksum of how many elements a geometry has and of some of them, few enough to take no time beside what made them.
pub fn sum_of_reads(view: &GeoRef<'_>) -> u64
    requires { IsReadable view.now }
{
    let mut sum = sum_of_counts(view);
    for time in 0..READS {
        let element = time * APART;
        sum = added(sum, place_of(view, element));
        sum = added(sum, size_of(view, element));
        sum = added(sum, point_of(view, 4 * element));
    }
    sum
}

fn sum_of_counts(view: &GeoRef<'_>) -> u64
    requires { IsReadable view.now }
{
    let points = u64::from(view.count(Class::Point));
    let prims = u64::from(view.count(Class::Prim));
    let vertices = u64::from(view.count(Class::Vertex));
    added(added(points, prims), vertices)
}

/// A number for where a point is, 0 where there is none.
fn place_of(view: &GeoRef<'_>, point: u32) -> u64
    requires { IsReadable view.now }
{
    if view.heads(Class::Point) == 0 || point >= view.count(Class::Point) {
        return 0;
    }
    match view.value(Class::Point, 0, point) {
        ValueRef::Vector(place) => added(
            place.x.millionths().cast_unsigned(),
            place.y.millionths().cast_unsigned(),
        ),
        _ => 0,
    }
}

/// How many vertices a primitive has, 0 where there is none.
fn size_of(view: &GeoRef<'_>, prim: u32) -> u64
    requires { IsReadable view.now }
{
    if prim >= view.count(Class::Prim) {
        return 0;
    }
    u64::from(view.size(prim))
}

/// The point of a vertex, 0 where there is none.
fn point_of(view: &GeoRef<'_>, vertex: u32) -> u64
    requires { IsReadable view.now }
{
    if vertex >= view.count(Class::Vertex) {
        return 0;
    }
    u64::from(view.point_of(vertex))
}
