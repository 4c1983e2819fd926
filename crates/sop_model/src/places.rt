// The places of points, read through a view.
ghost use Rattle.std.specs.Prelude.{◌≡◌, ◌<◌, Some, length, slice_get};
ghost use Rattle.sop_model.specs.Geometry.{IsReadable};
ghost use Rattle.sop_model.specs.Places.{places_of};

use crate::class::Class;
use crate::value::ValueRef;
use crate::view::GeoView;
use sop_fixed::vec3::Vec3;

/// The place of a point: its value of `P`. It takes no memory.
pub fn place_of<V: GeoView>(view: &V, point: u32) -> Vec3
    requires readable { IsReadable (V.geo view.now) }
    requires in_range { point < length (V.geo view.now).points }
    ensures { slice_get (places_of (V.geo view.now)) point ≡ Some result }
{
    match view.value(Class::Point, 0, point) {
        ValueRef::Vector(place) => place,
        _ => unreachable!(),
    }
}
