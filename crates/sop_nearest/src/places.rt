// The places of all points, read through a view.
ghost use Rattle.std.specs.Prelude.{◌≡◌, IfOk};
ghost use Rattle.sop_model.specs.Geometry.{IsReadable};
ghost use Rattle.sop_model.specs.Places.{places_of};

use sop_fixed::Vec3;
use sop_model::{Class, GeoView, place_of};
use std::alloc::{AllocError, Global};

/// The places of all points, in the order of their numbers.
pub(crate) fn places<V: GeoView>(alloc: Global, view: &V) -> Result<Vec<Vec3>, AllocError>
    requires { IsReadable (V.geo view.now) }
    ensures { IfOk result (λ places. places.items ≡ places_of (V.geo view.now)) }
{
    let count = view.count(Class::Point);
    let mut places = Vec::with_capacity(alloc, count as usize)?;
    for point in 0..count {
        places.push(place_of(view, point))?;
    }
    Ok(places)
}
