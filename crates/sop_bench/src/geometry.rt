// Points at random places.
ghost use Rattle.std.specs.Prelude.{◌≤◌, IfSome, vec_len};
ghost use Rattle.sop_model.specs.Limits.{most_points};

use crate::checksum::added;
use crate::numbers::Numbers;
use sop_fixed::Vec3;
use sop_model::Geo;
use sop_model::limits::MOST_POINTS;
use std::alloc::Global;

/// A checksum of places of which a geometry was made; none where memory runs out.
pub fn sum_of_points(alloc: Global, size: u32) -> Option<u64> {
    let places = places(alloc, size)?;
    let geo = Geo::of_points(alloc, &places).ok()?;
    let sum = places.iter().fold(0, |sum, place| {
        added(sum, place.x.millionths().cast_unsigned())
    });
    Some(added(sum, geo.points.len() as u64))
}

/// At least 1 and at most 1,000,000 places in a box 1 unit high and deep, whose width grows with `size`, so that they stand
/// about as dense for each size up to 100,000; none where memory runs out.
pub fn places(alloc: Global, size: u32) -> Option<Vec<Vec3>>
    ensures { IfSome result (λ places. vec_len places ≤ most_points) }
{
    let size = size.clamp(1, MOST_POINTS as u32);
    let mut numbers = Numbers::new();
    let mut places = Vec::with_capacity(alloc, size as usize).ok()?;
    for _ in 0..size {
        places.push(numbers.place(size).ok()?).ok()?;
    }
    Some(places)
}
