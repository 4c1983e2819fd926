// Points near each of the points.
use crate::checksum::added;
use crate::geometry::places;
use sop_fixed::Real;
use sop_model::Geo;
use sop_nearest::Near;
use std::alloc::Global;

/// The radius in millionths.
const RADIUS: i64 = 200_000;

/// A checksum of the points at most 0.2 from each of `size` points; none where memory runs out.
pub fn sum_of_neighbors(alloc: Global, search: Search, size: u32) -> Option<u64> {
    let places = places(alloc, size)?;
    let Ok(geo) = Geo::of_points(alloc, &places) else {
        return None;
    };
    let width = Real::of_millionths(search.width()).ok()?;
    let radius = Real::of_millionths(RADIUS).ok()?;
    let near = Near::new(alloc, &geo, width).ok()?;
    let mut sum = 0;
    for place in &places {
        let found = near.near(alloc, *place, radius).ok()?;
        sum = found
            .iter()
            .fold(sum, |sum, number| added(sum, u64::from(*number) + 1));
    }
    Some(sum)
}

/// How the points near a place are found.
#[derive(Clone, Copy)]
pub enum Search {
    /// By cells as wide as the radius.
    Cells,
    /// By a look at all points, as cells of the least width would be too many.
    Scan,
}

impl Search {
    fn width(self) -> i64 {
        match self {
            Search::Cells => RADIUS,
            Search::Scan => 0,
        }
    }
}
