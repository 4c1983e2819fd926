//! Points by their places, to be asked which of them are near.
ghost use Rattle.std.specs.Prelude.{◌≡◌, ◌≤◌, IfOk, map, pos, ◌≤ℤ◌, unsigned_abs};
ghost use Rattle.sop_fixed.specs.Numbers.{largest_size};
ghost use Rattle.sop_model.specs.Geometry.{IsReadable};
ghost use Rattle.sop_model.specs.Places.{places_of};
ghost use Rattle.sop_nearest.specs.PlainScan.{plain_scan, IsNearby};

use crate::cells::{Reach, Spot, sorted_spots};
use crate::hits::{Ball, Hit};
use crate::places::places;
use sop_fixed::{Real, Vec3};
use sop_model::GeoView;
use std::alloc::{AllocError, Global};
use std::marker::Model;

/// The points of a geometry in the cells of a grid, seen as the list of their places in the order of their numbers.
#[derive(Debug, Drop)]
pub struct Near {
    side: u64,
    places: Vec<Vec3>,
    spots: Vec<Spot>,
}

impl Model for Near {
    ghost use Rattle.std.specs.Prelude.{List};
    ghost use Rattle.sop_fixed.specs.declared.vec3.Vec3.{Vec3};

    ghost Value = { List Vec3 };

    ghost use Rattle.sop_nearest.specs.Cells.{IsGrid};

    ghost view = { λ near. near.places.items };

    ghost invariant = { λ near. IsGrid near.side near.places.items near.spots.items };
}

impl Near {
    ghost use Rattle.sop_nearest.specs.Cells.{IsAllHits};

    /// The points of a geometry, in cells as wide as `radius` along each axis, or as 0.000001 where that is more. A question with
    /// a radius of at most that width looks into at most 27 cells; `near` answers any other radius as exactly.
    pub fn new<V: GeoView>(alloc: Global, view: &V, radius: Real) -> Result<Near, AllocError>
        requires { IsReadable (V.geo view.now) }
        ensures { IfOk result (λ near. near ≡ places_of (V.geo view.now)) }
    {
        let side = radius.millionths().max(1).unsigned_abs();
        let places = places(alloc, view)?;
        let spots = sorted_spots(alloc, side, &places)?;
        Ok(Near {
            side,
            places,
            spots,
        })
    }

    /// The numbers of the points at most `radius` from `center`, by their distance and then by their number. Distances are
    /// compared by their squares, exactly.
    pub fn near(&self, alloc: Global, center: Vec3, radius: Real) -> Result<Vec<u32>, AllocError>
        requires { pos 0 ≤ℤ radius }
        ensures nearby { IfOk result (λ found. IsNearby self.now center (unsigned_abs radius) found.items) }
        ensures scan { IfOk result (λ found. found.items ≡ plain_scan self.now center (unsigned_abs radius)) }
    {
        let radius = radius.millionths().unsigned_abs();
        let mut hits = self.hits(alloc, &Ball { center, radius })?;
        hits.sort_unstable();
        numbers_of(alloc, &hits)
    }

    /// The hits of a ball, in whatever order: by the cells in reach, or among all points where that is quicker.
    fn hits(&self, alloc: Global, ball: &Ball) -> Result<Vec<Hit>, AllocError>
        requires { ball.now.radius ≤ largest_size }
        ensures { IfOk result (λ hits. IsAllHits self.now ball.now hits.items) }
    {
        let mut hits = Vec::new(alloc);
        let reach = Reach::around(self.side, ball);
        if reach.is_quicker(self.spots.len() as u64) {
            reach.measure(&self.places, &self.spots, ball, &mut hits)?;
        } else {
            ball.measure_all(&self.places, &mut hits)?;
        }
        Ok(hits)
    }
}

fn numbers_of(alloc: Global, hits: &[Hit]) -> Result<Vec<u32>, AllocError>
    ensures { IfOk result (λ numbers. numbers.items ≡ map (λ h. h.number) hits.now) }
{
    hits.iter().map(|hit| hit.number).collect(alloc)
}
