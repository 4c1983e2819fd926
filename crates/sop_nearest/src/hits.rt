// Points that are measured.
ghost use Rattle.std.specs.Prelude.{◌≡◌, ◌≤◌, ◌<◌, ◌*◌, ◌^◌, ◌++◌, OnOk, length, ◌-ℤ◌};
ghost use Rattle.std.specs.List.{flat_map, range_with_len};
ghost use Rattle.sop_fixed.specs.Numbers.{largest_size};
ghost use Rattle.sop_fixed.specs.Roots.{square};
ghost use Rattle.sop_nearest.specs.Places.{squared};
ghost use Rattle.sop_nearest.specs.Cells.{hits_at, hits_from};

use sop_fixed::{Real, Vec3};
use std::alloc::AllocError;

/// A point within the radius. Hits stand by their squared distances, then by their numbers.
#[derive(Clone, Copy, Debug, PartialEq, Eq, PartialOrd, Ord)]
pub(crate) struct Hit {
    pub(crate) squared: u128,
    pub(crate) number: u32,
}

/// The places at most `radius` millionths from the center.
#[derive(Clone, Copy, Debug)]
pub(crate) struct Ball {
    pub(crate) center: Vec3,
    pub(crate) radius: u64,
}

impl Ball {
    /// Puts the point behind the hits where it lies in the ball.
    pub(crate) fn measure(
        &self,
        place: Vec3,
        number: u32,
        hits: &mut Vec<Hit>,
    ) -> Result<(), AllocError>
        requires { self.now.radius ≤ largest_size }
        ensures { OnOk result (hits.new.items ≡ hits.old.items ++ hits_from self.now place number) }
    {
        let squared = squared(place, self.center);
        if squared <= square_of(self.radius) {
            hits.push(Hit { squared, number })?;
        }
        Ok(())
    }

    /// Puts every point that lies in the ball behind the hits.
    pub(crate) fn measure_all(&self, places: &[Vec3], hits: &mut Vec<Hit>) -> Result<(), AllocError>
        requires radius { self.now.radius ≤ largest_size }
        requires few { length places.now < 2 ^ 32 }
        ensures { OnOk result (hits.new.items ≡ hits.old.items ++ flat_map (hits_at places.now self.now) (range_with_len 0 (length places.now))) }
    {
        for (i, place) in places.iter().enumerate() {
            self.measure(*place, i as u32, hits)?;
        }
        Ok(())
    }
}

/// The square of the distance of two places, in millionths of millionths.
fn squared(a: Vec3, b: Vec3) -> u128
    ensures { result ≡ squared a b }
{
    along(a.x, b.x) + along(a.y, b.y) + along(a.z, b.z)
}

/// The square of the distance along one axis.
fn along(a: Real, b: Real) -> u128
    ensures value { result ≡ square (a -ℤ b) }
    ensures bound { result ≤ 4 * (largest_size * largest_size) }
{
    square_of(a.millionths().abs_diff(b.millionths()))
}

/// The square of a size, or of a difference of two coordinates.
fn square_of(size: u64) -> u128
    requires { size ≤ 2 * largest_size }
    ensures value { result ≡ size * size }
    ensures bound { result ≤ 4 * (largest_size * largest_size) }
{
    u128::from(size) * u128::from(size)
}
