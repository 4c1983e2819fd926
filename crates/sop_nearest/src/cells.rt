// Points by cells of a grid.
ghost use Rattle.std.specs.Prelude.{◌≡◌, ◌≤◌, ◌<◌, ◌-◌, ◌*◌, ◌/◌, ◌^◌, ◌++◌, OnOk, IfOk, IsTrue, All, length, filter, not, ℤ, ◌-ℤ◌, unsigned_abs, IsSortedByKey};
ghost use Rattle.std.specs.List.{flat_map};
ghost use Rattle.std.specs.Ordering.{is_lt};
ghost use Rattle.sop_fixed.specs.Numbers.{largest_size};
ghost use Rattle.sop_nearest.specs.Places.{squared};
ghost use Rattle.sop_fixed.specs.declared.vec3.Vec3.{Vec3};
ghost use Rattle.sop_nearest.specs.declared.cells.Spot.{Spot};
ghost use Rattle.sop_nearest.specs.Cells.{hits_at, cell_cmp, cell_of, height_of, is_in, is_in_reach, is_in_row, is_in_slab, AddsHits, IsGrid};

use crate::hits::{Ball, Hit};
use sop_fixed::{LARGEST_SIZE, Real, Vec3};
use std::alloc::{AllocError, Global};

/// A cell by its place along each axis, from the least coordinate on. Cells stand by x, then by y, then by z.
#[derive(Clone, Copy, Debug, PartialEq, Eq, PartialOrd, Ord)]
pub(crate) struct Cell {
    pub(crate) x: u64,
    pub(crate) y: u64,
    pub(crate) z: u64,
}

/// A point and its cell.
#[derive(Clone, Copy, Debug)]
pub(crate) struct Spot {
    pub(crate) cell: Cell,
    pub(crate) number: u32,
}

/// Cells along one axis: from `low` to the one before `end`.
#[derive(Clone, Copy, Debug)]
pub(crate) struct Span {
    pub(crate) low: u64,
    pub(crate) end: u64,
}

/// The cells that a ball reaches.
#[derive(Clone, Copy, Debug)]
pub(crate) struct Reach {
    pub(crate) x: Span,
    pub(crate) y: Span,
    pub(crate) z: Span,
}

/// The points by their cells, which are `side` millionths wide.
pub(crate) fn sorted_spots(
    alloc: Global,
    side: u64,
    places: &[Vec3],
) -> Result<Vec<Spot>, AllocError>
    requires wide { 0 < side }
    requires few { length places.now < 2 ^ 32 }
    ensures { IfOk result (λ spots. IsGrid side places.now spots.items) }
{
    let mut spots = Vec::with_capacity(alloc, places.len())?;
    for (i, place) in places.iter().enumerate() {
        spots.push(Spot {
            cell: cell_of(side, *place),
            number: i as u32,
        })?;
    }
    spots.sort_unstable_by_key(|spot| spot.cell);
    Ok(spots)
}

fn cell_of(side: u64, place: Vec3) -> Cell
    requires { 0 < side }
    ensures { result ≡ cell_of side place }
{
    Cell {
        x: height_of(place.x) / side,
        y: height_of(place.y) / side,
        z: height_of(place.z) / side,
    }
}

/// How many millionths a coordinate lies above the least one.
fn height_of(x: Real) -> u64
    ensures value { result ≡ height_of x }
    ensures bound { result ≤ 2 * largest_size }
{
    (x.millionths() + LARGEST_SIZE as i64) as u64
}

impl Reach {
    /// The cells of all places in the ball.
    pub(crate) fn around(side: u64, ball: &Ball) -> Reach
        requires wide { 0 < side }
        requires radius { ball.now.radius ≤ largest_size }
        ensures { (place : Vec3) → squared place ball.now.center ≤ ball.now.radius * ball.now.radius → IsTrue (is_in_reach result.x result.y result.z (cell_of side place)) }
    {
        let center = ball.center;
        Reach {
            x: Span::around(side, center.x, ball.radius),
            y: Span::around(side, center.y, ball.radius),
            z: Span::around(side, center.z, ball.radius),
        }
    }

    /// Whether these cells are found in fewer steps than so many points are measured. A row takes two binary searches, and
    /// one step more.
    pub(crate) fn is_quicker(self, points: u64) -> bool
        ensures { IsTrue result → (self.x.end - self.x.low) * (self.y.end - self.y.low) ≤ points }
    {
        let steps = 2 * u64::from(u64::BITS - points.leading_zeros()) + 1;
        self.x
            .len()
            .saturating_mul(self.y.len())
            .saturating_mul(steps)
            < points
    }

    /// Adds the hits in these cells.
    pub(crate) fn measure(
        self,
        places: &[Vec3],
        spots: &[Spot],
        ball: &Ball,
        hits: &mut Vec<Hit>,
    ) -> Result<(), AllocError>
        requires radius { ball.now.radius ≤ largest_size }
        requires numbers { All (λ s. s.number < length places.now) spots.now }
        requires sorted { IsSortedByKey (λ (s : Spot). s.cell) cell_cmp spots.now }
        ensures { OnOk result (AddsHits places.now ball.now spots.now (is_in_reach self.x self.y self.z) hits.old.items hits.new.items) }
    {
        for x in self.x.low..self.x.end {
            self.measure_slab(x, places, spots, ball, hits)?;
        }
        Ok(())
    }

    /// Adds the hits in the cells of one x.
    fn measure_slab(
        self,
        x: u64,
        places: &[Vec3],
        spots: &[Spot],
        ball: &Ball,
        hits: &mut Vec<Hit>,
    ) -> Result<(), AllocError>
        requires radius { ball.now.radius ≤ largest_size }
        requires numbers { All (λ s. s.number < length places.now) spots.now }
        requires sorted { IsSortedByKey (λ (s : Spot). s.cell) cell_cmp spots.now }
        ensures { OnOk result (AddsHits places.now ball.now spots.now (is_in_slab x self.y self.z) hits.old.items hits.new.items) }
    {
        for y in self.y.low..self.y.end {
            measure_row(places, row(spots, x, y, self.z), ball, hits)?;
        }
        Ok(())
    }
}

impl Span {
    /// The cells within `radius` millionths of a coordinate.
    fn around(side: u64, center: Real, radius: u64) -> Span
        requires wide { 0 < side }
        requires radius { radius ≤ largest_size }
        ensures { (x : ℤ) → unsigned_abs (x -ℤ center) ≤ radius → IsTrue (is_in result (height_of x / side)) }
    {
        let height = height_of(center);
        Span {
            low: height.saturating_sub(radius) / side,
            end: (height + radius) / side + 1,
        }
    }

    fn len(self) -> u64
        ensures { result ≡ self.end - self.low }
    {
        self.end.saturating_sub(self.low)
    }
}

/// Adds the hits among these points.
fn measure_row(
    places: &[Vec3],
    row: &[Spot],
    ball: &Ball,
    hits: &mut Vec<Hit>,
) -> Result<(), AllocError>
    requires radius { ball.now.radius ≤ largest_size }
    requires numbers { All (λ s. s.number < length places.now) row.now }
    ensures { OnOk result (hits.new.items ≡ hits.old.items ++ flat_map (λ s. hits_at places.now ball.now s.number) row.now) }
{
    for spot in row {
        ball.measure(places[spot.number as usize], spot.number, hits)?;
    }
    Ok(())
}

/// The points in the cells of a row along z.
fn row(spots: &[Spot], x: u64, y: u64, z: Span) -> &[Spot]
    requires { IsSortedByKey (λ (s : Spot). s.cell) cell_cmp spots.now }
    ensures { result.now ≡ filter (λ s. is_in_row x y z s.cell) spots.now }
{
    until(
        from(spots, Cell { x, y, z: z.low }),
        Cell { x, y, z: z.end },
    )
}

/// The points of a cell and those behind it.
fn from(spots: &[Spot], low: Cell) -> &[Spot]
    requires { IsSortedByKey (λ (s : Spot). s.cell) cell_cmp spots.now }
    ensures value { result.now ≡ filter (λ s. not (is_lt (cell_cmp s.cell low))) spots.now }
    ensures sorted { IsSortedByKey (λ (s : Spot). s.cell) cell_cmp result.now }
{
    &spots[spots.partition_point(|spot| spot.cell < low)..]
}

/// The points before a cell.
fn until(spots: &[Spot], end: Cell) -> &[Spot]
    requires { IsSortedByKey (λ (s : Spot). s.cell) cell_cmp spots.now }
    ensures { result.now ≡ filter (λ s. is_lt (cell_cmp s.cell end)) spots.now }
{
    &spots[..spots.partition_point(|spot| spot.cell < end)]
}
