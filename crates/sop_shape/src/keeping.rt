//! What is left of a shape where marked elements go.
ghost use Rattle.std.specs.Prelude.{◌≡◌, ◌<◌, ◌≤◌, ◌^◌, length, map, All, IfOk};
ghost use Rattle.sop_model.specs.declared.class.Class.TheVariants.{Prim, Point, Vertex};
ghost use Rattle.sop_model.specs.declared.geo.Geo.{Geo};
ghost use Rattle.sop_model.specs.Geometry.{count_of};
ghost use Rattle.sop_model.specs.Rows.{picked};
ghost use Rattle.sop_model.specs.Sweep.{is_marked, how_many, swept};
ghost use Rattle.sop_shape.specs.Shapes.{HasShape};
ghost use Rattle.sop_shape.specs.Tests.{numbers_left};

use crate::lists::{counts_before, pick, set_places};
use crate::shape::Shape;
use crate::staying::what_stays;
use sop_rows::Marks;
use std::alloc::{AllocError, Global};

/// What is left: the shape, and for points, vertices and primitives the old numbers of those that stay, in order.
#[derive(Debug, Drop)]
pub struct Left {
    pub shape: Shape,
    pub points: Vec<u32>,
    pub vertices: Vec<u32>,
    pub prims: Vec<u32>,
}

impl Shape {
    /// The shape without marked elements and what can't stay without them, where the geometry has so many points; `Err` for want of
    /// memory. The time grows with the points, vertices and primitives.
    pub fn kept(&self, points: u32, marks: &Marks) -> Result<Left, AllocError>
        requires points { length marks.now.points ≡ points }
        requires vertices { length marks.now.vertices ≡ length self.now.refers }
        requires prims { length marks.now.prims ≡ length self.now.closed }
        requires with_points { length marks.now.with_points ≡ length self.now.closed }
        requires refers { All (λ n. n < points) self.now.refers }
        ensures shape { IfOk result (λ left. (g : Geo) → HasShape g self.now → HasShape (swept g marks.now) left.shape) }
        ensures points { IfOk result (λ left. (g : Geo) → HasShape g self.now → count_of g Point ≡ points
            → left.points.items ≡ numbers_left g marks.now Point) }
        ensures vertices { IfOk result (λ left. (g : Geo) → HasShape g self.now
            → left.vertices.items ≡ numbers_left g marks.now Vertex) }
        ensures prims { IfOk result (λ left. (g : Geo) → HasShape g self.now → left.prims.items ≡ numbers_left g marks.now Prim) }
    {
        self.known();
        let alloc = self.allocator();
        let staying = what_stays(self, points, marks)?;
        let points = set_places(alloc, staying.points.as_slice())?;
        let vertices = set_places(alloc, staying.vertices.as_slice())?;
        let prims = set_places(alloc, staying.prims.as_slice())?;
        let closed = pick(alloc, self.closed_flags(), prims.as_slice())?;
        let ends = renumbered(
            self.ends(),
            prims.as_slice(),
            staying.vertices.as_slice(),
            alloc,
        )?;
        let refers = renumbered(
            self.refers(),
            vertices.as_slice(),
            staying.points.as_slice(),
            alloc,
        )?;
        Ok(Left {
            shape: Shape::from_lists(closed, ends, refers),
            points,
            vertices,
            prims,
        })
    }
}

/// The numbers at these places, each as how many flags are set before it.
fn renumbered(
    numbers: &[u32],
    places: &[u32],
    flags: &[bool],
    alloc: Global,
) -> Result<Vec<u32>, AllocError>
    requires places { All (λ n. n < length numbers.now) places.now }
    requires numbers { All (λ n. n ≤ length flags.now) numbers.now }
    requires few { length flags.now < 2 ^ 32 }
    ensures { IfOk result (λ made. made.items ≡ map (how_many (is_marked flags.now)) (picked numbers.now 0 places.now)) }
{
    let counts = counts_before(alloc, flags)?;
    let old = pick(alloc, numbers, places)?;
    let made = pick(alloc, counts.as_slice(), old.as_slice())?;
    Ok(made)
}
