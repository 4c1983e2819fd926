//! Primitives or points in another order.
ghost use Rattle.std.specs.Prelude.{◌≡◌, ◌-◌, ◌<◌, ◌≤◌, ◌^◌, ◌++◌, length, All, IfOk, OnOk};
ghost use Rattle.std.specs.List.{range_with_len};
ghost use Rattle.sop_model.specs.declared.class.Class.TheVariants.{Prim, Point};
ghost use Rattle.sop_model.specs.declared.geo.Geo.{Geo};
ghost use Rattle.sop_model.specs.Rows.{no_prim, picked, reordered, IsOrderOf};
ghost use Rattle.sop_model.specs.Vertices.{ends_of};
ghost use Rattle.sop_rows.specs.Parts.{vertices_with};
ghost use Rattle.sop_shape.specs.Shapes.{HasShape};

use crate::lists::{pick, places_in};
use crate::shape::Shape;
use std::alloc::AllocError;

impl Shape {
    /// The shape with its primitives in another order, and the vertices in theirs: the new primitive or vertex at a place is the old one
    /// of the number that stands there. `Err` for want of memory.
    pub fn reordered_prims(&self, perm: &[u32]) -> Result<(Shape, Vec<u32>), AllocError>
        requires { IsOrderOf (length self.now.closed) perm.now }
        ensures shape { IfOk result (λ made. (g : Geo) → HasShape g self.now → HasShape (reordered g Prim perm.now) made.0) }
        ensures vertices { IfOk result (λ made. (g : Geo) → HasShape g self.now → made.1.items ≡ vertices_with g.prims perm.now) }
    {
        self.known();
        let alloc = self.allocator();
        let closed = pick(alloc, self.closed_flags(), perm)?;
        let moved = moved_vertices(self, perm)?;
        let refers = pick(alloc, self.refers(), moved.vertices.as_slice())?;
        Ok((
            Shape::from_lists(closed, moved.ends, refers),
            moved.vertices,
        ))
    }

    /// The shape where points have another order: the new point at a place is the old one of the number that stands there. `Err` for want
    /// of memory.
    pub fn reordered_points(&self, perm: &[u32]) -> Result<Shape, AllocError>
        requires order { IsOrderOf (length perm.now) perm.now }
        requires few { length perm.now < 2 ^ 32 }
        requires refers { All (λ n. n < length perm.now) self.now.refers }
        ensures { IfOk result (λ made. (g : Geo) → HasShape g self.now → HasShape (reordered g Point perm.now) made) }
    {
        self.known();
        let alloc = self.allocator();
        let places = places_in(alloc, perm)?;
        let refers = pick(alloc, places.as_slice(), self.refers())?;
        let closed = Vec::from_slice(alloc, self.closed_flags())?;
        let ends = Vec::from_slice(alloc, self.ends())?;
        Ok(Shape::from_lists(closed, ends, refers))
    }
}

/// The vertices of primitives in another order, and where those of each end.
#[derive(Debug, Drop)]
struct Moved {
    ends: Vec<u32>,
    vertices: Vec<u32>,
}

fn moved_vertices(shape: &Shape, perm: &[u32]) -> Result<Moved, AllocError>
    requires { IsOrderOf (length shape.now.closed) perm.now }
    ensures ends { IfOk result (λ made. (g : Geo) → HasShape g shape.now
        → made.ends.items ≡ ends_of 0 (picked g.prims no_prim perm.now)) }
    ensures vertices { IfOk result (λ made. (g : Geo) → HasShape g shape.now
        → made.vertices.items ≡ vertices_with g.prims perm.now) }
{
    shape.known();
    let alloc = shape.allocator();
    let mut ends = Vec::with_capacity(alloc, perm.len())?;
    let mut vertices = Vec::with_capacity(alloc, shape.vertices() as usize)?;
    for prim in perm {
        push_range(&mut vertices, shape.first_vertex(*prim), shape.end(*prim))?;
        ends.push(vertices.len() as u32)?;
    }
    Ok(Moved { ends, vertices })
}

/// Puts the numbers from `first` on and before `end` behind others.
fn push_range(numbers: &mut Vec<u32>, first: u32, end: u32) -> Result<(), AllocError>
    requires { first ≤ end }
    ensures { OnOk result (numbers.new.items ≡ numbers.old.items ++ range_with_len first (end - first)) }
{
    for number in first..end {
        numbers.push(number)?;
    }
    Ok(())
}
