//! Vertices added to many primitives at once.
ghost use Rattle.std.specs.Prelude.{◌≡◌, ◌+◌, ◌<◌, ◌≤◌, ◌++◌, ◌∷◌, [], ℕ, min, length, map, All, IfOk, OnOk};
ghost use Rattle.sop_model.specs.declared.class.Class.TheVariants.{Vertex};
ghost use Rattle.sop_model.specs.declared.geo.Geo.{Geo};
ghost use Rattle.sop_model.specs.Geometry.{empty_row, rows_of};
ghost use Rattle.sop_model.specs.Limits.{most_vertices};
ghost use Rattle.sop_model.specs.Rows.{default_row, picked, vertices_added};
ghost use Rattle.sop_shape.specs.Groups.{owners_from};
ghost use Rattle.sop_shape.specs.Shapes.{HasShape};

use crate::grouping::group;
use crate::lists::pick;
use crate::shape::Shape;
use std::alloc::AllocError;

impl Shape {
    /// The shape with a vertex more for each primitive and point in turn, at the end of that primitive, and for each vertex the number of
    /// the row that it takes: that of the old vertex, or the number of old vertices where it is new. `Err` for want of memory. The time
    /// grows with the vertices and what is added.
    pub fn with_vertices(&self, adds: &[(u32, u32)]) -> Result<(Shape, Vec<u32>), AllocError>
        requires prims { All (λ a. a.0 < length self.now.closed) adds.now }
        requires vertices { length self.now.refers + length adds.now ≤ most_vertices }
        ensures shape { IfOk result (λ made. (g : Geo) → HasShape g self.now → HasShape (vertices_added g adds.now) made.0) }
        ensures rows { IfOk result (λ made. (g : Geo) → HasShape g self.now
            → rows_of (vertices_added g adds.now) Vertex ≡ picked (rows_of g Vertex ++ default_row g.vertex ∷ []) empty_row made.1.items) }
    {
        self.known();
        let alloc = self.allocator();
        let mut keys = self.owners()?;
        let mut points = Vec::from_slice(alloc, self.refers())?;
        push_adds(&mut keys, &mut points, adds)?;
        let groups = group(alloc, keys.as_slice(), self.prims() as usize)?;
        let refers = pick(alloc, points.as_slice(), groups.order.as_slice())?;
        let closed = Vec::from_slice(alloc, self.closed_flags())?;
        let mut rows = groups.order;
        lower(&mut rows, self.vertices());
        Ok((Shape::from_lists(closed, groups.ends, refers), rows))
    }

    /// For each vertex the number of its primitive.
    pub(crate) fn owners(&self) -> Result<Vec<u32>, AllocError>
        ensures { IfOk result (λ owners. (g : Geo) → HasShape g self.now → owners.items ≡ owners_from 0 g.prims) }
    {
        self.known();
        let mut owners = Vec::with_capacity(self.allocator(), self.vertices() as usize)?;
        for prim in 0..self.prims() {
            owners.resize(self.end(prim) as usize, prim)?;
        }
        Ok(owners)
    }
}

/// Puts primitives and points behind others.
fn push_adds(
    prims: &mut Vec<u32>,
    points: &mut Vec<u32>,
    adds: &[(u32, u32)],
) -> Result<(), AllocError>
    ensures prims { OnOk result (prims.new.items ≡ prims.old.items ++ map (λ a. a.0) adds.now) }
    ensures points { OnOk result (points.new.items ≡ points.old.items ++ map (λ a. a.1) adds.now) }
{
    for (prim, point) in adds {
        prims.push(*prim)?;
        points.push(*point)?;
    }
    Ok(())
}

/// Makes each number at most `most`.
fn lower(numbers: &mut Vec<u32>, most: u32)
    ensures { numbers.new.items ≡ map (λ n. min n most) numbers.old.items }
{
    for number in numbers.iter_mut() {
        *number = lesser(*number, most);
    }
}

/// The lesser of two numbers.
fn lesser(a: u32, b: u32) -> u32
    ensures { result ≡ min a b }
{
    if a < b { a } else { b }
}
