//! The shape of a geometry that is read.
ghost use Rattle.std.specs.Prelude.{◌≡◌, map, IfOk};
ghost use Rattle.sop_model.specs.Geometry.{IsReadable};
ghost use Rattle.sop_model.specs.Vertices.{corners_of, ends_of};
ghost use Rattle.sop_shape.specs.Shapes.{HasShape};

use crate::shape::Shape;
use sop_model::{Class, GeoView};
use std::alloc::{AllocError, Global};

impl Shape {
    /// The shape of a geometry; `Err` for want of memory.
    pub fn of_view<V: GeoView>(alloc: Global, view: &V) -> Result<Shape, AllocError>
        requires { IsReadable (V.geo view.now) }
        ensures { IfOk result (λ shape. HasShape (V.geo view.now) shape) }
    {
        let closed = closed_in(alloc, view)?;
        let ends = ends_in(alloc, view)?;
        let refers = refers_in(alloc, view)?;
        Ok(Shape::from_lists(closed, ends, refers))
    }
}

/// Whether each primitive is closed.
fn closed_in<V: GeoView>(alloc: Global, view: &V) -> Result<Vec<bool>, AllocError>
    requires { IsReadable (V.geo view.now) }
    ensures { IfOk result (λ closed. closed.items ≡ map (λ p. p.closed) (V.geo view.now).prims) }
{
    let prims = view.count(Class::Prim);
    let mut closed = Vec::with_capacity(alloc, prims as usize)?;
    for prim in 0..prims {
        closed.push(view.closed(prim))?;
    }
    Ok(closed)
}

/// For each primitive the number behind that of its last vertex.
fn ends_in<V: GeoView>(alloc: Global, view: &V) -> Result<Vec<u32>, AllocError>
    requires { IsReadable (V.geo view.now) }
    ensures { IfOk result (λ ends. ends.items ≡ ends_of 0 (V.geo view.now).prims) }
{
    let prims = view.count(Class::Prim);
    let mut ends = Vec::with_capacity(alloc, prims as usize)?;
    for prim in 0..prims {
        ends.push(view.first_vertex(prim) + view.size(prim))?;
    }
    Ok(ends)
}

/// The point of each vertex.
fn refers_in<V: GeoView>(alloc: Global, view: &V) -> Result<Vec<u32>, AllocError>
    requires { IsReadable (V.geo view.now) }
    ensures { IfOk result (λ refers. refers.items ≡ map (λ c. c.point) (corners_of (V.geo view.now).prims)) }
{
    let vertices = view.count(Class::Vertex);
    let mut refers = Vec::with_capacity(alloc, vertices as usize)?;
    for vertex in 0..vertices {
        refers.push(view.point_of(vertex))?;
    }
    Ok(refers)
}
