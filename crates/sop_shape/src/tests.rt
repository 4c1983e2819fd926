//! What no clause says: that these calls succeed with memory at hand.
ghost use Rattle.std.specs.Prelude.{◌≡◌, ◌+◌, ◌<◌, ◌≤◌, ◌^◌, [], ◌∷◌, true, false, length, All, IfOk};
ghost use Rattle.sop_model.specs.Geometry.{IsReadable};
ghost use Rattle.sop_model.specs.Limits.{most_prims, most_vertices};
ghost use Rattle.sop_model.specs.Rows.{IsOrderOf};
ghost use Rattle.sop_shape.specs.Shapes.{shape_with};

use crate::Shape;
use sop_fixed::{Real, Vec3};
use sop_model::samples::grouped_point;
use sop_model::{Class, Geo, GeoView};
use sop_rows::Marks;
use std::alloc::{AllocError, Global};
use std::sync::Arc;
use std::test::Fail;

/// A closed primitive on points 0 and 1, and an open one on point 1.
fn two_prims(alloc: Global) -> Result<Shape, AllocError>
    ensures { IfOk result (λ shape. shape ≡ shape_with (true ∷ false ∷ []) (2 ∷ 3 ∷ []) (0 ∷ 1 ∷ 1 ∷ [])) }
{
    let mut shape = Shape::empty(alloc);
    shape.add_prim(true, &[0, 1])?;
    shape.add_prim(false, &[1])?;
    Ok(shape)
}

fn is_read(shape: &Shape) -> bool
    requires prims { 1 < length shape.now.closed }
    requires vertices { 2 < length shape.now.refers }
{
    shape.closed(0)
        && shape.first_vertex(1) == 2
        && shape.size(0) == 2
        && shape.point_of(2) == 1
        && shape.prim_of(2) == 1
}

fn is_reordered(shape: &Shape) -> Result<bool, AllocError>
    requires prims { IsOrderOf (length shape.now.closed) (1 ∷ 0 ∷ []) }
    requires points { IsOrderOf 2 (1 ∷ 0 ∷ []) }
    requires refers { All (λ n. n < 2) shape.now.refers }
{
    let turned = shape.reordered_prims(&[1, 0])?;
    let renamed = shape.reordered_points(&[1, 0])?;
    Ok(turned.1.first() == Some(&2) && renamed.prims() == 2)
}

fn is_longer(shape: &mut Shape, other: &Shape) -> Result<bool, AllocError>
    requires prims { length shape.old.closed + length other.now.closed ≤ most_prims }
    requires vertices { length shape.old.refers + length other.now.refers ≤ most_vertices }
    requires refers { All (λ n. 2 + n < 2 ^ 32) other.now.refers }
    requires first { 0 < length other.now.closed }
    requires few { length other.now.refers + 1 ≤ most_vertices }
{
    let longer = other.with_vertices(&[(0, 1)])?;
    shape.append(other, 2)?;
    Ok(longer.1.get(2) == Some(&3) && shape.vertices() == 6)
}

fn is_shared(alloc: Global, shape: Shape) -> Result<bool, AllocError> {
    let Ok(mut shared) = Arc::new(alloc, shape) else {
        return Err(AllocError);
    };
    let other = Arc::try_clone(&shared)?;
    let own = Arc::make_mut(&mut shared)?;
    Ok(own.prims() == other.prims())
}

fn is_left(alloc: Global, geo: &Geo) -> Result<bool, AllocError>
    requires { IsReadable geo.now }
{
    let shape = Shape::of_view(alloc, geo)?;
    let marks = Marks::for_view(alloc, geo)?;
    let left = shape.kept(geo.count(Class::Point), &marks)?;
    Ok(left.shape.prims() == 1 && left.points.len() == 1 && left.vertices.len() == 1)
}

#[test]
fn shapes_are_read_and_changed(rt: HostRuntime) -> Result<(), Fail> {
    let mut shape = two_prims(rt.alloc())?;
    let other = two_prims(rt.alloc())?;
    assert!(rt; is_read(&shape) && is_reordered(&shape)?);
    assert!(rt; is_longer(&mut shape, &other)?);
    Ok(())
}

#[test]
fn shapes_are_shared_and_left(rt: HostRuntime) -> Result<(), Fail> {
    let x = Real::of_millionths(0).expect(&rt, "in range");
    let geo = grouped_point(rt.alloc(), Vec3 { x, y: x, z: x })?;
    let shape = Shape::of_view(rt.alloc(), &geo)?;
    assert!(rt; is_shared(rt.alloc(), shape)? && is_left(rt.alloc(), &geo)?);
    Ok(())
}
