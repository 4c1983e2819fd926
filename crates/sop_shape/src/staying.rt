//! Which vertices, points and primitives stay where marked elements go.
ghost use Rattle.std.specs.Prelude.{◌≡◌, ◌<◌, ◌≤◌, ◌^◌, ◌||◌, ◌&&◌, ◌==◌, not, ℕ, length, map, All, IfOk};
ghost use Rattle.sop_model.specs.declared.class.Class.TheVariants.{Prim, Point, Vertex};
ghost use Rattle.sop_model.specs.declared.geo.Geo.{Geo};
ghost use Rattle.sop_model.specs.Sweep.{is_marked, stays};
ghost use Rattle.sop_shape.specs.Shapes.{HasShape};
ghost use Rattle.sop_shape.specs.Tests.{AreTouched, flags_of, gives_up, grows, is_touched, number_at, point_test, vertex_test};

use crate::lists::counts_before;
use crate::shape::Shape;
use sop_rows::Marks;
use std::alloc::{AllocError, Global};

/// For each point, vertex and primitive whether it stays.
#[derive(Debug, Drop)]
pub(crate) struct Staying {
    pub(crate) points: Vec<bool>,
    pub(crate) vertices: Vec<bool>,
    pub(crate) prims: Vec<bool>,
}

pub(crate) fn what_stays(shape: &Shape, points: u32, marks: &Marks) -> Result<Staying, AllocError>
    requires points { length marks.now.points ≡ points }
    requires vertices { length marks.now.vertices ≡ length shape.now.refers }
    requires prims { length marks.now.prims ≡ length shape.now.closed }
    requires with_points { length marks.now.with_points ≡ length shape.now.closed }
    requires refers { All (λ n. n < points) shape.now.refers }
    ensures points { IfOk result (λ made. (g : Geo) → HasShape g shape.now
        → made.points.items ≡ flags_of (stays g marks.now Point) points) }
    ensures vertices { IfOk result (λ made. (g : Geo) → HasShape g shape.now
        → made.vertices.items ≡ flags_of (stays g marks.now Vertex) (length shape.now.refers)) }
    ensures prims { IfOk result (λ made. (g : Geo) → HasShape g shape.now
        → made.prims.items ≡ flags_of (stays g marks.now Prim) (length shape.now.closed)) }
{
    shape.known();
    let alloc = shape.allocator();
    let owners = shape.owners()?;
    let refers = shape.refers();
    let vertices = vertices_left(alloc, marks, owners.as_slice(), refers)?;
    let given_up = giving_up(alloc, marks, owners.as_slice())?;
    let points = points_left(
        alloc,
        marks,
        given_up.as_slice(),
        vertices.as_slice(),
        refers,
    )?;
    let prims = prims_left(alloc, vertices.as_slice(), shape.ends())?;
    Ok(Staying {
        points,
        vertices,
        prims,
    })
}

/// For each vertex whether it stays, by its primitive and its point.
fn vertices_left(
    alloc: Global,
    marks: &Marks,
    owners: &[u32],
    refers: &[u32],
) -> Result<Vec<bool>, AllocError>
    requires vertices { length marks.now.vertices ≡ length refers.now }
    requires many { length owners.now ≡ length refers.now }
    requires owners { All (λ n. n < length marks.now.prims) owners.now }
    requires refers { All (λ n. n < length marks.now.points) refers.now }
    ensures { IfOk result (λ made. made.items ≡ flags_of (vertex_test marks.now owners.now refers.now) (length refers.now)) }
{
    let mut made = Vec::with_capacity(alloc, refers.len())?;
    for (vertex, point) in refers.iter().enumerate() {
        made.push(vertex_stays(marks, vertex, owners[vertex], *point))?;
    }
    Ok(made)
}

/// Whether a vertex of this primitive on this point stays.
fn vertex_stays(marks: &Marks, vertex: usize, prim: u32, point: u32) -> bool
    requires vertex { vertex < length marks.now.vertices }
    requires prim { prim < length marks.now.prims }
    requires point { point < length marks.now.points }
    ensures { result ≡ not (is_marked marks.now.vertices vertex || is_marked marks.now.prims prim || is_marked marks.now.points point) }
{
    !(marks.vertices()[vertex] || marks.prims()[prim as usize] || marks.points()[point as usize])
}

/// For each vertex whether its primitive is marked with its points.
fn giving_up(alloc: Global, marks: &Marks, owners: &[u32]) -> Result<Vec<bool>, AllocError>
    requires prims { All (λ n. n < length marks.now.prims) owners.now }
    requires with_points { length marks.now.with_points ≡ length marks.now.prims }
    ensures { IfOk result (λ made. made.items ≡ flags_of (gives_up marks.now owners.now) (length owners.now)) }
{
    let mut made = Vec::with_capacity(alloc, owners.len())?;
    for prim in owners {
        made.push(prim_gives_up(marks, *prim))?;
    }
    Ok(made)
}

/// Whether a primitive is marked with its points.
fn prim_gives_up(marks: &Marks, prim: u32) -> bool
    requires prims { prim < length marks.now.prims }
    requires with_points { prim < length marks.now.with_points }
    ensures { result ≡ (is_marked marks.now.prims prim && is_marked marks.now.with_points prim) }
{
    marks.prims()[prim as usize] && marks.with_points()[prim as usize]
}

/// For each point whether it stays, by the vertices that give theirs up and those that stay.
fn points_left(
    alloc: Global,
    marks: &Marks,
    giving_up: &[bool],
    staying: &[bool],
    refers: &[u32],
) -> Result<Vec<bool>, AllocError>
    requires giving_up { length giving_up.now ≡ length refers.now }
    requires staying { length staying.now ≡ length refers.now }
    requires refers { All (λ n. n < length marks.now.points) refers.now }
    ensures { IfOk result (λ made. made.items
        ≡ flags_of (point_test marks.now.points (is_touched giving_up.now refers.now) (is_touched staying.now refers.now))
        (length marks.now.points)) }
{
    let points = marks.points();
    let given_up = touched(alloc, giving_up, refers, points.len())?;
    let used = touched(alloc, staying, refers, points.len())?;
    let mut made = Vec::with_capacity(alloc, points.len())?;
    for (point, marked) in points.iter().enumerate() {
        made.push(point_stays(*marked, given_up[point], used[point]))?;
    }
    Ok(made)
}

/// Whether a point stays.
fn point_stays(marked: bool, given_up: bool, used: bool) -> bool
    ensures { result ≡ not (marked || (given_up && not used)) }
{
    !(marked || given_up && !used)
}

/// For each point whether a vertex with a flag refers to it.
fn touched(
    alloc: Global,
    flags: &[bool],
    refers: &[u32],
    points: usize,
) -> Result<Vec<bool>, AllocError>
    requires flags { length flags.now ≡ length refers.now }
    requires refers { All (λ n. n < points) refers.now }
    ensures { IfOk result (λ made. AreTouched flags.now refers.now points made.items) }
{
    let mut made = vec![in alloc; false; points]?;
    for (vertex, point) in refers.iter().enumerate() {
        raise(&mut made, *point as usize, flags[vertex]);
    }
    Ok(made)
}

/// Sets a flag where this is told.
fn raise(flags: &mut Vec<bool>, i: usize, on: bool)
    requires { i < length flags.old.items }
    ensures long { length flags.new.items ≡ length flags.old.items }
    ensures each { (point : ℕ) → is_marked flags.new.items point ≡ (is_marked flags.old.items point || (on && (i == point))) }
{
    if on {
        flags[i] = true;
    }
}

/// For each primitive whether one of its vertices stays.
fn prims_left(alloc: Global, staying: &[bool], ends: &[u32]) -> Result<Vec<bool>, AllocError>
    requires ends { All (λ n. n ≤ length staying.now) ends.now }
    requires few { length staying.now < 2 ^ 32 }
    ensures { IfOk result (λ made. made.items ≡ grows (is_marked staying.now) 0 ends.now) }
{
    let counts = counts_before(alloc, staying)?;
    let mut made = Vec::with_capacity(alloc, ends.len())?;
    let mut before = 0;
    for end in ends {
        let count = counts[*end as usize];
        made.push(before < count)?;
        before = count;
    }
    Ok(made)
}
