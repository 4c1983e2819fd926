// Marks on the elements of a geometry that are to go.
ghost use Rattle.std.specs.Prelude.{◌≡◌, ◌<◌, length, replicate, false, IfOk};
ghost use Rattle.sop_model.specs.Geometry.{IsReadable};
ghost use Rattle.sop_rows.specs.Marking.{no_marks, point_marked, vertex_marked, prim_marked};

use sop_model::{Class, FlagList, GeoView};
use sop_outside::Items;
use std::alloc::{AllocError, Global};
use std::marker::Model;

/// A flag for each point, vertex and primitive of a geometry, and for each primitive whether its points are marked with it.
#[derive(Debug, Drop)]
pub struct Marks {
    points: FlagList,
    vertices: FlagList,
    prims: FlagList,
    with_points: FlagList,
}

impl Model for Marks {
    ghost use Rattle.sop_model.specs.Sweep.{MarkSet};

    ghost Value = { MarkSet };

    ghost view = { λ m. record { points = m.points; vertices = m.vertices; prims = m.prims; with_points = m.with_points } };
}

impl Marks {
    /// No mark on any element of a geometry; `Err` for want of memory.
    pub fn for_view<V: GeoView>(alloc: Global, view: &V) -> Result<Marks, AllocError>
        requires { IsReadable (V.geo view.now) }
        ensures { IfOk result (λ marks. marks ≡ no_marks (V.geo view.now)) }
    {
        Ok(Marks {
            points: unset(alloc, view.count(Class::Point))?,
            vertices: unset(alloc, view.count(Class::Vertex))?,
            prims: unset(alloc, view.count(Class::Prim))?,
            with_points: unset(alloc, view.count(Class::Prim))?,
        })
    }

    /// Marks point `i`, from 0. It takes no memory.
    pub fn mark_point(&mut self, i: u32)
        requires { i < length self.old.points }
        ensures { self.new ≡ point_marked self.old i }
    {
        self.points.set(i as usize, true);
    }

    /// Marks vertex `i`, from 0. It takes no memory.
    pub fn mark_vertex(&mut self, i: u32)
        requires { i < length self.old.vertices }
        ensures { self.new ≡ vertex_marked self.old i }
    {
        self.vertices.set(i as usize, true);
    }

    /// Marks primitive `i`, from 0, and with `and_points` its points with it. It takes no memory.
    pub fn mark_prim(&mut self, i: u32, and_points: bool)
        requires prims { i < length self.old.prims }
        requires with_points { i < length self.old.with_points }
        ensures { self.new ≡ prim_marked self.old i and_points }
    {
        self.prims.set(i as usize, true);
        if and_points {
            self.with_points.set(i as usize, true);
        }
    }

    /// The flags of the points, in the order of their numbers.
    pub fn points(&self) -> &[bool]
        ensures { result.now ≡ self.now.points }
    {
        self.points.as_slice()
    }

    /// The flags of the vertices, in the order of their numbers.
    pub fn vertices(&self) -> &[bool]
        ensures { result.now ≡ self.now.vertices }
    {
        self.vertices.as_slice()
    }

    /// The flags of the primitives, in the order of their numbers.
    pub fn prims(&self) -> &[bool]
        ensures { result.now ≡ self.now.prims }
    {
        self.prims.as_slice()
    }

    /// For each primitive whether its points are marked with it.
    pub fn with_points(&self) -> &[bool]
        ensures { result.now ≡ self.now.with_points }
    {
        self.with_points.as_slice()
    }
}

/// So many flags that aren't set.
fn unset(alloc: Global, count: u32) -> Result<FlagList, AllocError>
    ensures { IfOk result (λ flags. flags ≡ replicate count false) }
{
    Ok(Items::from_vec(vec![in alloc; false; count as usize]?))
}
