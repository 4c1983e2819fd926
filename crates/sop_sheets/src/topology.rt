//! The shape of a geometry, held by all geometries that have it.
ghost use Rattle.std.specs.Prelude.{◌≡◌, ◌+◌, ◌^◌, ◌<◌, ◌≤◌, length, All, IfOk, OnOk, OnErr};
ghost use Rattle.sop_model.specs.declared.class.Class.TheVariants.{Point};
ghost use Rattle.sop_model.specs.Appending.{appended};
ghost use Rattle.sop_model.specs.Geometry.{count_of, IsSound};
ghost use Rattle.sop_model.specs.declared.geo.Geo.{Geo};
ghost use Rattle.sop_model.specs.Limits.{most_prims, most_vertices};
ghost use Rattle.sop_model.specs.Rows.{prim_added};
ghost use Rattle.sop_shape.specs.Shapes.{HasShape};

use sop_shape::Shape;
use std::alloc::{AllocError, Global};
use std::marker::Model;
use std::sync::Arc;

/// The shape of a geometry, counted: to share it costs nothing for each element, and it is copied at the first change by one of many
/// holders. Contracts see the shape.
#[derive(Drop)]
pub struct Topology {
    shape: Arc<Shape, Global>,
    alloc: Global,
}

impl Model for Topology {
    ghost use Rattle.std.specs.Arc.{arc_value};
    ghost use Rattle.sop_shape.specs.Shapes.{ShapeLists};

    ghost Value = { ShapeLists };

    ghost view = { λ t. arc_value t.shape };
}

impl Topology {
    /// A shape with one holder.
    pub fn new(alloc: Global, shape: Shape) -> Result<Topology, AllocError>
        ensures { IfOk result (λ t. t ≡ shape) }
    {
        let shape = Arc::new(alloc, shape)?;
        Ok(Topology { shape, alloc })
    }

    /// Another shape with one holder, in memory of the same allocator. `Err` for want of memory.
    pub fn with_shape(&self, shape: Shape) -> Result<Topology, AllocError>
        ensures { IfOk result (λ t. t ≡ shape) }
    {
        Topology::new(self.alloc, shape)
    }

    /// One more holder. `Err` for want of memory.
    pub fn share(&self) -> Result<Topology, AllocError>
        ensures { IfOk result (λ t. t ≡ self.now) }
    {
        let shape = Arc::try_clone(&self.shape)?;
        Ok(Topology {
            shape,
            alloc: self.alloc,
        })
    }

    /// The shape, to be read.
    pub fn shape(&self) -> &Shape
        ensures { result.now ≡ self.now }
    {
        &self.shape
    }

    /// Puts a primitive at the end, as `Shape::add_prim` does. The shape is copied before where it has other holders.
    pub fn add_prim(&mut self, closed: bool, points: &[u32]) -> Result<(), AllocError>
        requires prims { length self.old.closed < most_prims }
        requires vertices { length self.old.refers + length points.now ≤ most_vertices }
        ensures ok { OnOk result ((g : Geo) → HasShape g self.old → HasShape (prim_added g closed points.now) self.new) }
        ensures err { OnErr result (self.new ≡ self.old) }
    {
        let shape = Arc::make_mut(&mut self.shape)?;
        shape.add_prim(closed, points)
    }

    /// Puts another shape behind, as `Shape::append` does, whose points stand behind so many. The shape is copied before where it has other
    /// holders.
    pub fn append(&mut self, other: &Topology, points: u32) -> Result<(), AllocError>
        requires prims { length self.old.closed + length other.now.closed ≤ most_prims }
        requires vertices { length self.old.refers + length other.now.refers ≤ most_vertices }
        requires points { All (λ n. points + n < 2 ^ 32) other.now.refers }
        ensures ok { OnOk result ((a b : Geo) → IsSound a → IsSound b → HasShape a self.old → HasShape b other.now
            → count_of a Point ≡ points → HasShape (appended a b) self.new) }
        ensures err { OnErr result (self.new ≡ self.old) }
    {
        let shape = Arc::make_mut(&mut self.shape)?;
        shape.append(other.shape(), points)
    }
}
