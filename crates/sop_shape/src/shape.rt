//! A shape and what is read of it.
ghost use Rattle.std.specs.Prelude.{◌≡◌, ◌+◌, ◌<◌, [], length, map, IfOk, Some, slice_get};
ghost use Rattle.std.specs.Option.{option_map};
ghost use Rattle.sop_model.specs.declared.class.Class.TheVariants.{Prim, Vertex};
ghost use Rattle.sop_model.specs.declared.geo.Geo.{Geo};
ghost use Rattle.sop_model.specs.Geometry.{count_of};
ghost use Rattle.sop_model.specs.Vertices.{corners_of, first_vertex_in, prim_in, size_of};
ghost use Rattle.sop_shape.specs.Shapes.{shape_with, HasShape, IsShape};

use std::alloc::{AllocError, Global};
use std::marker::Model;

/// The shape of a geometry of at most 1,000,000 primitives and 4,000,000 vertices. Primitives are numbered from 0, and vertices from 0
/// primitive by primitive. Each read but `prim_of` takes the same time whatever the shape, and none takes memory.
#[derive(Debug, Drop)]
pub struct Shape {
    pub(crate) closed: Vec<bool>,
    pub(crate) ends: Vec<u32>,
    pub(crate) refers: Vec<u32>,
}

impl Model for Shape {
    ghost use Rattle.sop_shape.specs.Shapes.{ShapeLists, shape_with, IsShape};

    ghost Value = { ShapeLists };

    ghost view = { λ s. shape_with s.closed.items s.ends.items s.refers.items };

    ghost invariant = { λ s. IsShape (shape_with s.closed.items s.ends.items s.refers.items) };
}

impl Shape {
    /// The shape without primitives. It takes no memory.
    pub fn empty(alloc: Global) -> Shape
        ensures { (g : Geo) → g.prims ≡ [] → HasShape g result }
    {
        Shape::from_lists(Vec::new(alloc), Vec::new(alloc), Vec::new(alloc))
    }

    /// The shape of these lists.
    pub(crate) fn from_lists(closed: Vec<bool>, ends: Vec<u32>, refers: Vec<u32>) -> Shape
        requires { IsShape (shape_with closed.items ends.items refers.items) }
        ensures { result ≡ shape_with closed.items ends.items refers.items }
    {
        Shape {
            closed,
            ends,
            refers,
        }
    }

    /// The same shape once more; `Err` for want of memory.
    pub fn try_clone(&self) -> Result<Shape, AllocError>
        ensures { IfOk result (λ made. made ≡ self.now) }
    {
        self.known();
        let alloc = self.allocator();
        let closed = Vec::from_slice(alloc, self.closed_flags())?;
        let ends = Vec::from_slice(alloc, self.ends())?;
        let refers = Vec::from_slice(alloc, self.refers())?;
        Ok(Shape::from_lists(closed, ends, refers))
    }

    /// How many primitives there are.
    pub fn prims(&self) -> u32
        ensures long { result ≡ length self.now.closed }
        ensures count { (g : Geo) → HasShape g self.now → result ≡ count_of g Prim }
    {
        self.closed.len() as u32
    }

    /// How many vertices there are.
    pub fn vertices(&self) -> u32
        ensures long { result ≡ length self.now.refers }
        ensures count { (g : Geo) → HasShape g self.now → result ≡ count_of g Vertex }
    {
        self.refers.len() as u32
    }

    /// Whether a primitive is closed.
    pub fn closed(&self, prim: u32) -> bool
        requires { prim < length self.now.closed }
        ensures { (g : Geo) → HasShape g self.now → option_map (λ p. p.closed) (slice_get g.prims prim) ≡ Some result }
    {
        self.closed[prim as usize]
    }

    /// The number of a primitive's first vertex.
    pub fn first_vertex(&self, prim: u32) -> u32
        requires { prim < length self.now.closed }
        ensures { (g : Geo) → HasShape g self.now → result ≡ first_vertex_in g.prims prim }
    {
        if prim == 0 {
            0
        } else {
            self.ends[prim as usize - 1]
        }
    }

    /// The number behind that of a primitive's last vertex.
    pub(crate) fn end(&self, prim: u32) -> u32
        requires { prim < length self.now.closed }
        ensures { (g : Geo) → HasShape g self.now → result ≡ first_vertex_in g.prims (prim + 1) }
    {
        self.ends[prim as usize]
    }

    /// How many vertices a primitive has.
    pub fn size(&self, prim: u32) -> u32
        requires { prim < length self.now.closed }
        ensures { (g : Geo) → HasShape g self.now → option_map size_of (slice_get g.prims prim) ≡ Some result }
    {
        self.known();
        self.end(prim) - self.first_vertex(prim)
    }

    /// The point that a vertex refers to.
    pub fn point_of(&self, vertex: u32) -> u32
        requires { vertex < length self.now.refers }
        ensures { (g : Geo) → HasShape g self.now → option_map (λ c. c.point) (slice_get (corners_of g.prims) vertex) ≡ Some result }
    {
        self.refers[vertex as usize]
    }

    /// The primitive that a vertex belongs to. The time grows with the logarithm of the number of primitives.
    pub fn prim_of(&self, vertex: u32) -> u32
        requires { vertex < length self.now.refers }
        ensures { (g : Geo) → HasShape g self.now → result ≡ prim_in g.prims vertex }
    {
        self.ends.partition_point(|end| *end <= vertex) as u32
    }

    /// Whether each primitive is closed, in order.
    pub(crate) fn closed_flags(&self) -> &[bool]
        ensures { result.now ≡ self.now.closed }
    {
        self.closed.as_slice()
    }

    /// For each primitive the number behind that of its last vertex.
    pub(crate) fn ends(&self) -> &[u32]
        ensures { result.now ≡ self.now.ends }
    {
        self.ends.as_slice()
    }

    /// The point of each vertex, in order.
    pub(crate) fn refers(&self) -> &[u32]
        ensures { result.now ≡ self.now.refers }
    {
        self.refers.as_slice()
    }

    /// Where its memory comes from.
    pub(crate) fn allocator(&self) -> Global {
        *self.closed.allocator()
    }

    /// A law: some geometry within the limits of primitives and vertices has this shape.
    pub fn known(&self)
        ensures { IsShape self.now }
    {
        let _ends = self.ends.len();
    }
}

impl Clone for Shape {
    ghost use Rattle.std.specs.Prelude.{◌≡◌};

    ghost is_clone = { λ s made. made ≡ s };

    fn clone(&self) -> Result<Shape, AllocError> {
        self.try_clone()
    }
}
