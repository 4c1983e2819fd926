//! What takes a geometry that is read.
ghost use Rattle.std.specs.Prelude.{◌≡◌, length, OnOk, position};
ghost use Rattle.std.specs.Str.{bytes_eq};
ghost use Rattle.sop_model.specs.declared.geo.Geo.{Geo};
ghost use Rattle.geo_text.specs.declared.taker.Attributes.{Attributes};
ghost use Rattle.geo_text.specs.ObjTaking.{begun, point_taken, prim_taken, group_taken};

use sop_fixed::Vec3;
use sop_outside::Text;
use std::alloc::AllocError;

/// Which attributes a geometry has beside `P`, each of them a vector.
#[derive(Clone, Copy, Debug)]
pub struct Attributes {
    /// `Cd` of the points.
    pub colour: bool,
    /// `uv` of the vertices.
    pub texture: bool,
    /// `N` of the vertices.
    pub normal: bool,
}

/// A vertex: the number of its point, from 0, and its values, which are looked at where there are such attributes.
#[derive(Clone, Copy, Debug)]
pub struct Vertex {
    pub point: u32,
    pub texture: Vec3,
    pub normal: Vec3,
}

/// How many elements will come. Room for them is made beforehand; it says nothing of what is taken.
#[derive(Clone, Copy, Debug)]
pub struct Room {
    pub points: usize,
    pub prims: usize,
    pub vertices: usize,
}

/// What takes a geometry that is read, point by point and primitive by primitive. After an `Err`, which is want of memory, what
/// was taken is of no use.
pub trait ObjTaker {
    /// The attributes that it began with.
    ghost attributes: { Self → Attributes };

    /// What was taken so far.
    ghost taken: { Self → Geo };

    /// Begins a geometry without elements, in place of what was taken before, with room for what will come.
    fn begin(&mut self, has: Attributes, room: Room) -> Result<(), AllocError>
        ensures attributes { OnOk result (attributes self.new ≡ has) }
        ensures taken { OnOk result (taken self.new ≡ begun has) };

    /// Takes the next point; one without a colour has zero where there is the attribute.
    fn take_point(&mut self, place: Vec3, colour: Option<Vec3>) -> Result<(), AllocError>
        ensures attributes { OnOk result (attributes self.new ≡ attributes self.old) }
        ensures taken { OnOk result (taken self.new ≡ point_taken (attributes self.old) place colour (taken self.old)) };

    /// How many groups of primitives were taken.
    fn groups(&self) -> usize
        ensures { result ≡ length (taken self.now).prim.groups };

    /// The number of the group of this name; None exactly where there is none.
    fn find_group(&self, name: &str) -> Option<usize>
        ensures { result ≡ position (λ g. bytes_eq g name.now) (taken self.now).prim.groups };

    /// Takes the next group of primitives, without members.
    fn take_group(&mut self, name: Text) -> Result<(), AllocError>
        ensures attributes { OnOk result (attributes self.new ≡ attributes self.old) }
        ensures taken { OnOk result (taken self.new ≡ group_taken name (taken self.old)) };

    /// Takes the next primitive, with its vertices in order, and whether it is in each group.
    fn take_prim(
        &mut self,
        closed: bool,
        vertices: &[Vertex],
        groups: &[bool],
    ) -> Result<(), AllocError>
        ensures attributes { OnOk result (attributes self.new ≡ attributes self.old) }
        ensures taken { OnOk result (taken self.new ≡ prim_taken (attributes self.old) closed vertices.now groups.now (taken self.old)) };
}
