// A geometry in columns, as it is read.
ghost use Rattle.std.specs.Prelude.{◌≡◌, ◌<◌, ◌&&◌, ◌==◌, length, Some, unwrap_or, slice_get, false};
ghost use Rattle.sop_model.specs.declared.class.Class.TheVariants.{Point, Vertex};
ghost use Rattle.sop_model.specs.declared.value.Value.TheVariants as value;
ghost use Rattle.sop_model.specs.Geometry.{heads_of, count_of, value_at, IsReadable};
ghost use Rattle.geo_text.specs.ObjColumns.{columns_geo, frame_of};

use crate::columns::{ObjColumns, Outline};
use sop_fixed::Vec3;
use sop_model::{Class, GeoView, Kind, ValueRef};

impl Outline {
    /// Whether it is in a group: in none that came later.
    fn is_member(&self, group: usize) -> bool
        ensures { result ≡ unwrap_or (slice_get self.now.flags.items group) false }
    {
        self.flags.get(group).copied().unwrap_or(false)
    }
}

impl ObjColumns {
    /// The value of an attribute at a point.
    fn point_vector(&self, head: u32, point: u32) -> Vec3
        requires head { head < length (heads_of (columns_geo self.now) Point).heads }
        requires point { point < count_of (columns_geo self.now) Point }
        ensures { value_at (columns_geo self.now) Point head point ≡ Some (value.Vector result) }
    {
        if head == 0 {
            self.places[point as usize]
        } else {
            self.colours[point as usize]
        }
    }

    /// Whether an attribute of the vertices is that of texture coordinates.
    fn is_texture(&self, head: u32) -> bool
        ensures { result ≡ (self.now.attributes.texture && (head == 0)) }
    {
        self.attributes.texture && head == 0
    }

    /// The value of an attribute at a vertex.
    fn vertex_vector(&self, head: u32, vertex: u32) -> Vec3
        requires head { head < length (heads_of (columns_geo self.now) Vertex).heads }
        requires vertex { vertex < count_of (columns_geo self.now) Vertex }
        ensures { value_at (columns_geo self.now) Vertex head vertex ≡ Some (value.Vector result) }
    {
        if self.is_texture(head) {
            self.vertices.textures[vertex as usize]
        } else {
            self.vertices.normals[vertex as usize]
        }
    }
}

impl ObjColumns {
    /// Tells which attributes there are. It does nothing.
    fn is_framed(&self)
        ensures { self.now.frame ≡ frame_of self.now.attributes self.now.frame.prim.groups }
    {
        let _ = &self.frame;
    }
}

impl GeoView for ObjColumns {
    ghost use Rattle.geo_text.specs.ObjColumns.{columns_geo};

    ghost geo = { λ c. columns_geo c };

    fn count(&self, class: Class) -> u32 {
        match class {
            Class::Detail => 1,
            Class::Prim => self.ends.len() as u32,
            Class::Point => self.places.len() as u32,
            Class::Vertex => self.vertex_count(),
        }
    }

    fn heads(&self, class: Class) -> u32 {
        self.frame.heads(class)
    }

    fn head_name(&self, class: Class, head: u32) -> &str {
        self.frame.head_name(class, head)
    }

    fn head_kind(&self, class: Class, head: u32) -> Kind {
        self.frame.head_kind(class, head)
    }

    fn find(&self, class: Class, name: &str) -> Option<u32> {
        self.frame.find(class, name)
    }

    fn groups(&self, class: Class) -> u32 {
        self.frame.groups(class)
    }

    fn group_name(&self, class: Class, group: u32) -> &str {
        self.frame.group_name(class, group)
    }

    fn find_group(&self, class: Class, name: &str) -> Option<u32> {
        self.frame.find_group(class, name)
    }

    fn value(&self, class: Class, head: u32, element: u32) -> ValueRef<'_> {
        self.is_framed();
        match class {
            Class::Point => ValueRef::Vector(self.point_vector(head, element)),
            Class::Vertex => ValueRef::Vector(self.vertex_vector(head, element)),
            Class::Detail | Class::Prim => unreachable!(),
        }
    }

    fn member(&self, class: Class, group: u32, element: u32) -> bool {
        match class {
            Class::Prim => self.outlines[element as usize].is_member(group as usize),
            Class::Detail | Class::Point | Class::Vertex => unreachable!(),
        }
    }

    fn closed(&self, prim: u32) -> bool {
        self.outlines[prim as usize].closed
    }

    fn first_vertex(&self, prim: u32) -> u32 {
        if prim == 0 {
            0
        } else {
            self.ends[prim as usize - 1]
        }
    }

    fn size(&self, prim: u32) -> u32 {
        self.ends[prim as usize] - self.first_vertex(prim)
    }

    fn point_of(&self, vertex: u32) -> u32 {
        self.vertices.refers[vertex as usize]
    }

    fn prim_of(&self, vertex: u32) -> u32 {
        self.ends.partition_point(|end| *end <= vertex) as u32
    }
}
