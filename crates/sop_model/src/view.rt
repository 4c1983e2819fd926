// A geometry that is read, however it is kept.
ghost use Rattle.std.specs.Prelude.{◌≡◌, ◌<◌, length, Some, slice_get, position};
ghost use Rattle.std.specs.Option.{option_map};
ghost use Rattle.std.specs.Str.{bytes_eq};
ghost use Rattle.sop_model.specs.declared.geo.Geo.{Geo};
ghost use Rattle.sop_model.specs.Geometry.{heads_of, count_of, value_at, flag_at, IsReadable};
ghost use Rattle.sop_model.specs.Vertices.{corners_of, first_vertex_in, prim_in, size_of};
ghost use Rattle.sop_model.specs.Values.{value_seen};

use crate::class::Class;
use crate::value::{Kind, ValueRef};

/// A geometry that is read. No call takes memory. Elements, heads and groups are numbered from 0 within their class,
/// and vertices primitive by primitive.
pub trait GeoView {
    /// The geometry.
    ghost geo: { Self → Geo };

    /// How many elements the class has; 1 for the detail.
    fn count(&self, class: Class) -> u32
        requires { IsReadable (geo self.now) }
        ensures { result ≡ count_of (geo self.now) class };

    /// How many attributes the class has.
    fn heads(&self, class: Class) -> u32
        requires { IsReadable (geo self.now) }
        ensures { result ≡ length (heads_of (geo self.now) class).heads };

    /// The name of an attribute.
    fn head_name(&self, class: Class, head: u32) -> &str
        requires readable { IsReadable (geo self.now) }
        requires in_range { head < length (heads_of (geo self.now) class).heads }
        ensures { option_map (λ h. h.name) (slice_get (heads_of (geo self.now) class).heads head) ≡ Some result.now };

    /// The kind of an attribute.
    fn head_kind(&self, class: Class, head: u32) -> Kind
        requires readable { IsReadable (geo self.now) }
        requires in_range { head < length (heads_of (geo self.now) class).heads }
        ensures { option_map (λ h. h.kind) (slice_get (heads_of (geo self.now) class).heads head) ≡ Some result };

    /// The number of the attribute of this name; None exactly where there is none.
    fn find(&self, class: Class, name: &str) -> Option<u32>
        requires { IsReadable (geo self.now) }
        ensures { result ≡ position (λ h. bytes_eq h.name name.now) (heads_of (geo self.now) class).heads };

    /// How many groups the class has.
    fn groups(&self, class: Class) -> u32
        requires { IsReadable (geo self.now) }
        ensures { result ≡ length (heads_of (geo self.now) class).groups };

    /// The name of a group.
    fn group_name(&self, class: Class, group: u32) -> &str
        requires readable { IsReadable (geo self.now) }
        requires in_range { group < length (heads_of (geo self.now) class).groups }
        ensures { slice_get (heads_of (geo self.now) class).groups group ≡ Some result.now };

    /// The number of the group of this name; None exactly where there is none.
    fn find_group(&self, class: Class, name: &str) -> Option<u32>
        requires { IsReadable (geo self.now) }
        ensures { result ≡ position (λ g. bytes_eq g name.now) (heads_of (geo self.now) class).groups };

    /// The value of an attribute at an element.
    fn value(&self, class: Class, head: u32, element: u32) -> ValueRef<'_>
        requires readable { IsReadable (geo self.now) }
        requires head { head < length (heads_of (geo self.now) class).heads }
        requires element { element < count_of (geo self.now) class }
        ensures { value_at (geo self.now) class head element ≡ Some (value_seen result) };

    /// Whether an element is a member of a group.
    fn member(&self, class: Class, group: u32, element: u32) -> bool
        requires readable { IsReadable (geo self.now) }
        requires group { group < length (heads_of (geo self.now) class).groups }
        requires element { element < count_of (geo self.now) class }
        ensures { flag_at (geo self.now) class group element ≡ Some result };

    /// Whether a primitive is closed.
    fn closed(&self, prim: u32) -> bool
        requires readable { IsReadable (geo self.now) }
        requires in_range { prim < length (geo self.now).prims }
        ensures { option_map (λ p. p.closed) (slice_get (geo self.now).prims prim) ≡ Some result };

    /// The number of a primitive's first vertex.
    fn first_vertex(&self, prim: u32) -> u32
        requires readable { IsReadable (geo self.now) }
        requires in_range { prim < length (geo self.now).prims }
        ensures { result ≡ first_vertex_in (geo self.now).prims prim };

    /// How many vertices a primitive has.
    fn size(&self, prim: u32) -> u32
        requires readable { IsReadable (geo self.now) }
        requires in_range { prim < length (geo self.now).prims }
        ensures { option_map size_of (slice_get (geo self.now).prims prim) ≡ Some result };

    /// The point that a vertex refers to.
    fn point_of(&self, vertex: u32) -> u32
        requires readable { IsReadable (geo self.now) }
        requires in_range { vertex < length (corners_of (geo self.now).prims) }
        ensures { option_map (λ c. c.point) (slice_get (corners_of (geo self.now).prims) vertex) ≡ Some result };

    /// The primitive that a vertex belongs to.
    fn prim_of(&self, vertex: u32) -> u32
        requires readable { IsReadable (geo self.now) }
        requires in_range { vertex < length (corners_of (geo self.now).prims) }
        ensures { result ≡ prim_in (geo self.now).prims vertex };
}

/// The views of a node's inputs 0 to 3.
#[derive(Debug, Drop)]
pub struct Inputs<V> {
    pub a: V,
    pub b: V,
    pub c: V,
    pub d: V,
}
