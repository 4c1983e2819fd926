// A geometry of rows, read as it stands, by each call of a view.
ghost use Rattle.std.specs.Prelude.{◌≡◌, ◌<◌, ◌≤◌, ◌^◌, length, Some, None, slice_get, position};
ghost use Rattle.std.specs.Option.{option_map};
ghost use Rattle.std.specs.Str.{bytes_eq};
ghost use Rattle.sop_model.specs.Geometry.{heads_of, rows_of, IsReadable};
ghost use Rattle.sop_model.specs.Limits.{most_heads, most_groups};
ghost use Rattle.sop_model.specs.Vertices.{corners_of, size_of};

use crate::class::Class;
use crate::geo::{Corner, Geo, Head, HeadSet, Row};
use crate::primitives::PrimList;
use crate::value::{Kind, ValueRef};
use crate::view::GeoView;
use sop_outside::Text;

impl GeoView for Geo {
    ghost use Rattle.sop_model.specs.declared.geo.Geo.{Geo};

    ghost geo = { λ g. g };

    fn count(&self, class: Class) -> u32 {
        match class {
            Class::Detail => 1,
            Class::Prim => self.prims.len() as u32,
            Class::Point => self.points.len() as u32,
            Class::Vertex => self.prims.vertices() as u32,
        }
    }

    fn heads(&self, class: Class) -> u32 {
        head_set(self, class).heads.len() as u32
    }

    fn head_name(&self, class: Class, head: u32) -> &str {
        head_set(self, class).heads.get(head as usize).name.as_str()
    }

    fn head_kind(&self, class: Class, head: u32) -> Kind {
        head_set(self, class).heads.get(head as usize).kind
    }

    fn find(&self, class: Class, name: &str) -> Option<u32> {
        head_place(head_set(self, class).heads.as_slice(), name)
    }

    fn groups(&self, class: Class) -> u32 {
        head_set(self, class).groups.len() as u32
    }

    fn group_name(&self, class: Class, group: u32) -> &str {
        head_set(self, class).groups.get(group as usize).as_str()
    }

    fn find_group(&self, class: Class, name: &str) -> Option<u32> {
        group_place(head_set(self, class).groups.as_slice(), name)
    }

    fn value(&self, class: Class, head: u32, element: u32) -> ValueRef<'_> {
        row(self, class, element).values.get(head as usize).as_ref()
    }

    fn member(&self, class: Class, group: u32, element: u32) -> bool {
        *row(self, class, element).flags.get(group as usize)
    }

    fn closed(&self, prim: u32) -> bool {
        self.prims.get(prim as usize).closed
    }

    fn first_vertex(&self, prim: u32) -> u32 {
        self.prims.first_vertex(prim as usize) as u32
    }

    fn size(&self, prim: u32) -> u32 {
        self.prims.get(prim as usize).corners.len() as u32
    }

    fn point_of(&self, vertex: u32) -> u32 {
        corner(&self.prims, vertex).point
    }

    fn prim_of(&self, vertex: u32) -> u32 {
        self.prims.prim_of(u64::from(vertex)) as u32
    }
}

fn head_set(geo: &Geo, class: Class) -> &HeadSet
    ensures { result.now ≡ heads_of geo.now class }
{
    match class {
        Class::Detail => &geo.detail,
        Class::Prim => &geo.prim,
        Class::Point => &geo.point,
        Class::Vertex => &geo.vertex,
    }
}

/// The place of the attribute of this name.
fn head_place(heads: &[Head], name: &str) -> Option<u32>
    requires { length heads.now ≤ most_heads }
    ensures { result ≡ position (λ h. bytes_eq h.name name.now) heads.now }
{
    match heads.iter().position(|head| head.name.as_str() == name) {
        Some(place) => Some(place as u32),
        None => None,
    }
}

/// The place of the group of this name.
fn group_place(groups: &[Text], name: &str) -> Option<u32>
    requires { length groups.now ≤ most_groups }
    ensures { result ≡ position (λ g. bytes_eq g name.now) groups.now }
{
    match groups.iter().position(|group| group.as_str() == name) {
        Some(place) => Some(place as u32),
        None => None,
    }
}

/// The row of an element.
fn row(geo: &Geo, class: Class, element: u32) -> &Row
    requires { element < length (rows_of geo.now class) }
    ensures { slice_get (rows_of geo.now class) element ≡ Some result.now }
{
    match class {
        Class::Detail => &geo.detail_row,
        Class::Prim => &geo.prims.get(element as usize).row,
        Class::Point => geo.points.get(element as usize),
        Class::Vertex => &corner(&geo.prims, element).row,
    }
}

/// The vertex of this number.
fn corner(prims: &PrimList, vertex: u32) -> &Corner
    requires { vertex < length (corners_of prims.now) }
    ensures { slice_get (corners_of prims.now) vertex ≡ Some result.now }
{
    let number = u64::from(vertex);
    let prim = prims.prim_of(number);
    let first = prims.first_vertex(prim);
    prims.get(prim).corners.get((number - first) as usize)
}
