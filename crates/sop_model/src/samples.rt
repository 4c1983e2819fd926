// A small geometry for the tests of this crate and of those above. No other code makes it.
ghost use Rattle.std.specs.Prelude.{◌≡◌, IfOk};
ghost use Rattle.sop_model.specs.Geometry.{IsReadable};
ghost use Rattle.sop_model.specs.Samples.{grouped_point, grouped_set, member_row, one_vertex};

use crate::geo::{Corner, CornerList, FlagList, Geo, HeadSet, Primitive, Row, RowList};
use crate::primitives::PrimList;
use sop_fixed::vec3::Vec3;
use sop_outside::{Text, TextList};
use std::alloc::{AllocError, Global};

/// A point that is in the group `g`, and a closed primitive of one vertex.
#[tactic(auto, using(crate::proofs::SampleLemmas::sample_is_readable))]
pub fn grouped_point(alloc: Global, place: Vec3) -> Result<Geo, AllocError>
    ensures value { IfOk result (λ geo. geo ≡ grouped_point place) }
    ensures readable { IfOk result IsReadable }
{
    made_point(alloc, place)
}

fn made_point(alloc: Global, place: Vec3) -> Result<Geo, AllocError>
    ensures { IfOk result (λ geo. geo ≡ grouped_point place) }
{
    let mut points = RowList::new(alloc);
    points.add(member(alloc, place)?)?;
    let mut prims = PrimList::new(alloc);
    prims.push(one_vertex(alloc)?).map_err(|refused| refused.1)?;
    let mut geo = Geo::plain(alloc, points, prims)?;
    geo.point = grouped(alloc)?;
    Ok(geo)
}

/// A point at a place, and a member of the one group.
fn member(alloc: Global, place: Vec3) -> Result<Row, AllocError>
    ensures { IfOk result (λ row. row ≡ member_row place) }
{
    let Row { values, flags: _ } = Row::of_place(alloc, place)?;
    let mut flags = FlagList::new(alloc);
    flags.add(true)?;
    Ok(Row { values, flags })
}

/// A closed primitive of one vertex, which refers to point 0.
pub fn one_vertex(alloc: Global) -> Result<Primitive, AllocError>
    ensures { IfOk result (λ prim. prim ≡ one_vertex) }
{
    let row = Row::empty(alloc);
    let mut corners = CornerList::new(alloc);
    corners.add(Corner { point: 0, row })?;
    Ok(Primitive {
        closed: true,
        row: Row::empty(alloc),
        corners,
    })
}

/// The attribute `P` and the group `g`.
fn grouped(alloc: Global) -> Result<HeadSet, AllocError>
    ensures { IfOk result (λ set. set ≡ grouped_set) }
{
    let HeadSet { heads, groups: _ } = HeadSet::position(alloc)?;
    let mut groups = TextList::new(alloc);
    groups.add(Text::from_str(alloc, "g")?)?;
    Ok(HeadSet { heads, groups })
}
