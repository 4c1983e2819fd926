// Geometries with the attribute `P` alone, made of places and primitives.
ghost use Rattle.std.specs.Prelude.{◌≡◌, ◌≤◌, length, map, IfOk};
ghost use Rattle.sop_model.specs.Geometry.{IsGood, Fits, IsReadable};
ghost use Rattle.sop_model.specs.Limits.{most_points};
ghost use Rattle.sop_model.specs.Plain.{plain_geo, geo_of_points, point_row};

use crate::geo::{Geo, HeadSet, Row, RowList};
use crate::primitives::PrimList;
use crate::value::Value;
use sop_fixed::vec3::Vec3;
use sop_outside::Items;
use std::alloc::{AllocError, Global};

impl Geo {
    /// The geometry of these points and primitives, with the attribute `P` alone.
    pub fn plain(alloc: Global, points: RowList, prims: PrimList) -> Result<Geo, AllocError>
        ensures { IfOk result (λ geo. geo ≡ plain_geo points prims) }
    {
        Ok(Geo {
            detail: HeadSet::empty(alloc),
            prim: HeadSet::empty(alloc),
            point: HeadSet::position(alloc)?,
            vertex: HeadSet::empty(alloc),
            points,
            prims,
            detail_row: Row::empty(alloc),
        })
    }

    /// Points alone, at these places; at most 1,000,000 of them.
    #[tactic(auto, using(crate::proofs::PlainLimits::points_are_good, crate::proofs::PlainLimits::points_fit, crate::proofs::LimitsLemmas::readable_of))]
    pub fn of_points(alloc: Global, places: &[Vec3]) -> Result<Geo, AllocError>
        requires { length places.now ≤ most_points }
        ensures value { IfOk result (λ geo. geo ≡ geo_of_points places.now) }
        ensures good { IfOk result IsGood }
        ensures fits { IfOk result Fits }
        ensures readable { IfOk result IsReadable }
    {
        let points = rows_of_places(alloc, places)?;
        Geo::plain(alloc, points, PrimList::new(alloc))
    }
}

/// The rows of points that have a place and nothing else, in order.
fn rows_of_places(alloc: Global, places: &[Vec3]) -> Result<RowList, AllocError>
    ensures { IfOk result (λ rows. rows ≡ map point_row places.now) }
{
    let mut rows = RowList::with_capacity(alloc, places.len())?;
    for place in places {
        rows.add(Row::of_place(alloc, *place)?)?;
    }
    Ok(rows)
}

impl Row {
    /// The row of a point that has a place and nothing else.
    pub fn of_place(alloc: Global, place: Vec3) -> Result<Row, AllocError>
        ensures { IfOk result (λ row. row ≡ point_row place) }
    {
        let mut values = Vec::with_capacity(alloc, 1)?;
        values.push(Value::Vector(place))?;
        Ok(Row {
            values: Items::from_vec(values),
            flags: Items::new(alloc),
        })
    }
}
