// What no clause says: that these calls succeed with memory at hand.
ghost use Rattle.std.specs.Prelude.{◌≡◌, ◌<◌, [], ◌∷◌, All, IfOk};
ghost use Rattle.sop_fixed.specs.declared.vec3.Vec3.{Vec3};
ghost use Rattle.sop_model.specs.Geometry.{IsReadable};
ghost use Rattle.sop_model.specs.Samples.{grouped_point, one_vertex};

use crate::samples::{grouped_point, one_vertex};
use crate::{
    Class, Copied, Corner, Fault, Geo, GeoView, Kind, PrimList, Row, Value, ValueRef, place_of,
};
use sop_fixed::real::Real;
use sop_fixed::vec3::Vec3;
use sop_outside::Text;
use std::alloc::{AllocError, Global};
use std::test::Fail;

/// A vertex for each of the first two primitives.
fn two_adds(alloc: Global) -> Result<Vec<(u32, Corner)>, AllocError>
    ensures { IfOk result (λ adds. All (λ a. a.0 < 2) adds.items) }
{
    let mut adds = Vec::new(alloc);
    for prim in 0..2 {
        let row = Row::empty(alloc);
        adds.push((prim, Corner { point: 5, row }))?;
    }
    Ok(adds)
}

/// Two primitives of one vertex each.
fn two_prims(alloc: Global) -> Result<PrimList, AllocError>
    ensures { IfOk result (λ prims. prims ≡ one_vertex ∷ one_vertex ∷ []) }
{
    let mut prims = PrimList::from_vec(alloc, Vec::new(alloc))?;
    prims.push(one_vertex(alloc)?).map_err(|refused| refused.1)?;
    prims.push(one_vertex(alloc)?).map_err(|refused| refused.1)?;
    Ok(prims)
}

#[test]
fn vertices_are_added(rt: HostRuntime) -> Result<(), Fail> {
    let mut prims = two_prims(rt.alloc())?;
    prims.add_corners(two_adds(rt.alloc())?)?;
    assert!(rt; prims.first_vertex(1) == 2 && prims.prim_of(3) == 1);
    let copy = prims.copy(rt.alloc())?;
    assert!(rt; copy.into_vec().len() == 2);
    Ok(())
}

/// Whether the one point, its group and its primitive are found.
fn is_read(geo: &Geo) -> bool
    requires readable { IsReadable geo.now }
    requires sample { (place : Vec3) × (geo.now ≡ grouped_point place) }
{
    geo.count(Class::Vertex) == 1
        && geo.find(Class::Point, "P") == Some(0)
        && geo.find_group(Class::Point, "g") == Some(0)
        && geo.member(Class::Point, 0, 0)
        && matches!(geo.value(Class::Point, 0, 0), ValueRef::Vector(_))
        && place_of(geo, 0).x.millionths() == 7
        && geo.prim_of(0) == 0
}

#[test]
fn geometries_are_made(rt: HostRuntime) -> Result<(), Fail> {
    let x = Real::of_millionths(7).expect(&rt, "in range");
    let place = Vec3 { x, y: x, z: x };
    let geo = grouped_point(rt.alloc(), place)?;
    assert!(rt; is_read(&geo) && geo.copy(rt.alloc())?.prims.len() == 1);
    assert!(rt; Geo::of_points(rt.alloc(), &[place, place])?.points.len() == 2);
    Ok(())
}

#[test]
fn texts_are_copied(rt: HostRuntime) -> Result<(), Fail> {
    let text = Value::Str(Text::from_str(rt.alloc(), "eight by")?);
    let copy = text.copy(rt.alloc())?;
    assert!(rt; copy.as_ref().weight() == 2 && copy.put(Kind::Str).is_some());
    let mut line = Vec::from_slice(rt.alloc(), b"m: ")?;
    Fault::NoInput(31).print(&mut line)?;
    assert_eq!(rt; line.as_slice(), b"m: NoInput 31".as_slice());
    Ok(())
}
