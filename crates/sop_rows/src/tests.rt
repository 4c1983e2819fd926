// What no clause says: that these calls succeed with memory at hand.
use crate::marks::Marks;
use sop_fixed::real::Real;
use sop_fixed::vec3::Vec3;
use sop_model::samples::grouped_point;
use std::test::Fail;

#[test]
fn marks_are_set(rt: HostRuntime) -> Result<(), Fail> {
    let x = Real::of_millionths(0).expect(&rt, "in range");
    let geo = grouped_point(rt.alloc(), Vec3 { x, y: x, z: x })?;
    let mut marks = Marks::for_view(rt.alloc(), &geo)?;
    assert!(rt; !marks.points()[0] && !marks.vertices()[0] && !marks.prims()[0]);
    marks.mark_point(0);
    marks.mark_vertex(0);
    marks.mark_prim(0, true);
    assert!(rt;
        marks.points()[0] && marks.vertices()[0] && marks.prims()[0] && marks.with_points()[0]
    );
    Ok(())
}
