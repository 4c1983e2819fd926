// What no clause says: that the listing succeeds with memory at hand.
use crate::write_list;
use sop_fixed::{Real, Vec3};
use sop_model::samples::grouped_point;
use std::test::Fail;

#[test]
fn a_point_in_a_group_is_listed(rt: HostRuntime) -> Result<(), Fail> {
    let zero = Real::of_millionths(0).expect(&rt, "zero is a number");
    let half = Real::of_millionths(500_000).expect(&rt, "a half is a number");
    let place = Vec3 {
        x: zero,
        y: half,
        z: zero,
    };
    let geo = grouped_point(rt.alloc(), place)?;
    let text = write_list(rt.alloc(), &geo)?;
    let wanted =
        b"points 1\nvertices 1\nprims 1\nprim 0 closed 0\nattr point vector P\n0 0.5 0\ngroup point g 0\n";
    assert_eq!(rt; text.as_slice(), &wanted[..]);
    Ok(())
}
