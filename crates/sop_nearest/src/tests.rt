// What no clause says: that the calls succeed with memory at hand.
ghost use Rattle.std.specs.Prelude.{◌≡◌};

use crate::Near;
use sop_fixed::{Real, Vec3};
use sop_model::Geo;
use std::process::Abort;
use std::test::Fail;

/// A number of millionths.
fn real(rt: &impl Abort, millionths: i64) -> Real
    ensures { result ≡ millionths }
{
    Real::of_millionths(millionths).expect(rt, "it is in range")
}

#[test]
fn points_within_the_radius_are_found(rt: HostRuntime) -> Result<(), Fail> {
    let zero = real(&rt, 0);
    let at = |x: Real| Vec3 {
        x,
        y: zero,
        z: zero,
    };
    let places = [at(zero), at(real(&rt, 1_000_000)), at(real(&rt, 500_000))];
    let geo = Geo::of_points(rt.alloc(), &places)?;
    let near = Near::new(rt.alloc(), &geo, real(&rt, 500_000))?;
    let found = near.near(rt.alloc(), at(zero), real(&rt, 500_000))?;
    assert_eq!(rt; found.as_slice(), &[0, 2][..]);
    Ok(())
}
