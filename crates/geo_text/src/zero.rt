// The vector of zeros.
ghost use Rattle.std.specs.Prelude.{◌≡◌, pos};
ghost use Rattle.sop_model.specs.Values.{zero_vector};

use sop_fixed::{Real, Vec3};

fn zero_real() -> Real
    ensures { result ≡ pos 0 }
{
    match Real::of_millionths(0) {
        Ok(zero) => zero,
        Err(_) => unreachable!(),
    }
}

pub(crate) fn zero_vector() -> Vec3
    ensures { result ≡ zero_vector }
{
    let zero = zero_real();
    Vec3 {
        x: zero,
        y: zero,
        z: zero,
    }
}
