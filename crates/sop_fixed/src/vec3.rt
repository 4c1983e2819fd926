//! Vectors of three numbers.
ghost use Rattle.std.specs.Prelude.{◌≡◌, ◌+◌, IfOk};
ghost use Rattle.sop_fixed.specs.Roots.{IsRootOf, length_of, square};

use crate::fault::NumFault;
use crate::real::Real;
use crate::square_root::root;

/// A place or a direction in space, in millionths along each axis.
#[derive(Clone, Copy, Debug, PartialEq, Eq, Hash)]
pub struct Vec3 {
    pub x: Real,
    pub y: Real,
    pub z: Real,
}

impl Vec3 {
    /// The length, cut to millionths; `Range` where it is no Real.
    pub fn length(self) -> Result<Real, NumFault>
        ensures value { result ≡ length_of self.x self.y self.z }
        ensures greatest { IfOk result (λ r. IsRootOf (square self.x + square self.y + square self.z) r) }
    {
        let squares = self.x.square() + self.y.square() + self.z.square();
        Real::of_parts(false, root(squares))
    }
}
