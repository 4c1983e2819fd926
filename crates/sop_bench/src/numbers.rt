// Random numbers and places.
ghost use Rattle.std.specs.Prelude.{◌<◌};

use sop_fixed::{NumFault, Real, Vec3};

/// What the state is multiplied with.
const FACTOR: u64 = 6_364_136_223_846_793_005;

/// What is added to the state.
const STEP: u64 = 1_442_695_040_888_963_407;

/// Half as many numbers as there are.
const MIDDLE: i64 = 536_870_912;

/// A linear generator. Its numbers are small enough for the result of each operation to be in range.
#[derive(Drop)]
pub struct Numbers {
    state: u64,
}

impl Numbers {
    /// The numbers, the same ones each time.
    pub fn new() -> Numbers {
        Numbers { state: 1 }
    }

    fn bits(&mut self) -> u32 {
        self.state = self.state.wrapping_mul(FACTOR).wrapping_add(STEP);
        (self.state >> 34) as u32
    }

    /// A number of at most 536,870,912 millionths in size.
    pub fn signed(&mut self) -> Result<Real, NumFault> {
        Real::of_millionths(i64::from(self.bits()) - MIDDLE)
    }

    /// A number from 1 to 1,073,741,824 millionths.
    pub fn positive(&mut self) -> Result<Real, NumFault> {
        Real::of_millionths(i64::from(self.bits()) + 1)
    }

    /// A whole number below `end`.
    pub fn index_below(&mut self, end: u32) -> u32
        requires { 0 < end }
        ensures { result < end }
    {
        self.bits() % end
    }

    /// A number from 0 to before so many millionths.
    fn below(&mut self, end: u64) -> Result<Real, NumFault>
        requires { 0 < end }
    {
        Real::of_millionths((u64::from(self.bits()) % end) as i64)
    }

    /// A place in a box of 0.01 times `size` by 1 by 1.
    pub fn place(&mut self, size: u32) -> Result<Vec3, NumFault> {
        let width = u64::from(size.max(1)) * 10_000;
        Ok(Vec3 {
            x: self.below(width)?,
            y: self.below(1_000_000)?,
            z: self.below(1_000_000)?,
        })
    }
}
