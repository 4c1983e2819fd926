// Runs of one operation on numbers.
use crate::checksum::added;
use crate::numbers::Numbers;
use sop_fixed::{NumFault, Real, Vec3};

/// A checksum of `size` results, which depends on their order.
pub fn checksum(operation: Operation, size: u32) -> Result<u64, NumFault> {
    let mut numbers = Numbers::new();
    let mut sum = 0;
    for _ in 0..size {
        let result = operation.apply(&mut numbers)?;
        sum = added(sum, result.millionths().cast_unsigned());
    }
    Ok(sum)
}

/// An operation on numbers.
#[derive(Clone, Copy)]
pub enum Operation {
    /// The product of two numbers.
    Mul,
    /// The quotient of two numbers.
    Div,
    /// The rest of a division.
    Rem,
    /// The square root of a number.
    Sqrt,
    /// The length of a vector.
    Length,
}

impl Operation {
    /// What the operation gives for the next numbers.
    fn apply(self, numbers: &mut Numbers) -> Result<Real, NumFault> {
        match self {
            Operation::Mul => numbers.signed()?.mul(numbers.signed()?),
            Operation::Div => numbers.signed()?.div(numbers.positive()?),
            Operation::Rem => numbers.signed()?.rem(numbers.positive()?),
            Operation::Sqrt => numbers.positive()?.sqrt(),
            Operation::Length => Vec3 {
                x: numbers.signed()?,
                y: numbers.signed()?,
                z: numbers.signed()?,
            }
            .length(),
        }
    }
}
