//! Whole numbers of 32 bits.
ghost use Rattle.std.specs.Prelude.{◌≡◌, ◌≤◌, ◌<◌, ◌≤ℤ◌, unsigned_abs, IfOk};
ghost use Rattle.sop_fixed.specs.Arithmetic.{int_difference_of, int_product_of, int_quotient_of, int_sum_of, real_of_int, remainder_of};
ghost use Rattle.sop_fixed.specs.Numbers.{int_of, smallest_int, largest_int};

use crate::fault::NumFault;
use crate::real::{Real, UNIT};
use std::marker::Model;

/// The smallest Int.
pub const SMALLEST_INT: i64 = -2_147_483_648;

/// The largest Int.
pub const LARGEST_INT: i64 = 2_147_483_647;

/// The most units of a Real.
const LARGEST_UNITS: u64 = 1_000_000_000;

/// Above the size of each Int.
pub(crate) const SIZE_CAP: u64 = 2_147_483_649;

/// A whole number from -2,147,483,648 to 2,147,483,647.
#[derive(Clone, Copy, Debug, PartialEq, Eq, PartialOrd, Ord, Hash)]
pub struct Int {
    number: i64,
}

impl Model for Int {
    ghost use Rattle.std.specs.Prelude.{ℤ, ◌≤ℤ◌};
    ghost use Rattle.sop_fixed.specs.Numbers.{smallest_int, largest_int};

    ghost Value = { ℤ };

    ghost view = { λ i. i.number };

    ghost invariant = { λ i. (smallest_int ≤ℤ i.number) × (i.number ≤ℤ largest_int) };

    ghost inverse = { λ z. record { number = z } };
}

impl Int {
    /// The number `n`; `Range` where it is below -2,147,483,648 or above 2,147,483,647.
    pub fn of(n: i64) -> Result<Int, NumFault>
        ensures { result ≡ int_of n }
    {
        if n < SMALLEST_INT || n > LARGEST_INT {
            return Err(NumFault::Range);
        }
        Ok(Int { number: n })
    }

    /// The number.
    pub fn get(self) -> i64
        ensures value { result ≡ self }
        ensures low { smallest_int ≤ℤ result }
        ensures high { result ≤ℤ largest_int }
    {
        self.number
    }

    /// The number of so many units of a Real.
    pub(crate) fn from_units(n: i64) -> Int
        requires { unsigned_abs n ≤ LARGEST_UNITS }
        ensures { result ≡ n }
    {
        Int { number: n }
    }

    /// The sum; `Range` where it is no Int.
    pub fn add(self, b: Int) -> Result<Int, NumFault>
        ensures { result ≡ int_sum_of self b }
    {
        Int::of(self.number + b.number)
    }

    /// The difference; `Range` where it is no Int.
    pub fn sub(self, b: Int) -> Result<Int, NumFault>
        ensures { result ≡ int_difference_of self b }
    {
        Int::of(self.number - b.number)
    }

    /// The product; `Range` where it is no Int.
    pub fn mul(self, b: Int) -> Result<Int, NumFault>
        ensures { result ≡ int_product_of self b }
    {
        Int::of(self.number * b.number)
    }

    /// The quotient, cut toward zero; `DivZero` where `b` is zero, `Range` where the quotient is no Int.
    pub fn div(self, b: Int) -> Result<Int, NumFault>
        ensures { result ≡ int_quotient_of self b }
    {
        if b.number == 0 {
            return Err(NumFault::DivZero);
        }
        Int::of(self.number / b.number)
    }

    /// What is left after `b` is taken away as often as `div` says, with the sign of `self`; `DivZero` where `b` is zero.
    pub fn rem(self, b: Int) -> Result<Int, NumFault>
        ensures value { result ≡ remainder_of self b }
        ensures less { IfOk result (λ r. unsigned_abs r < unsigned_abs b) }
    {
        if b.number == 0 {
            return Err(NumFault::DivZero);
        }
        Ok(Int {
            number: self.number % b.number,
        })
    }

    /// The same number as a Real; `Range` where it is above 10^9 in size.
    pub fn to_real(self) -> Result<Real, NumFault>
        ensures { result ≡ real_of_int self }
    {
        Real::of_millionths(self.number * UNIT)
    }
}
