//! Numbers in millionths.
ghost use Rattle.std.specs.Prelude.{◌≡◌, ◌≤◌, ◌<◌, ◌≤ℤ◌, ◌+ℤ◌, ◌-ℤ◌, ◌*ℤ◌, ◌*◌, ℕ, ℤ, pos, unsigned_abs, IfOk, IsOkAnd};
ghost use Rattle.std.specs.Int.{int_max, int_min};
ghost use Rattle.sop_fixed.specs.Arithmetic.{IsFloor, IsNearest, difference_of, fit_of, floor_of, product_of, put_between, quotient_of, remainder_of, rounded, sum_of, unit, units_of};
ghost use Rattle.sop_fixed.specs.Roots.{IsRootOf, sqrt_of, square};
ghost use Rattle.sop_fixed.specs.Numbers.{signed, is_negative, nearest, real_of, largest_size, unit_size, smallest_int, largest_int};
ghost use Rattle.sop_fixed.specs.declared.sizes.TheConstants.{LARGEST_DIFFERENCE, LARGEST_SQUARE};

use crate::fault::NumFault;
use crate::int::{Int, LARGEST_INT, SMALLEST_INT};
use crate::sizes::{nearest, product};
use crate::square_root::root;
use std::marker::Model;

/// The greatest size of a number, in millionths.
pub const LARGEST_SIZE: u64 = 1_000_000_000_000_000;

/// The millionths of one unit.
pub const UNIT: i64 = 1_000_000;

/// A whole number of millionths, at most 10^15 of them in size: from -1,000,000,000 to 1,000,000,000 units.
#[derive(Clone, Copy, Debug, PartialEq, Eq, PartialOrd, Ord, Hash)]
pub struct Real {
    millionths: i64,
}

impl Model for Real {
    ghost use Rattle.std.specs.Prelude.{ℤ, ◌≤◌, unsigned_abs};
    ghost use Rattle.sop_fixed.specs.Numbers.{largest_size};

    ghost Value = { ℤ };

    ghost view = { λ r. r.millionths };

    ghost invariant = { λ r. unsigned_abs r.millionths ≤ largest_size };

    ghost inverse = { λ z. record { millionths = z } };
}

impl Real {
    /// The number of `m` millionths; `Range` where `m` is more than 10^15 in size.
    pub fn of_millionths(m: i64) -> Result<Real, NumFault>
        ensures { result ≡ real_of m }
    {
        if m.unsigned_abs() > LARGEST_SIZE {
            return Err(NumFault::Range);
        }
        Ok(Real { millionths: m })
    }

    /// The number in millionths.
    pub fn millionths(self) -> i64
        ensures value { result ≡ self }
        ensures bound { unsigned_abs result ≤ largest_size }
    {
        self.millionths
    }

    /// The exact sum; `Range` where it is no Real.
    pub fn add(self, b: Real) -> Result<Real, NumFault>
        ensures { result ≡ sum_of self b }
    {
        Real::of_millionths(self.millionths + b.millionths)
    }

    /// The exact difference; `Range` where it is no Real.
    pub fn sub(self, b: Real) -> Result<Real, NumFault>
        ensures { result ≡ difference_of self b }
    {
        Real::of_millionths(self.millionths - b.millionths)
    }

    /// The product to the nearest millionth, halves away from zero; `Range` where it is no Real.
    pub fn mul(self, b: Real) -> Result<Real, NumFault>
        ensures value { result ≡ product_of self b }
        ensures nearest { IfOk result (λ r. IsNearest (self *ℤ b) unit r) }
    {
        let size = nearest(product(self.size(), b.size()), UNIT as u64);
        Real::of_parts(self.is_negative() != b.is_negative(), size)
    }

    /// The quotient to the nearest millionth, halves away from zero; `DivZero` where `b` is zero, `Range` where the
    /// quotient is no Real.
    pub fn div(self, b: Real) -> Result<Real, NumFault>
        ensures value { result ≡ quotient_of self b }
        ensures nearest { IfOk result (λ r. IsNearest (self *ℤ unit) b r) }
    {
        if b.size() == 0 {
            return Err(NumFault::DivZero);
        }
        let size = nearest(product(self.size(), UNIT as u64), b.size());
        Real::of_parts(self.is_negative() != b.is_negative(), size)
    }

    /// What is left, exactly, after `b` is taken away as often as the quotient says, cut toward zero; with the sign of
    /// `self`; `DivZero` where `b` is zero.
    pub fn rem(self, b: Real) -> Result<Real, NumFault>
        ensures value { result ≡ remainder_of self b }
        ensures less { IfOk result (λ r. unsigned_abs r < unsigned_abs b) }
    {
        if b.millionths == 0 {
            return Err(NumFault::DivZero);
        }
        Ok(Real {
            millionths: self.millionths % b.millionths,
        })
    }

    /// The square root, cut to millionths; `Range` where `self` is below zero.
    pub fn sqrt(self) -> Result<Real, NumFault>
        ensures value { result ≡ sqrt_of self }
        ensures greatest { pos 0 ≤ℤ self → IsOkAnd result (λ r. IsRootOf (unsigned_abs self * unit_size) r) }
    {
        if self.is_negative() {
            return Err(NumFault::Range);
        }
        Real::of_parts(false, root(product(self.size(), UNIT as u64)))
    }

    /// The greatest whole number of units that is at most `self`.
    pub fn floor(self) -> Real
        ensures value { result ≡ floor_of self }
        ensures greatest { IsFloor self result }
    {
        Real {
            millionths: self.millionths - self.millionths.rem_euclid(UNIT),
        }
    }

    /// The whole units, cut toward zero.
    pub fn to_int(self) -> Int
        ensures { result ≡ units_of self }
    {
        Int::from_units(self.millionths / UNIT)
    }

    /// The place between `nmin` and `nmax` that answers to the place of `self` between `omin` and `omax`, to the nearest
    /// millionth, halves away from zero. A number beyond one of these ends is taken as that end, whichever end is less;
    /// where the two are equal the answer is `nmin`.
    pub fn fit(self, omin: Real, omax: Real, nmin: Real, nmax: Real) -> Real
        ensures value { result ≡ fit_of self omin omax nmin nmax }
        ensures low { int_min nmin nmax ≤ℤ result }
        ensures high { result ≤ℤ int_max nmin nmax }
    {
        let width = omax.distance(omin);
        if width == 0 {
            return nmin;
        }
        let part = self.put_between(omin, omax).distance(omin);
        nmin.moved_toward(nmax, nearest(product(part, nmax.distance(nmin)), width))
    }

    pub(crate) fn is_negative(self) -> bool
        ensures { result ≡ is_negative self }
    {
        self.millionths < 0
    }

    /// The square of the number of millionths.
    pub(crate) fn square(self) -> u128
        ensures value { result ≡ square self }
        ensures bound { result ≤ LARGEST_SQUARE }
    {
        product(self.size(), self.size())
    }

    /// How far the two numbers lie apart, in millionths.
    fn distance(self, from: Real) -> u64
        ensures value { result ≡ unsigned_abs (self -ℤ from) }
        ensures bound { result ≤ LARGEST_DIFFERENCE }
    {
        self.millionths.abs_diff(from.millionths)
    }

    /// The number, or the end that it lies beyond, of the range between `a` and `b`.
    fn put_between(self, a: Real, b: Real) -> Real
        ensures { result ≡ put_between a b self }
    {
        let low = a.millionths.min(b.millionths);
        let high = a.millionths.max(b.millionths);
        Real {
            millionths: self.millionths.clamp(low, high),
        }
    }

    /// The number `step` millionths nearer to `end`.
    fn moved_toward(self, end: Real, step: u128) -> Real
        requires { step ≤ unsigned_abs (end -ℤ self) }
        ensures value { result ≡ self +ℤ signed (is_negative (end -ℤ self)) step }
        ensures low { int_min self end ≤ℤ result }
        ensures high { result ≤ℤ int_max self end }
    {
        let step = step as i64;
        Real {
            millionths: if end.millionths < self.millionths {
                self.millionths - step
            } else {
                self.millionths + step
            },
        }
    }

    /// The number without its sign, in millionths.
    pub(crate) fn size(self) -> u64
        ensures value { result ≡ unsigned_abs self }
        ensures bound { result ≤ largest_size }
    {
        self.millionths.unsigned_abs()
    }

    /// The number of this sign and size, in millionths; `Range` where the size is more than 10^15.
    pub(crate) fn of_parts(negative: bool, size: u128) -> Result<Real, NumFault>
        ensures { result ≡ real_of (signed negative size) }
    {
        if size > u128::from(LARGEST_SIZE) {
            return Err(NumFault::Range);
        }
        let size = size as i64;
        Ok(Real {
            millionths: if negative { -size } else { size },
        })
    }
}

/// The law that rounding keeps order: of two numbers by one divisor above zero, the lesser doesn't round to the greater number. The call
/// does nothing.
pub fn rounding_keeps_order()
    ensures sizes { (n m d : ℕ) → 0 < d → n ≤ m → nearest n d ≤ nearest m d }
    ensures signed { (a b : ℤ) (d : ℕ) → 0 < d → a ≤ℤ b → rounded a (pos d) ≤ℤ rounded b (pos d) }
{}

/// A law: the limits of numbers are those that the definitions say.
pub fn limits_are_as_defined()
    ensures size { LARGEST_SIZE ≡ largest_size }
    ensures unit { UNIT ≡ pos unit_size }
    ensures smallest { SMALLEST_INT ≡ smallest_int }
    ensures largest { LARGEST_INT ≡ largest_int }
{}
