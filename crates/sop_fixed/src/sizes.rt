//! Products and quotients of sizes, in 128 bits.
ghost use Rattle.std.specs.Prelude.{◌≡◌, ◌≤◌, ◌<◌, ◌*◌};
ghost use Rattle.sop_fixed.specs.Numbers.{nearest};

/// The largest difference of two Reals, in millionths.
pub(crate) const LARGEST_DIFFERENCE: u64 = 2_000_000_000_000_000;

/// The largest square of a Real, in millionths of millionths.
pub(crate) const LARGEST_SQUARE: u128 = 1_000_000_000_000_000_000_000_000_000_000;

/// The largest product of two such differences.
pub(crate) const LARGEST_PRODUCT: u128 = 4_000_000_000_000_000_000_000_000_000_000;

/// The product of two sizes, or of two differences of Reals.
pub(crate) fn product(a: u64, b: u64) -> u128
    requires left { a ≤ LARGEST_DIFFERENCE }
    requires right { b ≤ LARGEST_DIFFERENCE }
    ensures value { result ≡ a * b }
    ensures bound { result ≤ LARGEST_PRODUCT }
{
    u128::from(a) * u128::from(b)
}

/// n / d to the nearest whole number, a half to the one above.
pub(crate) fn nearest(n: u128, d: u64) -> u128
    requires nonzero { 0 < d }
    requires dividend { n ≤ LARGEST_PRODUCT }
    requires divisor { d ≤ LARGEST_DIFFERENCE }
    ensures { result ≡ nearest n d }
{
    let d = u128::from(d);
    (2 * n + d) / (2 * d)
}
