//! Square roots of sizes, cut to whole numbers.
ghost use Rattle.std.specs.Prelude.{◌≡◌, ◌+◌, ◌*◌, ◌<◌, ◌≤◌};
ghost use Rattle.sop_fixed.specs.Roots.{IsRoot, root_of};
ghost use Rattle.sop_fixed.specs.declared.sizes.TheConstants.{LARGEST_DIFFERENCE, LARGEST_PRODUCT};

use crate::sizes::{LARGEST_DIFFERENCE, product};

/// The greatest whole number whose square is at most n.
pub(crate) fn root(n: u128) -> u128
    requires { n ≤ LARGEST_PRODUCT }
    ensures value { result ≡ root_of n }
    ensures greatest { IsRoot n result }
{
    root_below(n, above_root(n, guess(n.max(1))))
}

/// A number near the root of n, at least 1: how near it is decides how long the root takes, and no answer. Its first half
/// of the bits is right, so that `above_root` of it is at most 3 above the root. A front of nothing but ones would give 33
/// bits, of which the first must not be lost.
fn guess(n: u128) -> u64
    requires { 0 < n }
    ensures { 0 < result }
{
    let half = n.leading_zeros() / 2;
    let front = ((n << (2 * half)) >> 64) as u64;
    let start = (1 << 31) + (front >> 33);
    let near = closer(front, closer(front, closer(front, start)));
    ((near.min(u64::from(u32::MAX)) << 32) >> half).max(1)
}

/// Newton's step: the middle between x and n / x, at least 1.
fn closer(n: u64, x: u64) -> u64
    requires { 0 < x }
    ensures { 0 < result }
{
    (x.saturating_add(n / x) / 2).max(1)
}

/// Newton's step from any number: what it gives isn't below the root of n.
fn above_root(n: u128, x: u64) -> u64
    requires positive { 0 < x }
    requires within { n ≤ LARGEST_PRODUCT }
    ensures above { n < (result + 1) * (result + 1) }
    ensures small { result ≤ LARGEST_DIFFERENCE }
{
    let x = u128::from(x);
    let middle = (x + n / x) / 2;
    middle.min(u128::from(LARGEST_DIFFERENCE)) as u64
}

/// The root of n, sought downward from a number that isn't below it.
fn root_below(n: u128, start: u64) -> u128
    requires above { n < (start + 1) * (start + 1) }
    requires small { start ≤ LARGEST_DIFFERENCE }
    ensures { IsRoot n result }
{
    let mut root = start;
    while product(root, root) > n {
        root -= 1;
    }
    u128::from(root)
}
