// Parts of a length.
ghost use Rattle.std.specs.Prelude.{◌≡◌, ◌<◌, ◌≤◌, pos, ◌*ℤ◌, neg_ℤ};
ghost use Rattle.sop_fixed.specs.Arithmetic.{rounded};

use crate::parm_texts::zero;
use sop_fixed::Real;

/// `k` of `n` equal parts of a length, rounded; `k` is at most `n`.
pub fn part_of(length: Real, k: u32, n: u32) -> Real
    requires some { 0 < n }
    requires within { k ≤ n }
    ensures { result ≡ rounded (length *ℤ pos k) (pos n) }
{
    counted(k).fit(zero(), counted(n), zero(), length)
}

/// So many millionths.
fn counted(count: u32) -> Real
    ensures { result ≡ pos count }
{
    match Real::of_millionths(i64::from(count)) {
        Ok(x) => x,
        Err(_) => unreachable!(),
    }
}

/// The number of the other sign.
pub fn negative(x: Real) -> Real
    ensures { result ≡ neg_ℤ x }
{
    match Real::of_millionths(-x.millionths()) {
        Ok(y) => y,
        Err(_) => unreachable!(),
    }
}
