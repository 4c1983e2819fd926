// Numbers at the start of a text, read as they are found. What has another form is left to the words.
ghost use Rattle.std.specs.Prelude.{◌≡◌, ◌≤◌, ◌<◌, ◌++◌, length, take, true, Ok, IfSome};
ghost use Rattle.sop_fixed.specs.Numbers.{signed};
ghost use Rattle.sop_fixed.specs.Numerals.{are_digits, number_of, in_range, sign_text};
ghost use Rattle.geo_text.specs.ObjDecimals.{LeadsWith, SaysDecimal};

use crate::scan::is_apart;
use sop_fixed::Real;

/// The number that digits at the start of a text say, and how many these are. They end where the number is long.
pub(crate) fn leading_number(text: &[u8]) -> (u64, usize)
    ensures within { result.1 ≤ length text.now }
    ensures digits { are_digits (take result.1 text.now) ≡ true }
    ensures number { result.0 ≡ number_of (take result.1 text.now) }
    ensures small { result.0 < 1000000000 }
{
    let mut number = 0_u64;
    let mut len = 0;
    while number < 100_000_000 && len < text.len() && text[len].is_ascii_digit() {
        number = number * 10 + u64::from(text[len] - b'0');
        len += 1;
    }
    (number, len)
}

/// The size in millionths that digits at the start of a text say, with at most six places behind a point, and what stands behind
/// them.
fn leading_size(text: &[u8]) -> Option<(u64, &[u8])>
    ensures size { IfSome result (λ next. LeadsWith text.now next.0 next.1.now) }
    ensures shorter { IfSome result (λ next. length next.1.now ≤ length text.now) }
{
    let (whole, len) = leading_number(text);
    if len == 0 {
        return None;
    }
    let rest = &text[len..];
    let [b'.', places @ ..] = rest else {
        return Some((whole * 1_000_000, rest));
    };
    let (fraction, count) = leading_number(places);
    if count > 6 {
        return None;
    }
    let size = whole * 1_000_000 + fraction * 10_u64.pow(6 - count as u32);
    Some((size, &places[count..]))
}

/// Whether a text begins with a minus, and what stands behind it.
fn split_minus(text: &[u8]) -> (bool, &[u8])
    ensures parts { text.now ≡ sign_text result.0 ++ result.1.now }
    ensures shorter { length result.1.now ≤ length text.now }
{
    match text {
        [b'-', rest @ ..] => (true, rest),
        _ => (false, text),
    }
}

/// The number of this sign and size in millionths, where there is one.
fn real_within(negative: bool, size: u64) -> Option<Real>
    ensures { IfSome result (λ x. in_range (signed negative size) ≡ Ok x) }
{
    if size > 1_000_000_000_000_000 {
        return None;
    }
    let size = size as i64;
    Real::of_millionths(if negative { -size } else { size }).ok()
}

/// The number of a word behind one space, where it is a plain decimal, and what stands behind the word. None says nothing of the
/// text.
pub(crate) fn next_decimal(text: &[u8]) -> Option<(Real, &[u8])>
    ensures number { IfSome result (λ next. SaysDecimal text.now next.0 next.1.now) }
    ensures shorter { IfSome result (λ next. length next.1.now < length text.now) }
{
    let [b' ', word @ ..] = text else {
        return None;
    };
    let (negative, unsigned) = split_minus(word);
    let (size, rest) = leading_size(unsigned)?;
    if !is_apart(rest) {
        return None;
    }
    let number = real_within(negative, size)?;
    Some((number, rest))
}
