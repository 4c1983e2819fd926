//! Numerals: decimal texts of numbers, read and printed.
ghost use Rattle.std.specs.Prelude.{◌≡◌, ◌++◌, ◌+◌, ◌*◌, ◌^◌, ◌<◌, ◌≤◌, ◌||◌, not, length, min, OnOk, OnErr, IfSome, IsTrue, is_some, position};
ghost use Rattle.std.specs.List.{list_all, before_first, after_first};
ghost use Rattle.std.specs.Char.{is_ascii_digit};
ghost use Rattle.sop_fixed.specs.Numbers.{signed, unit_size, nearest};
ghost use Rattle.sop_fixed.specs.Numerals.{has_minus, after_sign, whole_of, fraction_of, is_some_digits, is_point, is_exponent_mark, places_up, places_down, in_range, value_of, decimal_of, digits_of, number_of, sign_text, six_digits, without_last_zeros, fraction_text};

use crate::digits::{are_digits, number_within, scaled, short_number};
use crate::fault::NumeralFault;
use crate::real::{Real, UNIT};
use itoa::{Buffer, write_digits};
use std::alloc::AllocError;

/// Above the number of bytes of each text.
const FAR: u128 = 1_000_000_000_000_000_000_000_000_000_000;

/// The number that a text says: an optional sign, digits with at most one point and at least one digit, then optionally
/// `e` or `E`, an optional sign and digits. Its exact value is rounded to millionths, halves away from zero.
/// `NotNumeral` where the text has another form, `OutOfRange` where the rounded number is more than 10^15 millionths in
/// size. The time is linear in the length of the text, whatever its digits and its exponent say.
pub fn read_numeral(text: &[u8]) -> Result<Real, NumeralFault>
    ensures { result ≡ value_of text.now }
{
    let (negative, unsigned) = split_sign(text);
    if let Some(size) = short_size(unsigned) {
        return real_within(negative, u128::from(size));
    }
    let (mantissa, exponent, is_marked) = split_exponent(unsigned);
    let (whole, fraction) = split_point(mantissa);
    if !is_mantissa(whole, fraction) || !is_exponent(is_marked, exponent) {
        return Err(NumeralFault::NotNumeral);
    }
    let (up, down) = places(exponent);
    real_within(
        negative,
        scaled(whole, fraction, 6 + up, fraction.len() as u128 + down),
    )
}

/// The size in millionths of a plain decimal that is short enough to be exact in 64 bits, which most numerals are: at
/// most 12 digits and, behind a point, at most 6 more, with neither sign nor exponent. None says nothing of the text.
fn short_size(text: &[u8]) -> Option<u64>
    ensures digits { IfSome result (λ size. IsTrue (is_some_digits (digits_of text.now))) }
    ensures size { IfSome result (λ size. size ≡ nearest (number_of (digits_of text.now) * 10 ^ 6) (10 ^ length (fraction_of text.now))) }
{
    let (whole, fraction) = split_point(text);
    if whole.len() > 12 || fraction.len() > 6 || whole.is_empty() && fraction.is_empty() {
        return None;
    }
    let number = short_number(short_number(0, whole)?, fraction)?;
    Some(number * 10_u64.pow(6 - fraction.len() as u32))
}

/// Whether the text begins with a minus, and what follows its sign.
fn split_sign(text: &[u8]) -> (bool, &[u8])
    ensures minus { result.0 ≡ has_minus text.now }
    ensures after { result.1.now ≡ after_sign text.now }
{
    match text {
        [b'-', after @ ..] => (true, after),
        [b'+', after @ ..] => (false, after),
        _ => (false, text),
    }
}

/// Before the mark of an exponent and behind it, and whether there is one.
fn split_exponent(text: &[u8]) -> (&[u8], &[u8], bool)
    ensures mantissa { result.0.now ≡ before_first is_exponent_mark text.now }
    ensures exponent { result.1.now ≡ after_first is_exponent_mark text.now }
    ensures marked { result.2 ≡ is_some (position is_exponent_mark text.now) }
{
    match exponent_mark_at(text) {
        Some(i) => (&text[..i], &text[i + 1..], true),
        None => (text, &text[text.len()..], false),
    }
}

fn exponent_mark_at(text: &[u8]) -> Option<usize>
    ensures { result ≡ position is_exponent_mark text.now }
{
    text.iter().position(|b| *b == b'e' || *b == b'E')
}

/// Before the point, and behind it.
fn split_point(mantissa: &[u8]) -> (&[u8], &[u8])
    ensures whole { result.0.now ≡ whole_of mantissa.now }
    ensures fraction { result.1.now ≡ fraction_of mantissa.now }
{
    match point_at(mantissa) {
        Some(i) => (&mantissa[..i], &mantissa[i + 1..]),
        None => (mantissa, &mantissa[mantissa.len()..]),
    }
}

fn point_at(text: &[u8]) -> Option<usize>
    ensures { result ≡ position is_point text.now }
{
    text.iter().position(|b| *b == b'.')
}

fn is_mantissa(whole: &[u8], fraction: &[u8]) -> bool
    ensures value { result ≡ is_some_digits (whole.now ++ fraction.now) }
    ensures bound { length whole.now + length fraction.now < 2 ^ 64 }
{
    whole.len() + fraction.len() > 0 && are_digits(whole) && are_digits(fraction)
}

/// Whether a numeral may have this exponent behind its mark, or no mark.
fn is_exponent(is_marked: bool, exponent: &[u8]) -> bool
    ensures { result ≡ (not is_marked || is_some_digits (after_sign exponent.now)) }
{
    let (_, digits) = split_sign(exponent);
    !is_marked || (!digits.is_empty() && are_digits(digits))
}

/// By how many places an exponent, with its sign, raises a number, and lowers it, each up to `FAR`.
fn places(exponent: &[u8]) -> (u128, u128)
    ensures up { result.0 ≡ min (places_up exponent.now) FAR }
    ensures down { result.1 ≡ min (places_down exponent.now) FAR }
{
    let (negative, digits) = split_sign(exponent);
    let number = number_within(0, digits, FAR);
    if negative { (0, number) } else { (number, 0) }
}

/// The number of this sign and size.
fn real_within(negative: bool, size: u128) -> Result<Real, NumeralFault>
    ensures { result ≡ in_range (signed negative size) }
{
    Real::of_parts(negative, size).map_err(|_| NumeralFault::OutOfRange)
}

/// Appends the shortest plain decimal of `x`: no exponent, no zero at the end of a fraction, no point without a
/// fraction, `0` without a sign. On `Err`, want of memory, `to` has the bytes that it had.
pub fn print(x: Real, to: &mut Vec<u8>) -> Result<(), AllocError>
    ensures ok { OnOk result (to.new.items ≡ to.old.items ++ decimal_of x) }
    ensures err { OnErr result (to.new.items ≡ to.old.items) }
{
    let size = x.size();
    let sign = sign_text(x.is_negative());
    let mut buffer = Buffer::new();
    let whole = buffer.format(size / UNIT as u64).as_bytes();
    let places = six_digits(size % UNIT as u64);
    let fraction = without_last_zeros(&places);
    let point = point_before(fraction);
    to.reserve(sign.len() + whole.len() + point.len() + fraction.len())?;
    to.extend_from_slice(sign)?;
    to.extend_from_slice(whole)?;
    to.extend_from_slice(point)?;
    to.extend_from_slice(fraction)
}

/// The law that what a number prints as reads back as that number. The call does nothing.
pub fn decimal_reads_back(x: Real)
    ensures { value_of (decimal_of x) ≡ Ok x }
{
    let _millionths = x.millionths();
}

fn sign_text(negative: bool) -> &'static [u8]
    ensures value { result.now ≡ sign_text negative }
    ensures short { length result.now ≤ 1 }
{
    if negative { b"-" } else { b"" }
}

/// The point that stands before the digits of a fraction, where there are any.
fn point_before(fraction: &[u8]) -> &'static [u8]
    ensures value { result.now ++ fraction.now ≡ fraction_text fraction.now }
    ensures short { length result.now ≤ 1 }
{
    if fraction.is_empty() { b"" } else { b"." }
}

fn six_digits(n: u64) -> [u8; 6]
    requires { n < unit_size }
    ensures { result ≡ six_digits n }
{
    let mut digits = *b"000000";
    write_digits(n, &mut digits, 6);
    digits
}

fn without_last_zeros(digits: &[u8]) -> &[u8]
    ensures { result.now ≡ without_last_zeros digits.now }
{
    let mut kept = digits.len();
    while kept > 0 && digits[kept - 1] == b'0' {
        kept -= 1;
    }
    &digits[..kept]
}
