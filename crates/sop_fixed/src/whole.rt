//! Whole numbers read from texts.
ghost use Rattle.std.specs.Prelude.{◌≡◌, ◌≤◌};
ghost use Rattle.sop_fixed.specs.Numbers.{signed};
ghost use Rattle.sop_fixed.specs.Numerals.{after_minus, has_minus, int_in_range, whole_number_of};

use crate::digits::{are_digits, read_digits};
use crate::fault::NumeralFault;
use crate::int::{Int, SIZE_CAP};

/// The Int that a text says: an optional `-`, then digits, at least one and as many as there are; `-0` and zeros in front
/// are fine, `+` isn't. `NotNumeral` where the text has another form, `OutOfRange` where the number is no Int. The time
/// is linear in the length of the text.
pub fn read_whole(text: &[u8]) -> Result<Int, NumeralFault>
    ensures { result ≡ whole_number_of text.now }
{
    let (negative, digits) = split_minus(text);
    if digits.is_empty() || !are_digits(digits) {
        return Err(NumeralFault::NotNumeral);
    }
    int_within(negative, read_digits(digits, SIZE_CAP))
}

/// Whether the text begins with a minus, and what follows it.
fn split_minus(text: &[u8]) -> (bool, &[u8])
    ensures minus { result.0 ≡ has_minus text.now }
    ensures after { result.1.now ≡ after_minus text.now }
{
    match text {
        [b'-', after @ ..] => (true, after),
        _ => (false, text),
    }
}

/// The number of this sign and size.
fn int_within(negative: bool, size: u64) -> Result<Int, NumeralFault>
    requires { size ≤ SIZE_CAP }
    ensures { result ≡ int_in_range (signed negative size) }
{
    let size = size as i64;
    Int::of(if negative { -size } else { size }).map_err(|_| NumeralFault::OutOfRange)
}
