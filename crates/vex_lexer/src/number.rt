//! Numbers.
ghost use Rattle.std.specs.Prelude.{◌≡◌, ◌≤◌, length, if◌then◌else◌};
ghost use Rattle.std.specs.List.{prefix_len};
ghost use Rattle.std.specs.Char.{is_ascii_digit};
ghost use Rattle.sop_fixed.specs.Numerals.{is_sign, is_point, is_exponent_mark};
ghost use Rattle.vex_lexer.specs.Longest.{IsLongest};
ghost use Rattle.vex_lexer.specs.Words.{begins, is_number};
ghost use Rattle.vex_lexer.specs.Parts.{is_signed_digits, is_exponent, is_loose_number, begins_number, fraction_len};

use crate::lengths::{is_whole, onto};

fn begins_digit(rest: &[u8]) -> bool
    ensures { result ≡ begins is_ascii_digit rest.now }
{
    match rest {
        [b, ..] => b.is_ascii_digit(),
        [] => false,
    }
}

fn begins_point(rest: &[u8]) -> bool
    ensures { result ≡ begins is_point rest.now }
{
    match rest {
        [b, ..] => *b == b'.',
        [] => false,
    }
}

fn begins_exponent_mark(rest: &[u8]) -> bool
    ensures { result ≡ begins is_exponent_mark rest.now }
{
    match rest {
        [b, ..] => *b == b'e' || *b == b'E',
        [] => false,
    }
}

fn begins_sign(rest: &[u8]) -> bool
    ensures { result ≡ begins is_sign rest.now }
{
    match rest {
        [b, ..] => *b == b'+' || *b == b'-',
        [] => false,
    }
}

fn digits_len(rest: &[u8]) -> usize
    ensures value { result ≡ prefix_len is_ascii_digit rest.now }
    ensures within { result ≤ length rest.now }
{
    rest.iter().take_while(|b| b.is_ascii_digit()).count()
}

/// The length of a sign or none and the digits behind it, or 0 where there is no digit.
fn signed_digits_len(rest: &[u8]) -> usize
    ensures { IsLongest is_signed_digits rest.now result }
{
    if !begins_sign(rest) {
        return digits_len(rest);
    }
    onto(1, digits_len(&rest[1..]))
}

/// The length of the exponent that begins here, or 0 where none does.
fn exponent_len(rest: &[u8]) -> usize
    ensures { IsLongest is_exponent rest.now result }
{
    if !begins_exponent_mark(rest) {
        return 0;
    }
    onto(1, signed_digits_len(&rest[1..]))
}

/// The length of a point and the digits behind it, or 0 where no point begins here.
fn fraction_len(rest: &[u8]) -> usize
    ensures value { result ≡ fraction_len rest.now }
    ensures within { result ≤ length rest.now }
{
    if begins_point(rest) {
        1 + digits_len(&rest[1..])
    } else {
        0
    }
}

/// The length of digits, a point, digits and an exponent, each of which may be missing.
fn loose_number_len(rest: &[u8]) -> usize
    ensures { IsLongest is_loose_number rest.now result }
{
    let whole = digits_len(rest);
    let mantissa = whole + fraction_len(&rest[whole..]);
    mantissa + exponent_len(&rest[mantissa..])
}

fn begins_number(rest: &[u8]) -> bool
    ensures { result ≡ begins_number rest.now }
{
    begins_digit(rest) || (begins_point(rest) && begins_digit(&rest[1..]))
}

/// Whether a word is a number.
pub fn is_number(word: &[u8]) -> bool
    ensures { result ≡ is_number word.now }
{
    is_whole(number_len(word), word)
}

/// The length of the number that begins here, or 0 where none does.
pub fn number_len(rest: &[u8]) -> usize
    ensures { IsLongest is_number rest.now result }
{
    if begins_number(rest) {
        loose_number_len(rest)
    } else {
        0
    }
}
