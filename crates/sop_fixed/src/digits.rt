//! Digits: the numbers that they say, alone and times powers of ten.
ghost use Rattle.std.specs.Prelude.{◌≡◌, ◌+◌, ◌*◌, ◌^◌, ◌<◌, ◌≤◌, ◌++◌, ◌-◌, length, min, take, nat_le, if◌then◌else◌, ◌&&◌, IfSome, IsTrue, slice_index};
ghost use Rattle.sop_fixed.specs.Numbers.{nearest};
ghost use Rattle.sop_fixed.specs.Numerals.{are_digits, is_some_digits, number_in, number_of};

/// The most digits whose number surely fits 64 bits.
pub const MOST_DIGITS: usize = 19;

/// Above the size of each Real.
pub(crate) const SIZE_CAP: u128 = 10_000_000_000_000_000;

/// The most that a number may be capped at, so that ten times as much still fits 128 bits.
pub(crate) const NUMBER_CAP: u128 = 1_000_000_000_000_000_000_000_000_000_000_000_000;

/// Whether each byte is a digit.
pub fn are_digits(text: &[u8]) -> bool
    ensures { result ≡ are_digits text.now }
{
    text.iter().all(|byte| byte.is_ascii_digit())
}

/// The number that digits say, as many as there are, or `cap` where that is less. The time is linear in the digits.
pub fn read_digits(digits: &[u8], cap: u64) -> u64
    ensures { result ≡ min (number_of digits.now) cap }
{
    number_within(0, digits, u128::from(cap)) as u64
}

/// The number that 1 to `most` digits say, where `text` is such; `most` is at most 19.
pub fn read_number(text: &[u8], most: usize) -> Option<u64>
    requires { most ≤ MOST_DIGITS }
    ensures value { result ≡ number_in most text.now }
    ensures below { IfSome result (λ n. n < 10 ^ most) }
{
    if text.is_empty() || text.len() > most {
        return None;
    }
    short_number(0, text)
}

/// The number that the digits go on from `start`, or the cap where it is more.
pub(crate) fn number_within(start: u128, digits: &[u8], cap: u128) -> u128
    requires start { start ≤ cap }
    requires cap { cap ≤ NUMBER_CAP }
    ensures { result ≡ min (start * 10 ^ length digits.now + number_of digits.now) cap }
{
    let mut number = start;
    for digit in digits {
        number = (number * 10 + u128::from(digit.saturating_sub(b'0'))).min(cap);
    }
    number
}

/// The number that the digits go on from `start`, if they are digits, where so many are sure to fit 64 bits.
pub(crate) fn short_number(start: u64, digits: &[u8]) -> Option<u64>
    requires { (start + 1) * 10 ^ length digits.now ≤ 10 ^ MOST_DIGITS }
    ensures { result ≡ (if are_digits digits.now then Some (start * 10 ^ length digits.now + number_of digits.now) else None) }
{
    let mut number = start;
    for digit in digits {
        if !digit.is_ascii_digit() {
            return None;
        }
        number = number * 10 + u64::from(*digit - b'0');
    }
    Some(number)
}

/// The digits of both parts times 10 ^ up, over 10 ^ down, to the nearest, or the cap where it is more.
pub(crate) fn scaled(whole: &[u8], fraction: &[u8], up: u128, down: u128) -> u128
    requires digits { IsTrue (are_digits (whole.now ++ fraction.now)) }
    ensures { result ≡ min (nearest (number_of (whole.now ++ fraction.now) * 10 ^ up) (10 ^ down)) SIZE_CAP }
{
    if down <= up {
        return raised(
            number_within(number_within(0, whole, SIZE_CAP), fraction, SIZE_CAP),
            up - down,
            SIZE_CAP,
        );
    }
    cut(whole, fraction, down - up)
}

/// The number times 10 to the power `by`, or the cap where it is more.
fn raised(number: u128, by: u128, cap: u128) -> u128
    requires start { number ≤ cap }
    requires cap { cap ≤ NUMBER_CAP }
    ensures { result ≡ min (number * 10 ^ by) cap }
{
    let mut number = number;
    let mut by = by;
    while by > 0 && number > 0 && number < cap {
        number = (number * 10).min(cap);
        by -= 1;
    }
    number
}

/// The digits of both parts over 10 ^ by, to the nearest, or the cap where it is more.
fn cut(whole: &[u8], fraction: &[u8], by: u128) -> u128
    requires digits { IsTrue (are_digits (whole.now ++ fraction.now)) }
    requires some { 0 < by }
    ensures { result ≡ min (nearest (number_of (whole.now ++ fraction.now)) (10 ^ by)) SIZE_CAP }
{
    let len = whole.len() as u128 + fraction.len() as u128;
    if by > len {
        return 0;
    }
    let kept = (len - by) as usize;
    (front(whole, fraction, kept) + round_up(digit_at(whole, fraction, kept))).min(SIZE_CAP)
}

/// The number that the first digits of both parts say, or the cap where it is more.
fn front(whole: &[u8], fraction: &[u8], kept: usize) -> u128
    requires { kept ≤ length whole.now + length fraction.now }
    ensures { result ≡ min (number_of (take kept (whole.now ++ fraction.now))) SIZE_CAP }
{
    if kept <= whole.len() {
        return number_within(0, &whole[..kept], SIZE_CAP);
    }
    number_within(
        number_within(0, whole, SIZE_CAP),
        &fraction[..kept - whole.len()],
        SIZE_CAP,
    )
}

fn digit_at(whole: &[u8], fraction: &[u8], i: usize) -> u8
    requires { i < length whole.now + length fraction.now }
    ensures { result ≡ slice_index (whole.now ++ fraction.now) i }
{
    if i < whole.len() {
        whole[i]
    } else {
        fraction[i - whole.len()]
    }
}

/// What the first digit that is cut adds to the digits before it: halves go up.
fn round_up(digit: u8) -> u128
    ensures { result ≡ (if nat_le 5 (digit - 48) then 1 else 0) }
{
    if digit.saturating_sub(b'0') >= 5 {
        1
    } else {
        0
    }
}
