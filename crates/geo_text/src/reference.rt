// References to points, texture coordinates and normals.
ghost use Rattle.std.specs.Prelude.{◌≡◌, ℕ, ◌<◌, ◌≤◌, ◌∷◌, ◌==◌, ◌-◌, IfOk, IfSome, Some, None, true, length, take, if◌then◌else◌, min, nat_lt, nat_le, ◌&&◌, position};
ghost use Rattle.sop_fixed.specs.Numerals.{has_minus, after_sign, are_digits, is_some_digits, number_of};
ghost use Rattle.sop_model.specs.Limits.{most_points};
ghost use Rattle.geo_text.specs.ObjStatements.{part_of, reference_of};
ghost use Rattle.geo_text.specs.ObjMeaning.{within, needed, optional, named_by};
ghost use Rattle.geo_text.specs.ObjSurvey.{is_there};
ghost use Rattle.geo_text.specs.ObjReferences.{told, slash_parts, parts_left, IsNextPart, goes_on, reference_seen, said_number, reference_said, IsNextReference, SaysNumber, AreCounts, AreSoFar};

use crate::leading::leading_number;
use crate::scan::{is_apart, next_word};

/// Why a word of a line is refused.
#[derive(Clone, Copy, Debug, PartialEq, Eq)]
pub(crate) enum WordFault {
    /// It isn't the number that is wanted.
    Number,
    /// It names no element.
    Index,
}

/// How many elements there are of each kind.
#[derive(Clone, Copy, Debug)]
pub(crate) struct Counts {
    /// The `v` lines.
    pub(crate) points: usize,
    /// The `vt` lines.
    pub(crate) textures: usize,
    /// The `vn` lines.
    pub(crate) normals: usize,
}

/// The elements that a reference names, by their numbers from 0.
#[derive(Clone, Copy, Debug)]
pub(crate) struct Named {
    pub(crate) point: usize,
    pub(crate) texture: Option<usize>,
    pub(crate) normal: Option<usize>,
}

/// A word of a line that is read as a reference.
#[derive(Clone, Copy)]
pub(crate) enum ReferenceWord<'a> {
    /// A word that only says the number of a point, counted from 1.
    Number(u64),
    /// Any word.
    Word(&'a [u8]),
}

/// The parts of a reference; those that aren't there are empty.
#[derive(Clone, Copy)]
struct Parts<'a> {
    point: &'a [u8],
    texture: &'a [u8],
    normal: &'a [u8],
    /// Whether a fourth part stands behind them.
    is_long: bool,
}

/// The number of a word of few digits that stands behind one space, and what stands behind the word. None says nothing of the text.
fn next_number(text: &[u8]) -> Option<(u64, &[u8])>
    ensures number { IfSome result (λ next. SaysNumber text.now next.0 next.1.now) }
    ensures shorter { IfSome result (λ next. length next.1.now < length text.now) }
{
    let [b' ', word @ ..] = text else {
        return None;
    };
    let (number, len) = leading_number(word);
    let rest = &word[len..];
    if len > 0 && is_apart(rest) {
        Some((number, rest))
    } else {
        None
    }
}

/// The next word of a line of references, and what stands behind it. None where the line ends, or a comment begins.
#[inline(always)]
pub(crate) fn next_reference(text: &[u8]) -> Option<(ReferenceWord<'_>, &[u8])>
    ensures words { IsNextReference result text.now }
    ensures shorter { IfSome result (λ next. length next.1.now < length text.now) }
{
    if let Some((number, rest)) = next_number(text) {
        return Some((ReferenceWord::Number(number), rest));
    }
    let (word, rest) = next_word(text)?;
    Some((ReferenceWord::Word(word), rest))
}

fn slash_at(text: &[u8]) -> Option<usize>
    ensures { result ≡ position (λ b. b == 47) text.now }
{
    text.iter().position(|b| *b == b'/')
}

/// What stands before the first slash, and what stands behind it where there is one.
fn split_part(text: &[u8]) -> (&[u8], Option<&[u8]>)
    ensures { slash_parts text.now ≡ result.0.now ∷ parts_left result.1 }
{
    match slash_at(text) {
        Some(i) => (&text[..i], Some(&text[i + 1..])),
        None => (text, None),
    }
}

/// The next part, which is empty where there is none, and what stands behind it.
fn next_part(rest: Option<&[u8]>) -> (&[u8], Option<&[u8]>)
    ensures { IsNextPart (parts_left rest.entry) result.0.now (parts_left result.1) }
{
    match rest {
        Some(text) => split_part(text),
        None => (b"", None),
    }
}

/// Whether more stands behind a slash than the end of the word.
fn goes_on(rest: Option<&[u8]>) -> bool
    ensures { result ≡ goes_on (parts_left rest.entry) }
{
    match rest {
        Some(text) => !text.is_empty(),
        None => false,
    }
}

fn split_parts(word: &[u8]) -> Parts<'_>
    ensures { reference_seen result ≡ reference_of word.now }
{
    let (point, rest) = split_part(word);
    let (texture, rest) = next_part(rest);
    let (normal, rest) = next_part(rest);
    Parts {
        point,
        texture,
        normal,
        is_long: goes_on(rest),
    }
}

/// Whether the text begins with a minus, and what follows its sign.
fn split_sign(text: &[u8]) -> (bool, &[u8])
    ensures minus { result.0 ≡ has_minus text.now }
    ensures after { result.1.now ≡ after_sign text.now }
{
    match text {
        [b'-', after @ ..] => (true, after),
        [b'+', after @ ..] => (false, after),
        _ => (false, text),
    }
}

/// The number that digits say, where a text is one digit or more; the most of 64 bits where it is more.
fn read_index(text: &[u8]) -> Option<u64>
    ensures { result ≡ (if is_some_digits text.now then Some (min (number_of text.now) u64.MAX) else None) }
{
    if text.is_empty() {
        return None;
    }
    let mut number = 0_u64;
    for byte in text {
        if !byte.is_ascii_digit() {
            return None;
        }
        number = number
            .saturating_mul(10)
            .saturating_add(u64::from(*byte - b'0'));
    }
    Some(number)
}

/// The element that a number from 1 to `so_far` counts back to.
fn back(number: u64, so_far: usize) -> Option<usize>
    ensures { result ≡ within (nat_lt 0 number && nat_le number so_far) (so_far - number) }
{
    if number > 0 && number <= so_far as u64 {
        Some(so_far - number as usize)
    } else {
        None
    }
}

/// The element of a number from 1 to `whole`.
fn ahead(number: u64, whole: usize) -> Option<usize>
    ensures { result ≡ within (nat_lt 0 number && nat_le number whole) (number - 1) }
{
    if number > 0 && number <= whole as u64 {
        Some(number as usize - 1)
    } else {
        None
    }
}

/// The element that a part names, which must be there.
fn needed(part: &[u8], whole: usize, so_far: usize) -> Result<usize, WordFault>
    requires whole { whole < usize.MAX }
    requires so_far { so_far ≤ whole }
    ensures value { (line : ℕ) → told line result ≡ needed line whole so_far (part_of part.now) }
    ensures below { IfOk result (λ element. element < whole) }
{
    let (is_back, digits) = split_sign(part);
    let Some(number) = read_index(digits) else {
        return Err(WordFault::Number);
    };
    let element = if is_back {
        back(number, so_far)
    } else {
        ahead(number, whole)
    };
    element.ok_or(WordFault::Index)
}

/// The element that a part names, where it is there.
fn optional(part: &[u8], whole: usize, so_far: usize) -> Result<Option<usize>, WordFault>
    requires whole { whole < usize.MAX }
    requires so_far { so_far ≤ whole }
    ensures { (line : ℕ) → told line result ≡ optional line whole so_far (part_of part.now) }
{
    if part.is_empty() {
        return Ok(None);
    }
    Ok(Some(needed(part, whole, so_far)?))
}

/// The elements of a word that only says the number of a point.
fn named_point(number: u64, whole: &Counts) -> Result<Named, WordFault>
    requires { AreCounts whole.now }
    ensures point { IfOk result (λ n. n.point < most_points) }
    ensures value { (line : ℕ) (so_far : Counts) → told line result ≡ named_by line whole.now so_far (said_number number) }
{
    match ahead(number, whole.points) {
        Some(point) => Ok(Named {
            point,
            texture: None,
            normal: None,
        }),
        None => Err(WordFault::Index),
    }
}

/// The elements that a word names, where there are `whole` in the text, and `so_far` before the line. The first part that
/// isn't a number or names no element decides.
fn read_parts(word: &[u8], whole: &Counts, so_far: &Counts) -> Result<Named, WordFault>
    requires whole { AreCounts whole.now }
    requires so_far { AreSoFar whole.now so_far.now }
    ensures point { IfOk result (λ n. n.point < most_points) }
    ensures value { (line : ℕ) → told line result ≡ named_by line whole.now so_far.now (reference_of word.now) }
{
    let parts = split_parts(word);
    let point = needed(parts.point, whole.points, so_far.points)?;
    let texture = optional(parts.texture, whole.textures, so_far.textures)?;
    let normal = optional(parts.normal, whole.normals, so_far.normals)?;
    if parts.is_long {
        return Err(WordFault::Number);
    }
    Ok(Named {
        point,
        texture,
        normal,
    })
}

/// The elements that a word of a line names, as `read_parts` tells them.
pub(crate) fn read_reference(
    word: ReferenceWord<'_>,
    whole: &Counts,
    so_far: &Counts,
) -> Result<Named, WordFault>
    requires whole { AreCounts whole.now }
    requires so_far { AreSoFar whole.now so_far.now }
    ensures point { IfOk result (λ n. n.point < most_points) }
    ensures value { (line : ℕ) → told line result ≡ named_by line whole.now so_far.now (reference_said word.entry) }
{
    match word {
        ReferenceWord::Number(number) => named_point(number, whole),
        ReferenceWord::Word(word) => read_parts(word, whole, so_far),
    }
}

/// Whether a reference has a texture coordinate, and whether it has a normal.
pub(crate) fn parts_behind(word: ReferenceWord<'_>) -> (bool, bool)
    ensures texture { result.0 ≡ is_there (reference_said word.entry).texture }
    ensures normal { result.1 ≡ is_there (reference_said word.entry).normal }
{
    let ReferenceWord::Word(word) = word else {
        return (false, false);
    };
    let parts = split_parts(word);
    (!parts.texture.is_empty(), !parts.normal.is_empty())
}
