// The numerals of a line: points with their colours, texture coordinates and normals.
ghost use Rattle.std.specs.Prelude.{◌≡◌, ◌∷◌, ◌<◌, length, nat_le, option_map, MatchOption, IfSome};
ghost use Rattle.geo_text.specs.ObjStatements.{vector_in, place_in, texture_in, normal_in};
ghost use Rattle.geo_text.specs.ObjDecimals.{SaysVector, IsFirstVector};
ghost use Rattle.geo_text.specs.ObjScan.{words_here, place_from, IsNextOrZero};

use crate::leading::next_decimal;
use crate::scan::next_word;
use sop_fixed::{Vec3, read_numeral};

/// Three words of a line, and what stands behind them.
#[derive(Clone, Copy)]
struct Three<'a> {
    x: &'a [u8],
    y: &'a [u8],
    z: &'a [u8],
    rest: &'a [u8],
}

/// None where fewer than three words are left in the line.
fn next_three(text: &[u8]) -> Option<Three<'_>>
    ensures { MatchOption result (length (words_here text.now) < 3) (λ t. words_here text.now ≡ t.x.now ∷ t.y.now ∷ t.z.now ∷ words_here t.rest.now) }
{
    let (x, rest) = next_word(text)?;
    let (y, rest) = next_word(rest)?;
    let (z, rest) = next_word(rest)?;
    Some(Three { x, y, z, rest })
}

/// Whether six words or more are left in the line.
pub(crate) fn has_six(words: &[u8]) -> bool
    ensures { result ≡ nat_le 6 (length (words_here words.now)) }
{
    match next_three(words) {
        None => false,
        Some(three) => next_three(three.rest).is_some(),
    }
}

fn vector_in(x: &[u8], y: &[u8], z: &[u8]) -> Option<Vec3>
    ensures { result ≡ vector_in x.now y.now z.now }
{
    Some(Vec3 {
        x: read_numeral(x).ok()?,
        y: read_numeral(y).ok()?,
        z: read_numeral(z).ok()?,
    })
}

/// The vector of three plain decimals, and what stands behind them. None says nothing of the text.
fn next_vector(text: &[u8]) -> Option<(Vec3, &[u8])>
    ensures { IfSome result (λ next. SaysVector text.now next.0 next.1.now) }
{
    let Some((x, rest)) = next_decimal(text) else {
        return None;
    };
    let Some((y, rest)) = next_decimal(rest) else {
        return None;
    };
    let Some((z, rest)) = next_decimal(rest) else {
        return None;
    };
    Some((Vec3 { x, y, z }, rest))
}

/// The vector that three words say, and what stands behind them.
fn first_vector(text: &[u8]) -> Option<(Vec3, &[u8])>
    ensures { IsFirstVector result text.now }
{
    if let Some(next) = next_vector(text) {
        return Some(next);
    }
    let three = next_three(text)?;
    let vector = vector_in(three.x, three.y, three.z)?;
    Some((vector, three.rest))
}

/// The place and colour that the words behind `v` say, where they are numerals.
pub(crate) fn place_in(words: &[u8]) -> Option<(Vec3, Option<Vec3>)>
    ensures { option_map place_from result ≡ place_in (words_here words.now) }
{
    let Some((place, rest)) = first_vector(words) else {
        return None;
    };
    match next_three(rest) {
        None => Some((place, None)),
        Some(next) => Some((place, Some(vector_in(next.x, next.y, next.z)?))),
    }
}

/// The next word of the line, or the numeral zero where there is none, and what stands behind it.
fn next_or_zero(text: &[u8]) -> (&[u8], &[u8])
    ensures { IsNextOrZero (words_here text.now) result.0.now (words_here result.1.now) }
{
    match next_word(text) {
        Some(next) => next,
        None => (b"0", text),
    }
}

/// The texture coordinate that the words behind `vt` say, where they are numerals.
pub(crate) fn texture_in(words: &[u8]) -> Option<Vec3>
    ensures { result ≡ texture_in (words_here words.now) }
{
    let (x, rest) = next_word(words)?;
    let (y, rest) = next_or_zero(rest);
    let (z, _) = next_or_zero(rest);
    vector_in(x, y, z)
}

/// The normal that the words behind `vn` say, where they are numerals.
pub(crate) fn normal_in(words: &[u8]) -> Option<Vec3>
    ensures { result ≡ normal_in (words_here words.now) }
{
    let three = next_three(words)?;
    vector_in(three.x, three.y, three.z)
}
