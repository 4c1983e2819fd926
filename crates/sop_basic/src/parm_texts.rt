// What the texts of parameters say.
ghost use Rattle.std.specs.Prelude.{◌≡◌, ◌<◌, ◌≤◌, ◌^◌, ◌∷◌, [], length, pos, IfSome, IfNone};
ghost use Rattle.sop_basic.specs.ParmTexts.{number_in, count_in, vector_in, vectors_in, class_in};
ghost use Rattle.sop_model.specs.Values.{zero_vector};

use sop_fixed::{Real, Vec3, read_numeral, read_whole};
use sop_model::Class;
use sop_outside::next_word;

/// The number of a numeral; zero where the text is none.
pub fn number_in(text: &[u8]) -> Real
    ensures { result ≡ number_in text.now }
{
    match read_numeral(text) {
        Ok(x) => x,
        Err(_) => zero(),
    }
}

/// The size of a whole number; zero where the text is none.
pub fn count_in(text: &str) -> u32
    ensures { result ≡ count_in text.now }
{
    match read_whole(text.as_bytes()) {
        Ok(n) => n.get().unsigned_abs() as u32,
        Err(_) => 0,
    }
}

/// The vector of a text of three numerals.
pub fn vector_in(text: &str) -> Vec3
    ensures { result ≡ vector_in text.now }
{
    match next_vector(text.as_bytes()) {
        Some((vector, _)) => vector,
        None => zero_vector(),
    }
}

/// The vector of the first three numerals of a text, and what stands behind them.
pub fn next_vector(text: &[u8]) -> Option<(Vec3, &[u8])>
    ensures vector { IfSome result (λ found. vectors_in text.now ≡ found.0 ∷ vectors_in found.1.now) }
    ensures shorter { IfSome result (λ found. length found.1.now < length text.now) }
    ensures none { IfNone result (vectors_in text.now ≡ []) }
{
    let Some((x, text)) = next_word(text) else {
        return None;
    };
    let Some((y, text)) = next_word(text) else {
        return None;
    };
    let Some((z, text)) = next_word(text) else {
        return None;
    };
    let vector = Vec3 {
        x: number_in(x),
        y: number_in(y),
        z: number_in(z),
    };
    Some((vector, text))
}

/// The class that a word names.
pub fn class_in(text: &str) -> Class
    ensures { result ≡ class_in text.now }
{
    if text == "detail" {
        Class::Detail
    } else if text == "prim" {
        Class::Prim
    } else if text == "vertex" {
        Class::Vertex
    } else {
        Class::Point
    }
}

pub fn zero() -> Real
    ensures { result ≡ pos 0 }
{
    match Real::of_millionths(0) {
        Ok(zero) => zero,
        Err(_) => unreachable!(),
    }
}

fn zero_vector() -> Vec3
    ensures { result ≡ zero_vector }
{
    Vec3 {
        x: zero(),
        y: zero(),
        z: zero(),
    }
}
