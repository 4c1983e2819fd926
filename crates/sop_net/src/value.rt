// Which texts a parameter takes.
ghost use Rattle.std.specs.Prelude.{◌≡◌, map, bytes_eq};
ghost use Rattle.std.specs.List.{list_any};
ghost use Rattle.sop_fixed.specs.Numerals.{after_minus};
ghost use Rattle.sop_net.specs.Rows.{kind_meant};
ghost use Rattle.sop_net.specs.ParmValues.{is_value, whole_of, is_between, is_number, are_numbers};

use crate::limits::{MOST_VECTORS_BYTES, MOST_WHOLE_DIGITS};
use crate::table::ParmKind;
use sop_fixed::{Int, read_numeral, read_whole};
use sop_model::limits::{MOST_SNIPPET_BYTES, MOST_TEXT_BYTES};
use sop_outside::words_of;

impl ParmKind {
    /// Whether a parameter of this kind takes the text. The time is linear in its length.
    pub fn takes(self, text: &str) -> bool
        ensures { result ≡ is_value (kind_meant self) text.now }
    {
        let bytes = text.as_bytes();
        match self {
            ParmKind::Whole { low, high } => is_between(low, high, short_whole(bytes)),
            ParmKind::Numeral => is_number(bytes),
            ParmKind::Vector => are_numbers(bytes) && words_of(bytes).count() == 3,
            ParmKind::Vectors => {
                are_numbers(bytes)
                    && words_of(bytes).count() % 3 == 0
                    && text.len() <= MOST_VECTORS_BYTES
            }
            ParmKind::Flag => text == "0" || text == "1",
            ParmKind::Text => text.len() <= MOST_TEXT_BYTES,
            ParmKind::Snippet => text.len() <= MOST_SNIPPET_BYTES,
            ParmKind::Choice(words) => is_among(words, text),
        }
    }
}

/// The whole number that an optional `-` and 1 to 10 digits say.
pub fn short_whole(text: &[u8]) -> Option<Int>
    ensures { result ≡ whole_of text.now }
{
    if without_minus(text).len() > MOST_WHOLE_DIGITS {
        return None;
    }
    read_whole(text).ok()
}

/// What follows the `-` that a text may begin with.
fn without_minus(text: &[u8]) -> &[u8]
    ensures { result.now ≡ after_minus text.now }
{
    match text {
        [b'-', after @ ..] => after,
        _ => text,
    }
}

fn is_between(low: i64, high: i64, number: Option<Int>) -> bool
    ensures { result ≡ is_between low high number }
{
    match number {
        Some(n) => low <= n.get() && n.get() <= high,
        None => false,
    }
}

fn is_number(text: &[u8]) -> bool
    ensures { result ≡ is_number text.now }
{
    read_numeral(text).is_ok()
}

/// Whether each word between blanks is a numeral in range.
fn are_numbers(text: &[u8]) -> bool
    ensures { result ≡ are_numbers text.now }
{
    words_of(text).all(is_number)
}

fn is_among(words: &[&str], text: &str) -> bool
    ensures { result ≡ list_any (λ word. bytes_eq word text.now) (map (λ word. word.now) words.now) }
{
    words.iter().any(|word| *word == text)
}
