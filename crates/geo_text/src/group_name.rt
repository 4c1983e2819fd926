// Names of groups, made of words.
ghost use Rattle.std.specs.Prelude.{◌≡◌, ◌++◌, map, take, IfOk, OnOk, string_bytes};
ghost use Rattle.geo_text.specs.ObjStatements.{mended, mended_byte};
ghost use Rattle.geo_text.specs.ObjScan.{begins_with_digit};

use sop_model::continues_name;
use sop_model::limits::MOST_NAME_BYTES;
use sop_outside::Text;
use std::alloc::{AllocError, Global};

/// The name that a word stands for: each byte that can't stand in a name is `_`, `_` stands before a digit at the start, and it
/// is cut to its 64 bytes.
pub(crate) fn mended(alloc: Global, word: &[u8]) -> Result<Text, AllocError>
    ensures { IfOk result (λ name. name ≡ mended word.now) }
{
    if begins_with_digit(word) {
        name_of(alloc, "_", front(word, MOST_NAME_BYTES - 1))
    } else {
        name_of(alloc, "", front(word, MOST_NAME_BYTES))
    }
}

fn begins_with_digit(word: &[u8]) -> bool
    ensures { result ≡ begins_with_digit word.now }
{
    match word {
        [] => false,
        [first, ..] => first.is_ascii_digit(),
    }
}

/// The first bytes, `most` of them where there are more.
fn front(word: &[u8], most: usize) -> &[u8]
    ensures { result.now ≡ take most word.now }
{
    if word.len() <= most {
        word
    } else {
        &word[..most]
    }
}

/// These bytes behind a start, mended.
fn name_of(alloc: Global, start: &str, bytes: &[u8]) -> Result<Text, AllocError>
    ensures { IfOk result (λ name. name ≡ start.now ++ map mended_byte bytes.now) }
{
    let mut name = String::from_str(alloc, start)?;
    for byte in bytes {
        name.push(char::from(mended_byte(*byte)))?;
    }
    Ok(Text::from_string(name))
}

fn mended_byte(byte: u8) -> u8
    ensures { result ≡ mended_byte byte }
{
    if continues_name(byte) { byte } else { b'_' }
}
