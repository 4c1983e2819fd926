//! Strings, and their values.
ghost use Rattle.std.specs.Prelude.{◌≡◌, ℕ, ◌++◌, false, List, IfOk, string_bytes};
ghost use lib.Utf8.{encode};
ghost use Rattle.vex_lexer.specs.Longest.{IsLongest};
ghost use Rattle.vex_lexer.specs.Words.{is_escaped, is_closed_by, is_string};
ghost use Rattle.vex_lexer.specs.Escapes.{meant, unescaped, string_value};

use crate::lengths::{is_whole, onto};
use sop_outside::Text;
use std::alloc::{AllocError, Global};

fn is_escaped(b: u8) -> bool
    ensures { result ≡ is_escaped b }
{
    matches!(b, b'n' | b't' | b'\\' | b'"' | b'\'')
}

/// The length of what closes a string behind its opening quote, or 0 where nothing does.
fn closed_len(quote: u8, text: &[u8]) -> usize
    ensures { IsLongest (is_closed_by quote false) text.now result }
{
    let mut escape = false;
    for (i, b) in text.iter().enumerate() {
        if escape {
            if !is_escaped(*b) {
                return 0;
            }
            escape = false;
        } else if *b == quote {
            return i + 1;
        } else if *b == b'\n' {
            return 0;
        } else {
            escape = *b == b'\\';
        }
    }
    0
}

/// Whether a word is a string.
pub fn is_string(word: &[u8]) -> bool
    ensures { result ≡ is_string word.now }
{
    is_whole(string_len(word), word)
}

/// The length of the string that begins here, with its quotes, or 0 where none does.
pub fn string_len(rest: &[u8]) -> usize
    ensures { IsLongest is_string rest.now result }
{
    match rest {
        [quote, text @ ..] if *quote == b'"' || *quote == b'\'' => onto(
            1,
            closed_len(*quote, text),
        ),
        _ => 0,
    }
}

/// The value of a string: what stands between its quotes, with its escapes as what they mean. None
/// where the word is no string. An error comes for want of memory alone.
pub fn string_value(alloc: Global, word: &str) -> Result<Option<Text>, AllocError>
    ensures { IfOk result (λ value. value ≡ string_value word.now) }
{
    if !is_string(word.as_bytes()) {
        return Ok(None);
    }
    let value = unescaped(alloc, &word[1..word.len() - 1])?;
    Ok(Some(Text::from_string(value)))
}

fn unescaped(alloc: Global, text: &str) -> Result<String, AllocError>
    ensures { IfOk result (λ made. string_bytes made ≡ unescaped false text.now) }
{
    let mut made = String::with_capacity(alloc, text.len())?;
    let mut escape = false;
    for c in text.chars() {
        escape = with_next(&mut made, escape, c)?;
    }
    Ok(made)
}

/// Appends what the next character means, where a backslash stands before it or not. The answer is
/// whether one stands before the character behind it.
fn with_next(made: &mut String, escape: bool, c: char) -> Result<bool, AllocError>
    ensures { IfOk result (λ next. (rest : List ℕ) → string_bytes made.new ++ unescaped next rest ≡ string_bytes made.old ++ unescaped escape (encode c ++ rest)) }
{
    if escape {
        made.push(meant(c))?;
        return Ok(false);
    }
    if c == '\\' {
        return Ok(true);
    }
    made.push(c)?;
    Ok(false)
}

fn meant(c: char) -> char
    ensures { result ≡ meant c }
{
    match c {
        'n' => '\n',
        't' => '\t',
        _ => c,
    }
}
