//! The scanner.
ghost use Rattle.std.specs.Prelude.{◌≡◌, ◌+◌, ◌<◌, ◌≤◌, IsTrue, IfOk, IfErr, length, take, drop};
ghost use Rattle.std.specs.List.{filter};
ghost use Rattle.vex_lexer.specs.Words.{is_line_end, is_token};
ghost use Rattle.vex_lexer.specs.Spelling.{IsCut, Spells};
ghost use Rattle.vex_lexer.specs.Refusal.{IsRefusal};

use crate::fault::LexFault;
use crate::opening::{Opening, opening_at};
use crate::token::Token;
use crate::token_kind::kind_of;
use sop_model::limits::MOST_SNIPPET_BYTES;
use sop_outside::Text;
use std::alloc::{AllocError, Global};

/// The tokens that the text, of at most `MOST_SNIPPET_BYTES`, spells: the longest that begins at each place, with blanks and comments between them, in
/// order. `NoToken` has the line, counted from 1, of the first place where none of them begins. The time is linear in
/// the length of the text.
pub fn tokens(alloc: Global, text: &str) -> Result<Vec<Token>, LexFault>
    requires { length text.now ≤ MOST_SNIPPET_BYTES }
    ensures ok { IfOk result (λ made. Spells text.now made.items) }
    ensures err { IfErr result (λ fault. IsRefusal text.now fault) }
{
    let bytes = text.as_bytes();
    let mut tokens = Vec::new(alloc);
    let mut place = 0;
    let mut line = 1;
    while place < bytes.len() {
        let rest = &bytes[place..];
        let len = match opening_at(rest) {
            Opening::Between(len) => len,
            Opening::Word(len) => {
                tokens.push(token_at(alloc, text, place, len, line)?)?;
                len
            }
            Opening::Nothing => return Err(LexFault::NoToken(line as u32)),
        };
        line += line_ends(&rest[..len]);
        place += len;
    }
    Ok(tokens)
}

fn line_ends(text: &[u8]) -> usize
    ensures value { result ≡ length (filter is_line_end text.now) }
    ensures few { result ≤ length text.now }
{
    text.iter().filter(|b| **b == b'\n').count()
}

/// The token of so many bytes at a place.
fn token_at(
    alloc: Global,
    text: &str,
    start: usize,
    len: usize,
    line: usize,
) -> Result<Token, AllocError>
    requires short { length text.now ≤ MOST_SNIPPET_BYTES }
    requires inside { start + len ≤ length text.now }
    requires some { 0 < len }
    requires word { IsTrue (is_token (take len (drop start text.now))) }
    requires early { line ≤ MOST_SNIPPET_BYTES + 1 }
    ensures { IfOk result (IsCut text.now start (start + len) line) }
{
    let end = start + len;
    let word = &text[start..end];
    let Some(kind) = kind_of(word) else {
        unreachable!()
    };
    let text = Text::from_str(alloc, word)?;
    Ok(Token {
        text,
        start: start as u32,
        end: end as u32,
        line: line as u32,
        kind,
    })
}
