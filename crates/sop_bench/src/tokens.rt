// Tokens of a text of one kind of byte.
use crate::checksum::added;
use std::alloc::Global;
use vex_lexer::{Token, tokens};

/// The most bytes of a text.
const LONGEST: u32 = 65_536;

/// What a text is made of.
#[derive(Clone, Copy)]
pub enum Filling {
    /// Strings without a byte, where the number of quotes is even.
    Quotes,
    /// One comment.
    Slashes,
    /// One number.
    Digits,
    /// Operators of two bytes.
    Pluses,
    /// One name.
    Letters,
    /// No token.
    Spaces,
}

impl Filling {
    fn byte(self) -> u8 {
        match self {
            Filling::Quotes => b'"',
            Filling::Slashes => b'/',
            Filling::Digits => b'7',
            Filling::Pluses => b'+',
            Filling::Letters => b'a',
            Filling::Spaces => b' ',
        }
    }

    /// How often a text is read, so that a run is long enough to be timed.
    fn calls(self) -> u32 {
        match self {
            Filling::Quotes | Filling::Pluses => 50,
            Filling::Spaces => 1000,
            Filling::Slashes | Filling::Digits | Filling::Letters => 2000,
        }
    }
}

/// A checksum of the tokens of a text of `size` bytes, at most 65,536, or none where it has no tokens or memory runs out.
pub fn sum_of_tokens(alloc: Global, filling: Filling, size: u32) -> Option<u64> {
    let bytes = vec![in alloc; filling.byte(); size.min(LONGEST) as usize].ok()?;
    let text = str::from_utf8(&bytes).ok()?;
    let mut sum = 0;
    for _ in 0..filling.calls() {
        sum = with_tokens(sum, &tokens(alloc, text).ok()?);
    }
    Some(sum)
}

fn with_tokens(sum: u64, tokens: &[Token]) -> u64 {
    let ends = tokens
        .iter()
        .fold(sum, |sum, token| added(sum, u64::from(token.end)));
    added(ends, tokens.len() as u64)
}
