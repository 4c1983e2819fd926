//! Tokens.
use crate::token_kind::TokenKind;
use sop_outside::Text;

/// A token: its text, which is the slice of the source from byte `start` to before byte `end`, the line of its first
/// byte, counted from 1, and what it is.
#[derive(Debug, Drop)]
pub struct Token {
    pub text: Text,
    pub start: u32,
    pub end: u32,
    pub line: u32,
    pub kind: TokenKind,
}
