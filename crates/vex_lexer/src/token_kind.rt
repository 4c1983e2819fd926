//! What a token is.
ghost use Rattle.std.specs.Prelude.{◌≡◌};
ghost use Rattle.vex_lexer.specs.TokenKinds.{number_kind, name_kind, kind_of};
ghost use Rattle.vex_lexer.specs.Keywords.{keyword_of};

use crate::keyword::Keyword;
use crate::name::{is_attribute_name, is_name};
use crate::number::is_number;
use crate::operator::Operator;
use crate::quoted::is_string;
use sop_fixed::are_digits;

/// What a token is, by its text.
#[derive(Clone, Copy, Debug, PartialEq, Eq)]
pub enum TokenKind {
    /// A whole number: digits alone.
    Whole,
    /// A number with a point or an exponent.
    Real,
    /// A name that is no keyword.
    Name,
    /// `@` and a name, behind a letter or none, which `[]` may follow.
    AttributeName,
    /// A string, with its quotes and escapes; `string_value` is its value.
    Quoted,
    /// An operator, a bracket or another mark.
    Operator(Operator),
    /// A keyword.
    Keyword(Keyword),
}

/// What a word is, or None where it is no token.
pub fn kind_of(word: &str) -> Option<TokenKind>
    ensures { result ≡ kind_of word.now }
{
    let bytes = word.as_bytes();
    if is_number(bytes) {
        return Some(number_kind(bytes));
    }
    if is_name(bytes) {
        return Some(name_kind(word));
    }
    if is_attribute_name(bytes) {
        return Some(TokenKind::AttributeName);
    }
    if is_string(bytes) {
        return Some(TokenKind::Quoted);
    }
    Operator::of_text(word).map(TokenKind::Operator)
}

fn number_kind(word: &[u8]) -> TokenKind
    ensures { result ≡ number_kind word.now }
{
    if are_digits(word) {
        TokenKind::Whole
    } else {
        TokenKind::Real
    }
}

fn name_kind(word: &str) -> TokenKind
    ensures { result ≡ name_kind (keyword_of word.now) }
{
    match Keyword::of_word(word) {
        Some(keyword) => TokenKind::Keyword(keyword),
        None => TokenKind::Name,
    }
}
