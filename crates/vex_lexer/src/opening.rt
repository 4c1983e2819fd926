//! What begins at a place of a text.
ghost use Rattle.vex_lexer.specs.Longest.{IsLongest};
ghost use Rattle.vex_lexer.specs.Words.{is_token};
ghost use Rattle.vex_lexer.specs.Openings.{IsOpening};

use crate::gap::{begins_blank, begins_comment, comment_len};
use crate::name::{attribute_name_len, name_len};
use crate::number::number_len;
use crate::operator::operator_len;
use crate::quoted::string_len;

/// What begins at a place, with its number of bytes.
pub enum Opening {
    Between(usize),
    Word(usize),
    Nothing,
}

/// The length of the longest token that begins here, or 0 where none does.
fn token_len(rest: &[u8]) -> usize
    ensures { IsLongest is_token rest.now result }
{
    let number_or_name = number_len(rest).max(name_len(rest));
    number_or_name
        .max(attribute_name_len(rest))
        .max(string_len(rest))
        .max(operator_len(rest))
}

/// What begins here: a blank, a comment or the longest token; nothing where a comment is not closed, or no token begins.
pub fn opening_at(rest: &[u8]) -> Opening
    ensures { IsOpening rest.now result }
{
    if begins_blank(rest) {
        return Opening::Between(1);
    }
    if begins_comment(rest) {
        return match comment_len(rest) {
            0 => Opening::Nothing,
            len => Opening::Between(len),
        };
    }
    match token_len(rest) {
        0 => Opening::Nothing,
        len => Opening::Word(len),
    }
}
