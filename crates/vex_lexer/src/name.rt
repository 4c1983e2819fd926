//! Names, and names of attributes.
ghost use Rattle.std.specs.Prelude.{◌≡◌};
ghost use Rattle.std.specs.List.{prefix_len, list_any};
ghost use Rattle.sop_model.specs.Names.{starts_name, continues_name};
ghost use Rattle.vex_lexer.specs.Longest.{IsLongest};
ghost use Rattle.vex_lexer.specs.Words.{begins, is_name, is_marked_name, is_attribute_name};

use crate::lengths::{is_whole, onto};
use sop_model::{continues_name, starts_name};

/// What stands before the name of an attribute.
const MARKS: [&str; 9] = ["@", "f@", "i@", "s@", "v@", "f[]@", "i[]@", "s[]@", "v[]@"];

fn begins_name(rest: &[u8]) -> bool
    ensures { result ≡ begins starts_name rest.now }
{
    match rest {
        [b, ..] => starts_name(*b),
        [] => false,
    }
}

fn name_bytes(rest: &[u8]) -> usize
    ensures { result ≡ prefix_len continues_name rest.now }
{
    rest.iter().take_while(|b| continues_name(**b)).count()
}

/// Whether a word is a name.
pub fn is_name(word: &[u8]) -> bool
    ensures { result ≡ is_name word.now }
{
    is_whole(name_len(word), word)
}

/// The length of the name that begins here, or 0 where none does.
pub fn name_len(rest: &[u8]) -> usize
    ensures { IsLongest is_name rest.now result }
{
    if begins_name(rest) {
        name_bytes(rest)
    } else {
        0
    }
}

/// The length of a mark and the name behind it, or 0 where they don't begin here.
fn marked_name_len(mark: &[u8], rest: &[u8]) -> usize
    ensures { IsLongest (is_marked_name mark.now) rest.now result }
{
    if !rest.starts_with(mark) {
        return 0;
    }
    onto(mark.len(), name_len(&rest[mark.len()..]))
}

/// Whether a word is an attribute name.
pub fn is_attribute_name(word: &[u8]) -> bool
    ensures { result ≡ is_attribute_name word.now }
{
    is_whole(attribute_name_len(word), word)
}

/// The length of the attribute name that begins here, or 0 where none does.
pub fn attribute_name_len(rest: &[u8]) -> usize
    ensures { IsLongest is_attribute_name rest.now result }
{
    longest_marked_name_len(&MARKS, rest)
}

fn longest_marked_name_len(marks: &[&str], rest: &[u8]) -> usize
    ensures { IsLongest (λ word. list_any (λ mark. is_marked_name mark.now word) marks.now) rest.now result }
{
    let mut longest = 0;
    for mark in marks {
        longest = longest.max(marked_name_len(mark.as_bytes(), rest));
    }
    longest
}
