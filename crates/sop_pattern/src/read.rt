// The words that a text is.
ghost use Rattle.std.specs.Prelude.{◌≡◌, ◌≤◌, length, true, IfOk, IfErr, IfSome, Ok};
ghost use Rattle.std.specs.List.{list_all};
ghost use Rattle.sop_model.specs.Limits.{most_pattern_bytes};
ghost use Rattle.sop_pattern.specs.Words.{atom_of, word_of, pattern_of};
ghost use Rattle.sop_pattern.specs.Selection.{IsReadFault};
ghost use Rattle.sop_pattern.specs.Marks.{has_period};

use crate::fault::PatternFault;
use crate::named::read_named;
use crate::numbers::read_numbers;
use crate::word::{Atom, Effect, Word};
use sop_outside::words_of;
use std::alloc::{AllocError, Global};

/// The words of a text, or the number of its first bad word.
pub fn read_words(alloc: Global, text: &[u8]) -> Result<Vec<Word>, PatternFault>
    requires { length text.now ≤ most_pattern_bytes }
    ensures ok { IfOk result (λ words. pattern_of text.now ≡ Ok words.items) }
    ensures err { IfErr result (IsReadFault (pattern_of text.now)) }
    ensures periods { IfOk result (λ words. list_all (λ w. has_period w.atom) words.items ≡ true) }
    ensures few { IfOk result (λ words. length words.items ≤ most_pattern_bytes) }
{
    let mut words = Vec::new(alloc);
    for text in words_of(text) {
        match read_word(alloc, text)? {
            Some(word) => words.push(word)?,
            None => return Err(PatternFault::BadWord(words.len() as u32)),
        }
    }
    Ok(words)
}

/// What a word is; None is a bad word.
fn read_word(alloc: Global, text: &[u8]) -> Result<Option<Word>, AllocError>
    ensures value { IfOk result (λ word. word ≡ word_of text.now) }
    ensures period { IfOk result (λ word. IfSome word (λ w. has_period w.atom ≡ true)) }
{
    let (effect, text) = match text {
        [b'!', rest @ ..] => (Effect::AddsOthers, rest),
        [b'^', rest @ ..] => (Effect::Takes, rest),
        _ => (Effect::Adds, text),
    };
    match read_atom(alloc, text)? {
        Some(atom) => Ok(Some(Word { effect, atom })),
        None => Ok(None),
    }
}

/// A word that begins with a digit is numbers.
fn read_atom(alloc: Global, word: &[u8]) -> Result<Option<Atom>, AllocError>
    ensures value { IfOk result (λ atom. atom ≡ atom_of word.now) }
    ensures period { IfOk result (λ atom. IfSome atom (λ a. has_period a ≡ true)) }
{
    match word {
        [] => Ok(None),
        [first, ..] if first.is_ascii_digit() => Ok(read_numbers(word)),
        _ => read_named(alloc, word),
    }
}
