//! Blanks, and the words between them.
ghost use Rattle.std.specs.Prelude.{◌≡◌, ◌∷◌, [], ◌^◌, ◌<◌, ◌≤◌, not, length, IfSome, IfNone};
ghost use Rattle.std.specs.List.{prefix_len};
ghost use Rattle.std.specs.Iterator.{YieldsFirstRef, item_count};
ghost use Rattle.sop_outside.specs.Blanks.{is_blank, words_of, begins_filled};

use std::marker::Model;

/// The words of a text, in order: its longest runs of bytes that aren't blanks. A blank is a space, tab, CR or LF.
/// Contracts see the words that are still to come. All of them take time linear in the text, and no memory.
#[derive(Drop)]
pub struct Words<'a> {
    rest: &'a [u8],
}

impl<'a> Model for Words<'a> {
    ghost use Rattle.std.specs.Prelude.{List, ℕ};
    ghost use Rattle.sop_outside.specs.Blanks.{words_of};

    ghost Value = { List (List ℕ) };

    ghost view = { λ w. words_of w.rest.now };
}

/// The words of `text`.
#[tactic(auto, using(crate::proofs::BlankWords::words_are_few))]
pub fn words_of(text: &[u8]) -> Words<'_>
    ensures value { result ≡ words_of text.now }
    ensures few { length result ≤ length text.now }
    ensures fits { length result < 2 ^ 64 }
{
    Words { rest: text }
}

impl<'a> Iterator for Words<'a> {
    type Item = &'a [u8];

    ghost next_gives = { YieldsFirstRef (λ words. words) };

    ghost remaining = { item_count (λ words. words) };

    fn next(&mut self) -> Option<&'a [u8]> {
        let Some((word, rest)) = next_word(self.rest) else {
            return None;
        };
        self.rest = rest;
        Some(word)
    }
}

/// The first word of `text` and what stands behind it, or None where there is no word.
pub fn next_word(text: &[u8]) -> Option<(&[u8], &[u8])>
    ensures word { IfSome result (λ found. words_of text.now ≡ found.0.now ∷ words_of found.1.now) }
    ensures shorter { IfSome result (λ found. length found.1.now < length text.now) }
    ensures none { IfNone result (words_of text.now ≡ []) }
{
    let text = behind_blanks(text);
    if text.is_empty() {
        return None;
    }
    Some(text.split_at(word_len(text)))
}

/// What stands behind the blanks that `text` begins with.
fn behind_blanks(text: &[u8]) -> &[u8]
    ensures words { words_of result.now ≡ words_of text.now }
    ensures filled { begins_filled result.now }
    ensures short { length result.now ≤ length text.now }
{
    let (_, rest) = text.split_at(blanks_len(text));
    rest
}

fn blanks_len(text: &[u8]) -> usize
    ensures value { result ≡ prefix_len is_blank text.now }
    ensures within { result ≤ length text.now }
{
    text.iter().take_while(|byte| is_blank(**byte)).count()
}

/// The number of bytes before the first blank.
fn word_len(text: &[u8]) -> usize
    ensures value { result ≡ prefix_len (λ byte. not (is_blank byte)) text.now }
    ensures within { result ≤ length text.now }
{
    text.iter().take_while(|byte| !is_blank(**byte)).count()
}

/// Whether a byte is a space, tab, CR or LF.
pub fn is_blank(byte: u8) -> bool
    ensures { result ≡ is_blank byte }
{
    matches!(byte, b' ' | b'\t' | b'\r' | b'\n')
}
