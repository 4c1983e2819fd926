// Lines and words of an OBJ text, read from its front.
ghost use Rattle.std.specs.Prelude.{◌≡◌, ◌∷◌, ◌++◌, ◌<◌, ◌≤◌, length, take, drop, option_map, true, false, IfSome, MatchOption};
ghost use Rattle.geo_text.specs.ObjLines.{behind_end, joined, is_blank, without_mark};
ghost use Rattle.geo_text.specs.ObjScan.{joined_left, behind_line, words_here, words_left, is_word, is_apart, begins_word, begins_blank, ends_in};

use memchr::{memchr_iter, memchr2};

/// The text without the byte order mark at its start.
pub(crate) fn without_mark(bytes: &[u8]) -> &[u8]
    ensures { result.now ≡ without_mark bytes.now }
{
    match bytes {
        [0xef, 0xbb, 0xbf, text @ ..] => text,
        _ => bytes,
    }
}

/// What stands behind LF or CR LF at the start.
fn behind_end(text: &[u8]) -> Option<&[u8]>
    ensures end { option_map (λ rest. rest.now) result ≡ behind_end text.now }
    ensures shorter { IfSome result (λ rest. length rest.now < length text.now) }
{
    match text {
        [b'\n', rest @ ..] => Some(rest),
        [b'\r', b'\n', rest @ ..] => Some(rest),
        _ => None,
    }
}

/// What stands behind a backslash, without the end of the line that it joins.
fn behind_backslash(text: &[u8]) -> &[u8]
    ensures line { behind_line (joined (92 ∷ text.now)) ≡ behind_line (joined result.now) }
    ensures within { length result.now ≤ length text.now }
{
    behind_end(text).unwrap_or(text)
}

/// What stands behind the end of the first line, where it has one.
pub(crate) fn next_line(text: &[u8]) -> Option<&[u8]>
    ensures line { joined_left result ≡ behind_line (joined text.now) }
    ensures shorter { IfSome result (λ rest. length rest.now < length text.now) }
{
    let mut rest = text;
    while let Some(at) = memchr2(b'\n', b'\\', rest) {
        let more = &rest[at + 1..];
        if rest[at] == b'\n' {
            return Some(more);
        }
        rest = behind_backslash(more);
    }
    None
}

fn is_blank(byte: u8) -> bool
    ensures { result ≡ is_blank byte }
{
    byte <= b' ' && matches!(byte, b' ' | b'\t' | b'\r' | 11 | 12)
}

/// What stands behind a blank at the start.
fn behind_blank(text: &[u8]) -> Option<&[u8]>
    ensures blank { MatchOption result (begins_blank (joined text.now) ≡ false) (λ rest. words_here rest.now ≡ words_here text.now) }
    ensures shorter { IfSome result (λ rest. length rest.now < length text.now) }
{
    match text {
        [b'\\', rest @ ..] => behind_end(rest),
        [byte, rest @ ..] if is_blank(*byte) => Some(rest),
        _ => None,
    }
}

/// The text without the blanks at its start.
fn skip_blanks(text: &[u8]) -> &[u8]
    ensures words { words_here result.now ≡ words_here text.now }
    ensures start { begins_blank (joined result.now) ≡ false }
    ensures within { length result.now ≤ length text.now }
{
    let mut rest = text;
    while let Some(more) = behind_blank(rest) {
        rest = more;
    }
    rest
}

/// Whether no word goes on into a text.
pub(crate) fn is_apart(text: &[u8]) -> bool
    ensures { result ≡ is_apart (joined text.now) }
{
    match text {
        [] => true,
        [b'\\', rest @ ..] => behind_end(rest).is_some(),
        [byte, ..] => *byte <= b' ' && matches!(*byte, b' ' | b'\t' | b'\n' | b'\r' | 11 | 12),
    }
}

/// How many bytes stand before the first blank or the end of the line.
fn word_len(text: &[u8]) -> usize
    ensures within { result ≤ length text.now }
    ensures text { joined text.now ≡ take result text.now ++ joined (drop result text.now) }
    ensures word { is_word (take result text.now) ≡ true }
    ensures rest { is_apart (joined (drop result text.now)) ≡ true }
{
    let mut len = 0;
    while !is_apart(&text[len..]) {
        len += 1;
    }
    len
}

/// The next word of the line, and what stands behind it. None where the line ends, or a comment begins.
#[inline(always)]
pub(crate) fn next_word(text: &[u8]) -> Option<(&[u8], &[u8])>
    ensures words { words_here text.now ≡ words_left result }
    ensures shorter { IfSome result (λ next. length next.1.now < length text.now) }
{
    let text = skip_blanks(text);
    let (word, rest) = text.split_at(word_len(text));
    if begins_word(word) {
        Some((word, rest))
    } else {
        None
    }
}

/// Whether some bytes are a word, and not the start of a comment.
fn begins_word(word: &[u8]) -> bool
    ensures { result ≡ begins_word word.now }
{
    match word {
        [] => false,
        [first, ..] => *first != b'#',
    }
}

/// How many ends of lines a text has, those of joined lines too.
pub(crate) fn ends_in(text: &[u8]) -> usize
    ensures value { result ≡ ends_in (joined text.now) }
    ensures within { result ≤ length text.now }
{
    memchr_iter(b'\n', text).count()
}
