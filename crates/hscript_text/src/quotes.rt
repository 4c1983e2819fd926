//! Where words end.
ghost use Rattle.std.specs.Prelude.{◌≡◌, ◌==◌, false, position};
ghost use Rattle.std.specs.List.{prefix_len};
ghost use Rattle.hscript_text.specs.Words.{is_bare, may_follow, unescaped_quote};

use crate::style::{is_bare, is_script_blank};

/// The number of bytes of the bare word that a text begins with.
pub fn bare_len(text: &[u8]) -> usize
    ensures { result ≡ prefix_len is_bare text.now }
{
    text.iter().take_while(|b| is_bare(**b)).count()
}

/// Whether a text may stand behind a word.
pub fn may_follow(text: &[u8]) -> bool
    ensures { result ≡ may_follow text.now }
{
    match text {
        [b, ..] => is_script_blank(*b) || *b == b'\n',
        [] => true,
    }
}

/// The place of the first single quote.
pub fn single_quote(text: &[u8]) -> Option<usize>
    ensures { result ≡ position (λ b. b == 39) text.now }
{
    text.iter().position(|b| *b == b'\'')
}

/// The place of the first double quote that is in no escape.
pub fn unescaped_quote(text: &[u8]) -> Option<usize>
    ensures { result ≡ unescaped_quote false text.now }
{
    let mut escape = false;
    for (i, b) in text.iter().enumerate() {
        if escape {
            escape = false;
        } else if *b == b'"' {
            return Some(i);
        } else {
            escape = *b == b'\\';
        }
    }
    None
}
