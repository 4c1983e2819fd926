//! Lengths of what begins at a place.
ghost use Rattle.std.specs.Prelude.{◌≡◌, ◌+◌, ◌^◌, ◌<◌, ◌&&◌, ◌==◌, nat_lt, length};
ghost use Rattle.vex_lexer.specs.Longest.{onto};

/// A length behind so many bytes more, or 0 where it is 0.
pub fn onto(by: usize, len: usize) -> usize
    requires { by + len < 2 ^ 64 }
    ensures { result ≡ onto by len }
{
    if len == 0 { 0 } else { by + len }
}

/// Whether a length is that of a whole word, which isn't empty.
pub fn is_whole(len: usize, word: &[u8]) -> bool
    ensures { result ≡ (nat_lt 0 len && (len == length word.now)) }
{
    len > 0 && len == word.len()
}
