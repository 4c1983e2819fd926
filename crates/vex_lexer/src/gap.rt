//! Blanks and comments.
ghost use Rattle.std.specs.Prelude.{◌≡◌, false, not};
ghost use Rattle.std.specs.List.{prefix_len};
ghost use Rattle.sop_outside.specs.Blanks.{is_blank};
ghost use Rattle.vex_lexer.specs.Longest.{IsLongest};
ghost use Rattle.vex_lexer.specs.Words.{begins, is_line_end};
ghost use Rattle.vex_lexer.specs.Gaps.{is_line_comment, ends_comment, is_block_comment, is_comment, begins_comment};

use crate::lengths::onto;
use sop_outside::is_blank;

/// Whether a blank begins here.
pub fn begins_blank(rest: &[u8]) -> bool
    ensures { result ≡ begins is_blank rest.now }
{
    match rest {
        [b, ..] => is_blank(*b),
        [] => false,
    }
}

/// Whether a comment begins here, of either kind, closed or not.
pub fn begins_comment(rest: &[u8]) -> bool
    ensures { result ≡ begins_comment rest.now }
{
    rest.starts_with(b"//") || rest.starts_with(b"/*")
}

fn line_len(rest: &[u8]) -> usize
    ensures { result ≡ prefix_len (λ b. not (is_line_end b)) rest.now }
{
    rest.iter().take_while(|b| **b != b'\n').count()
}

/// The length of the line comment that begins here, or 0 where none does.
fn line_comment_len(rest: &[u8]) -> usize
    ensures { IsLongest is_line_comment rest.now result }
{
    if rest.starts_with(b"//") {
        line_len(rest)
    } else {
        0
    }
}

/// The number of bytes to the end of the first `*/`, or 0 where there is none.
fn comment_end(text: &[u8]) -> usize
    ensures { IsLongest (ends_comment false) text.now result }
{
    let mut star = false;
    for (i, b) in text.iter().enumerate() {
        if star && *b == b'/' {
            return i + 1;
        }
        star = *b == b'*';
    }
    0
}

/// The length of the block comment that begins here, or 0 where none does.
fn block_comment_len(rest: &[u8]) -> usize
    ensures { IsLongest is_block_comment rest.now result }
{
    if !rest.starts_with(b"/*") {
        return 0;
    }
    onto(2, comment_end(&rest[2..]))
}

/// The length of the comment that begins here, or 0 where none does.
pub fn comment_len(rest: &[u8]) -> usize
    ensures { IsLongest is_comment rest.now result }
{
    line_comment_len(rest).max(block_comment_len(rest))
}
