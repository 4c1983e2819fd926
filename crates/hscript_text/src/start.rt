//! What begins between commands.
ghost use Rattle.std.specs.Prelude.{◌≡◌};
ghost use Rattle.hscript_text.specs.Reading.{start_of};

use crate::style::is_script_blank;

/// What a byte begins between commands.
#[derive(Clone, Copy)]
pub enum Start {
    Between,
    Comment,
    Command,
}

/// What this byte begins between commands.
pub fn start_of(b: u8) -> Start
    ensures { result ≡ start_of b }
{
    if is_script_blank(b) || b == b'\n' {
        Start::Between
    } else if b == b'#' {
        Start::Comment
    } else {
        Start::Command
    }
}
