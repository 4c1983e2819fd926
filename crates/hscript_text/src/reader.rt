//! The reader of command files.
ghost use Rattle.std.specs.Prelude.{◌≡◌, ◌≤◌, false, true, length, IfOk, IfErr, IfSome, IfNone, OnErr};
ghost use Rattle.std.specs.Str.{is_utf8};
ghost use Rattle.std.specs.Str.Lossy.{utf8_valid_len};
ghost use Rattle.hscript_text.specs.Limits.{most_script_bytes};
ghost use Rattle.hscript_text.specs.Reading.{line_of, reading_of, nothing, followed};
ghost use Rattle.hscript_text.specs.Ends.{EndsReading};

use crate::command::Command;
use crate::refusal::{ScriptEnd, ScriptKind};
use crate::unread::{Unread, line_ends, next_command};
use crate::variables::Variables;
use std::alloc::Global;
use std::marker::Model;
use std::str;

/// Reads a command file one command after the other. Contracts see what is still to come: the commands up to the first that can't be read, and
/// why it can't.
#[derive(Drop)]
pub struct Reader<'a> {
    unread: Unread<'a>,
}

impl<'a> Model for Reader<'a> {
    ghost use Rattle.hscript_text.specs.Reading.{Reading};
    ghost use Rattle.hscript_text.specs.Parts.{reading_left, HasLines};

    ghost Value = { Reading };

    ghost view = { λ r. reading_left r.unread };

    ghost invariant = { λ r. HasLines r.unread };
}

impl<'a> Reader<'a> {
    /// A reader of these bytes, at most 4 MiB. The only refusal is `BadBytes`, for bytes that aren't UTF-8; no memory is taken.
    pub fn new(alloc: Global, bytes: &'a [u8]) -> Result<Reader<'a>, ScriptEnd>
        requires { length bytes.now ≤ most_script_bytes }
        ensures ok { IfOk result (λ reader. (is_utf8 bytes.now ≡ true) × (reader ≡ reading_of bytes.now)) }
        ensures refused { IfErr result (λ end. (is_utf8 bytes.now ≡ false) × (end ≡ ScriptEnd.Refused (line_of bytes.now (utf8_valid_len bytes.now)) ScriptKind.BadBytes)) }
    {
        match str::from_utf8(bytes) {
            Ok(text) => Ok(Reader {
                unread: Unread {
                    rest: text,
                    line: 1,
                    variables: Variables::new(alloc),
                    alloc,
                },
            }),
            Err(error) => Err(ScriptEnd::Refused {
                line: 1 + line_ends(&bytes[..error.valid_up_to()]) as u32,
                kind: ScriptKind::BadBytes,
            }),
        }
    }

    /// The next command, or None at the end of the text. `set` is carried out and given to nobody.
    ///
    /// `Quote`, `NoVar`, `LongWord`, and for `set` `BadArgs` and `BadName` come in the command's line; `Memory` comes for want of memory alone.
    /// Then the same is still to come.
    pub fn next(&mut self) -> Result<Option<Command>, ScriptEnd>
        ensures some { IfOk result (λ next. IfSome next (λ command. self.old ≡ followed command self.new)) }
        ensures none { IfOk result (λ next. IfNone next ((self.old ≡ nothing) × (self.new ≡ nothing))) }
        ensures refused { IfErr result (λ end. EndsReading self.old end) }
        ensures err { OnErr result (self.new ≡ self.old) }
    {
        next_command(&mut self.unread)
    }
}
