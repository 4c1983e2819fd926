//! The pieces of a word: runs of plain bytes, escapes and variables.
ghost use Rattle.std.specs.Prelude.{◌≡◌, ℕ, ◌+◌, ◌<◌, ◌≤◌, ◌∷◌, [], IfOk, IfErr, length, drop, MatchResult};
ghost use Rattle.std.specs.List.{prefix_len};
ghost use Rattle.std.specs.Option.{option_copied, option_map};
ghost use Rattle.sop_model.specs.Names.{starts_name, continues_name};
ghost use Rattle.hscript_text.specs.Pieces.{name_len, begins, is_plain, escape_of, escape, variable, named, braced, word_of};
ghost use Rattle.hscript_text.specs.Ends.{EndsAs};
ghost use Rattle.hscript_text.specs.Parts.{variables_of, IsTaken};

use crate::cut::cut;
use crate::refusal::{CommandEnd, ScriptKind};
use crate::style::Style;
use crate::variables::Variables;
use sop_model::limits::MOST_NAME_BYTES;
use sop_model::{continues_name, starts_name};

fn name_bytes(text: &[u8]) -> usize
    ensures { result ≡ prefix_len continues_name text.now }
{
    text.iter().take_while(|b| continues_name(**b)).count()
}

/// The length of the longest name of at most 64 bytes that a text begins with, or 0 where none does.
fn name_len(text: &[u8]) -> usize
    ensures { result ≡ name_len text.now }
{
    match text {
        [b, ..] if starts_name(*b) => name_bytes(text).min(MOST_NAME_BYTES),
        _ => 0,
    }
}

/// The variable whose name stands behind a `$`: its text, and the text behind the name.
fn named<'v>(variables: &'v Variables, text: &'v str) -> Result<(&'v str, &'v str), CommandEnd>
    ensures ok { IfOk result (λ v. IsTaken (named (variables_of variables.now) (name_len text.now) text.now) v.0.now text.now v.1.now 1) }
    ensures err { IfErr result (λ end. EndsAs (named (variables_of variables.now) (name_len text.now) text.now) end) }
{
    let n = name_len(text.as_bytes());
    if n == 0 {
        return Err(CommandEnd::Refused(ScriptKind::NoVar));
    }
    let (name, rest) = cut(text, n);
    match variables.get(name) {
        Some(word) => Ok((word.as_str(), rest)),
        None => Err(CommandEnd::Refused(ScriptKind::NoVar)),
    }
}

fn begins(b: u8, text: &str) -> bool
    ensures { result ≡ begins b text.now }
{
    match text.as_bytes() {
        [c, ..] => *c == b,
        [] => false,
    }
}

/// The variable whose name stands behind `${`: its text, and the text behind the `}`.
fn braced<'v>(variables: &'v Variables, text: &'v str) -> Result<(&'v str, &'v str), CommandEnd>
    ensures ok { IfOk result (λ v. IsTaken (braced (variables_of variables.now) (name_len text.now) text.now) v.0.now text.now v.1.now 2) }
    ensures err { IfErr result (λ end. EndsAs (braced (variables_of variables.now) (name_len text.now) text.now) end) }
{
    let n = name_len(text.as_bytes());
    if n == 0 {
        return Err(CommandEnd::Refused(ScriptKind::NoVar));
    }
    let (name, after) = cut(text, n);
    if !begins(b'}', after) {
        return Err(CommandEnd::Refused(ScriptKind::NoVar));
    }
    let (_, rest) = cut(after, 1);
    match variables.get(name) {
        Some(word) => Ok((word.as_str(), rest)),
        None => Err(CommandEnd::Refused(ScriptKind::NoVar)),
    }
}

/// The variable behind a `$`: its text, and the text behind it.
pub fn variable<'v>(
    variables: &'v Variables,
    text: &'v str,
) -> Result<(&'v str, &'v str), CommandEnd>
    ensures ok { IfOk result (λ v. IsTaken (variable (variables_of variables.now) text.now) v.0.now text.now v.1.now 1) }
    ensures err { IfErr result (λ end. EndsAs (variable (variables_of variables.now) text.now) end) }
{
    if begins(b'{', text) {
        braced(variables, cut(text, 1).1)
    } else {
        named(variables, text)
    }
}

fn escape_of(b: u8) -> Option<&'static str>
    ensures { option_copied result ≡ option_map (λ c. c ∷ []) (escape_of b) }
{
    match b {
        b'"' => Some("\""),
        b'\\' => Some("\\"),
        b'$' => Some("$"),
        b'n' => Some("\n"),
        b't' => Some("\t"),
        _ => None,
    }
}

/// The escape behind a backslash: the byte that it gives, and the text behind it.
pub fn escape(text: &str) -> Result<(&str, &str), CommandEnd>
    ensures ok { IfOk result (λ v. IsTaken (escape text.now) v.0.now text.now v.1.now 1) }
    ensures err { IfErr result (λ end. EndsAs (escape text.now) end) }
{
    match text.as_bytes() {
        [b, ..] => match escape_of(*b) {
            Some(byte) => Ok((byte, cut(text, 1).1)),
            None => Err(CommandEnd::Refused(ScriptKind::Quote)),
        },
        [] => Err(CommandEnd::Refused(ScriptKind::Quote)),
    }
}
