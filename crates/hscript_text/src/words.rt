//! The words of a command.
ghost use Rattle.std.specs.Prelude.{◌≡◌, ◌<◌, ◌≤◌, ◌==◌, Ok, IfOk, IfErr, length, drop, position, slice_index, false};
ghost use Rattle.std.specs.Str.{IsUtf8};
ghost use Rattle.hscript_text.specs.declared.style.Opening.TheVariants as opening;
ghost use Rattle.hscript_text.specs.declared.style.Style.TheVariants as style;
ghost use Rattle.hscript_text.specs.Words.{opening_of, bare, quoted, first_word, unescaped_quote, command_of};
ghost use Rattle.hscript_text.specs.Ends.{EndsAs};
ghost use Rattle.hscript_text.specs.Parts.{variables_of, IsRead, IsRest, IsEnd};

use crate::cut::cut;
use crate::quotes::{bare_len, may_follow, single_quote, unescaped_quote};
use crate::refusal::{CommandEnd, ScriptKind};
use crate::style::{Opening, Style, opening_of};
use crate::variables::Variables;
use crate::word::word_of;
use sop_outside::Text;
use std::alloc::Global;

/// The words of the command that a text begins with, and the text behind its line.
pub fn read_command<'a>(
    alloc: Global,
    variables: &Variables,
    text: &'a str,
) -> Result<(Vec<Text>, &'a str), CommandEnd>
    ensures ok { IfOk result (λ read. command_of (variables_of variables.now) text.now ≡ Ok (read.0.items, read.1.now)) }
    ensures rest { IfOk result (λ read. IsRest text.now read.1.now) }
    ensures further { IfOk result (λ read. 0 < length text.now → length read.1.now < length text.now) }
    ensures err { IfErr result (λ end. EndsAs (command_of (variables_of variables.now) text.now) end) }
{
    let mut words = Vec::new(alloc);
    let mut rest = text;
    'words: while let [b, ..] = rest.as_bytes() {
        match opening_of(*b) {
            Opening::Blank => rest = cut(rest, 1).1,
            Opening::LineEnd => return Ok((words, cut(rest, 1).1)),
            Opening::Word(style) => {
                let (word, behind) = match read_word(alloc, style, variables, rest) {
                    Ok(read) => read,
                    Err(end) => return Err(end),
                };
                match words.push(word) {
                    Ok(()) => rest = behind,
                    Err(_) => return Err(CommandEnd::Memory),
                }
            }
        }
    }
    Ok((words, rest))
}

/// The word of this style that a text begins with, and the text behind it.
fn read_word<'a>(
    alloc: Global,
    style: Style,
    variables: &Variables,
    text: &'a str,
) -> Result<(Text, &'a str), CommandEnd>
    requires some { 0 < length text.now }
    requires begins { opening_of (slice_index text.now 0) ≡ opening.Word style }
    ensures ok { IfOk result (λ read. IsRead (first_word style (variables_of variables.now) text.now) read.0 text.now read.1.now 0) }
    ensures utf8 { IfOk result (λ read. IsUtf8 read.1.now) }
    ensures err { IfErr result (λ end. EndsAs (first_word style (variables_of variables.now) text.now) end) }
{
    match style {
        Style::Bare => bare(alloc, variables, text),
        Style::Single => {
            let body = cut(text, 1).1;
            quoted(alloc, style, variables, single_quote(body.as_bytes()), body)
        }
        Style::Double => {
            let body = cut(text, 1).1;
            quoted(
                alloc,
                style,
                variables,
                unescaped_quote(body.as_bytes()),
                body,
            )
        }
    }
}

/// A bare word, and the text behind it.
fn bare<'a>(
    alloc: Global,
    variables: &Variables,
    text: &'a str,
) -> Result<(Text, &'a str), CommandEnd>
    requires some { 0 < length text.now }
    requires begins { opening_of (slice_index text.now 0) ≡ opening.Word style.Bare }
    ensures ok { IfOk result (λ read. IsRead (bare (variables_of variables.now) text.now) read.0 text.now read.1.now 0) }
    ensures utf8 { IfOk result (λ read. IsUtf8 read.1.now) }
    ensures err { IfErr result (λ end. EndsAs (bare (variables_of variables.now) text.now) end) }
{
    let (body, rest) = cut(text, bare_len(text.as_bytes()));
    match word_of(alloc, Style::Bare, variables, body) {
        Ok(word) if may_follow(rest.as_bytes()) => Ok((word, rest)),
        Ok(_) => Err(CommandEnd::Refused(ScriptKind::Quote)),
        Err(end) => Err(end),
    }
}

/// A quoted word by the text behind its opening quote and the place of the closing one there, and the text behind it.
fn quoted<'a>(
    alloc: Global,
    style: Style,
    variables: &Variables,
    closing: Option<usize>,
    text: &'a str,
) -> Result<(Text, &'a str), CommandEnd>
    requires { IsEnd text.now closing }
    ensures ok { IfOk result (λ read. IsRead (quoted style (variables_of variables.now) closing text.now) read.0 text.now read.1.now 1) }
    ensures utf8 { IfOk result (λ read. IsUtf8 read.1.now) }
    ensures err { IfErr result (λ end. EndsAs (quoted style (variables_of variables.now) closing text.now) end) }
{
    let Some(n) = closing else {
        return Err(CommandEnd::Refused(ScriptKind::Quote));
    };
    let (body, after) = cut(text, n);
    let rest = cut(after, 1).1;
    match word_of(alloc, style, variables, body) {
        Ok(word) if may_follow(rest.as_bytes()) => Ok((word, rest)),
        Ok(_) => Err(CommandEnd::Refused(ScriptKind::Quote)),
        Err(end) => Err(end),
    }
}
