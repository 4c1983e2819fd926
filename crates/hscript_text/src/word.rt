//! A word from its pieces.
ghost use Rattle.std.specs.Prelude.{◌≡◌, ◌<◌, ◌≤◌, ◌∷◌, false, Ok, IfOk, IfErr, length, drop, string_bytes};
ghost use Rattle.std.specs.List.{prefix_len};
ghost use Rattle.hscript_text.specs.Pieces.{is_plain, special, word_of};
ghost use Rattle.hscript_text.specs.Ends.{EndsAs};
ghost use Rattle.hscript_text.specs.Parts.{variables_of, grown, Adds, IsTaken};

use crate::cut::cut;
use crate::limits::MOST_WORD_BYTES;
use crate::piece::{escape, variable};
use crate::refusal::{CommandEnd, ScriptKind};
use crate::style::Style;
use crate::variables::Variables;
use sop_outside::Text;
use std::alloc::Global;

/// The word that the pieces of a text make.
pub fn word_of(
    alloc: Global,
    style: Style,
    variables: &Variables,
    text: &str,
) -> Result<Text, CommandEnd>
    ensures ok { IfOk result (λ word. word_of style (variables_of variables.now) text.now ≡ Ok word) }
    ensures err { IfErr result (λ end. EndsAs (word_of style (variables_of variables.now) text.now) end) }
{
    let mut word = String::new(alloc);
    let mut rest = text;
    while !rest.is_empty() {
        match add_pieces(&mut word, style, variables, rest) {
            Ok(behind) => rest = behind,
            Err(end) => return Err(end),
        }
    }
    Ok(Text::from_string(word))
}

/// Adds the pieces that a text begins with, at least one, and answers the text behind them.
fn add_pieces<'a>(
    word: &mut String,
    style: Style,
    variables: &'a Variables,
    text: &'a str,
) -> Result<&'a str, CommandEnd>
    requires some { 0 < length text.now }
    ensures ok { IfOk result (λ rest. grown style (variables_of variables.now) (string_bytes word.old) text.now ≡ grown style (variables_of variables.now) (string_bytes word.new) rest.now) }
    ensures rest { IfOk result (λ rest. length rest.now < length text.now) }
    ensures err { IfErr result (λ end. EndsAs (grown style (variables_of variables.now) (string_bytes word.old) text.now) end) }
{
    match text.as_bytes() {
        [b, ..] if !style.is_plain(*b) => add_special(word, style, variables, *b, cut(text, 1).1),
        _ => add_run(word, style, variables, text),
    }
}

/// Adds the plain bytes that a text begins with, and answers the text behind them.
fn add_run<'a>(
    word: &mut String,
    style: Style,
    variables: &Variables,
    text: &'a str,
) -> Result<&'a str, CommandEnd>
    ensures ok { IfOk result (λ rest. grown style (variables_of variables.now) (string_bytes word.old) text.now ≡ grown style (variables_of variables.now) (string_bytes word.new) rest.now) }
    ensures rest { IfOk result (λ rest. rest.now ≡ drop (prefix_len (is_plain style) text.now) text.now) }
    ensures err { IfErr result (λ end. EndsAs (grown style (variables_of variables.now) (string_bytes word.old) text.now) end) }
{
    let n = plain_len(style, text.as_bytes());
    let (run, rest) = cut(text, n);
    match add(word, run) {
        Ok(()) => Ok(rest),
        Err(end) => Err(end),
    }
}

fn plain_len(style: Style, text: &[u8]) -> usize
    ensures { result ≡ prefix_len (is_plain style) text.now }
{
    text.iter().take_while(|b| style.is_plain(**b)).count()
}

/// Adds what a byte that doesn't stand for itself gives with the text behind it, and answers the text behind both.
fn add_special<'a>(
    word: &mut String,
    style: Style,
    variables: &'a Variables,
    b: u8,
    text: &'a str,
) -> Result<&'a str, CommandEnd>
    requires { is_plain style b ≡ false }
    ensures ok { IfOk result (λ rest. grown style (variables_of variables.now) (string_bytes word.old) (b ∷ text.now) ≡ grown style (variables_of variables.now) (string_bytes word.new) rest.now) }
    ensures rest { IfOk result (λ rest. length rest.now ≤ length text.now) }
    ensures err { IfErr result (λ end. EndsAs (grown style (variables_of variables.now) (string_bytes word.old) (b ∷ text.now)) end) }
{
    match special(variables, b, text) {
        Ok((bytes, rest)) => match add(word, bytes) {
            Ok(()) => Ok(rest),
            Err(end) => Err(end),
        },
        Err(end) => Err(end),
    }
}

/// What stands behind a byte that doesn't stand for itself: what both give, and the text behind them.
fn special<'a>(
    variables: &'a Variables,
    b: u8,
    text: &'a str,
) -> Result<(&'a str, &'a str), CommandEnd>
    ensures ok { IfOk result (λ v. IsTaken (special (variables_of variables.now) b text.now) v.0.now text.now v.1.now 1) }
    ensures err { IfErr result (λ end. EndsAs (special (variables_of variables.now) b text.now) end) }
{
    if b == b'$' {
        variable(variables, text)
    } else {
        escape(text)
    }
}

/// Adds text at the end of a word. `LongWord` where there is no room for it.
fn add(word: &mut String, text: &str) -> Result<(), CommandEnd>
    ensures { Adds (string_bytes word.old) (string_bytes word.new) text.now result }
{
    if text.len() > MOST_WORD_BYTES.saturating_sub(word.len()) {
        return Err(CommandEnd::Refused(ScriptKind::LongWord));
    }
    word.push_str(text)?;
    Ok(())
}
