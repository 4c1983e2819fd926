//! The part of a command file that is still to be read.
ghost use Rattle.std.specs.Prelude.{◌≡◌, ◌<◌, ◌≤◌, ◌-◌, not, length, drop, slice_index, OnOk, OnErr, IfErr, Ok};
ghost use Rattle.std.specs.List.{prefix_len};
ghost use Rattle.hscript_text.specs.Reading.{is_line_end, line_ends, start_of, set, is_set, reading_from};
ghost use Rattle.hscript_text.specs.declared.start.Start.TheVariants as start;
ghost use Rattle.hscript_text.specs.Ends.{EndsAs};
ghost use Rattle.hscript_text.specs.Parts.{variables_of, reading_left, HasLines, Advances, Gives, IsRest};

use crate::command::Command;
use crate::cut::cut;
use crate::refusal::{CommandEnd, ScriptEnd, ScriptKind, end_of};
use crate::start::{Start, start_of};
use crate::variables::Variables;
use crate::words::read_command;
use sop_model::is_name;
use sop_outside::{Text, TextList};
use std::alloc::Global;

/// The text that is still to be read, the line in which it begins, and the variables that were set before it.
#[derive(Drop)]
pub struct Unread<'a> {
    pub rest: &'a str,
    pub line: u32,
    pub variables: Variables,
    pub alloc: Global,
}

/// Reads on up to the next command that isn't `set`; None at the end of the text.
pub fn next_command(unread: &mut Unread<'_>) -> Result<Option<Command>, ScriptEnd>
    requires lines { HasLines unread.old }
    ensures lines { HasLines unread.new }
    ensures gives { Gives (reading_left unread.old) (reading_left unread.new) result }
{
    while !unread.rest.is_empty() {
        match advance(unread) {
            Ok(None) => {}
            Ok(Some(command)) => return Ok(Some(command)),
            Err(end) => return Err(end),
        }
    }
    Ok(None)
}

/// Reads what the text begins with: a byte between commands, a comment, or a command.
fn advance(unread: &mut Unread<'_>) -> Result<Option<Command>, ScriptEnd>
    requires lines { HasLines unread.old }
    requires some { 0 < length unread.old.rest.now }
    ensures lines { HasLines unread.new }
    ensures further { OnOk result (length unread.new.rest.now < length unread.old.rest.now) }
    ensures advances { Advances unread.old unread.new result }
{
    let [b, ..] = unread.rest.as_bytes() else {
        unreachable!();
    };
    match start_of(*b) {
        Start::Between => {
            let behind = cut(unread.rest, 1).1;
            go_on(unread, behind);
            Ok(None)
        }
        Start::Comment => {
            let behind = from_line_end(unread.rest);
            go_on(unread, behind);
            Ok(None)
        }
        Start::Command => read_line(unread),
    }
}

/// Reads a command, and carries it out if it is `set`.
fn read_line(unread: &mut Unread<'_>) -> Result<Option<Command>, ScriptEnd>
    requires lines { HasLines unread.old }
    requires some { 0 < length unread.old.rest.now }
    requires begins { start_of (slice_index unread.old.rest.now 0) ≡ start.Command }
    ensures lines { HasLines unread.new }
    ensures further { OnOk result (length unread.new.rest.now < length unread.old.rest.now) }
    ensures advances { Advances unread.old unread.new result }
{
    let line = unread.line;
    let (words, behind) = match read_command(unread.alloc, &unread.variables, unread.rest) {
        Ok(read) => read,
        Err(end) => return Err(end_of(line, end)),
    };
    if is_set(words.as_slice()) {
        match set(&mut unread.variables, words) {
            Ok(()) => {}
            Err(end) => return Err(end_of(line, end)),
        }
        go_on(unread, behind);
        return Ok(None);
    }
    go_on(unread, behind);
    let words = TextList::from_vec(words);
    Ok(Some(Command { line, words }))
}

fn is_set(words: &[Text]) -> bool
    ensures { result ≡ is_set words.now }
{
    match words {
        [verb, ..] => verb.as_str() == "set",
        [] => false,
    }
}

/// Carries out `set NAME = TEXT`, whose words begin with its name, and moves the last.
fn set(variables: &mut Variables, mut words: Vec<Text>) -> Result<(), CommandEnd>
    ensures ok { OnOk result (set (variables_of variables.old) words.items ≡ Ok (variables_of variables.new)) }
    ensures refused { IfErr result (λ end. EndsAs (set (variables_of variables.old) words.items) end) }
    ensures err { OnErr result (variables_of variables.new ≡ variables_of variables.old) }
{
    let Some(text) = words.pop() else {
        return Err(CommandEnd::Refused(ScriptKind::BadArgs));
    };
    match words.as_slice() {
        [_, name, sign] if sign.as_str() == "=" => {
            if !is_name(name.as_str().as_bytes()) {
                return Err(CommandEnd::Refused(ScriptKind::BadName));
            }
            variables.set(name.as_str(), text)?;
            Ok(())
        }
        _ => Err(CommandEnd::Refused(ScriptKind::BadArgs)),
    }
}

/// Goes on behind what was read.
fn go_on<'a>(unread: &mut Unread<'a>, behind: &'a str)
    requires lines { HasLines unread.old }
    requires rest { IsRest unread.old.rest.now behind.now }
    ensures lines { HasLines unread.new }
    ensures rest { unread.new.rest.now ≡ behind.now }
    ensures reading { reading_left unread.new ≡ reading_from unread.old.line (variables_of unread.old.variables) (length unread.old.rest.now - length behind.now) unread.old.rest.now }
{
    let read = unread.rest.len() - behind.len();
    unread.line += line_ends(&unread.rest.as_bytes()[..read]) as u32;
    unread.rest = behind;
}

/// The number of line ends.
pub fn line_ends(text: &[u8]) -> usize
    ensures value { result ≡ line_ends text.now }
    ensures few { result ≤ length text.now }
{
    text.iter().filter(|b| **b == b'\n').count()
}

/// The text from the end of the line on.
fn from_line_end(text: &str) -> &str
    ensures { result.now ≡ drop (prefix_len (λ b. not (is_line_end b)) text.now) text.now }
{
    cut(text, line_len(text.as_bytes())).1
}

fn line_len(text: &[u8]) -> usize
    ensures { result ≡ prefix_len (λ b. not (is_line_end b)) text.now }
{
    text.iter().take_while(|b| **b != b'\n').count()
}
