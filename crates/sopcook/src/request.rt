//! The words of the command line.
ghost use Rattle.std.specs.Prelude.{◌≡◌, Err, IfOk, None, Some, codes, false, map, option_map, string_bytes, true};
ghost use Rattle.clap.specs.Words.{app_of, fault_of, first_value, found_of, kind_of, matches_of, rows_of};
ghost use Rattle.sopcook.specs.Request.{are_taken, are_workers, asked, form_asked, form_named, is_workers, request_of, request_seen, sopcook_app};

use crate::limits::{MOST_WORKER_DIGITS, MOST_WORKERS};
use clap::error::ErrorKind;
use clap::{Arg, ArgMatches, Command, Error};
use sop_fixed::read_number;
use std::alloc::{AllocError, Global};

/// The form of the text that a geometry is written as.
#[derive(Clone, Copy, Debug, PartialEq, Eq)]
pub enum Form {
    /// OBJ.
    Obj,
    /// The listing.
    List,
}

/// What the words ask for.
#[derive(Clone, Copy, Debug)]
pub struct Request<'a> {
    /// The name of the script.
    pub script: &'a str,
    /// The name of the node to cook.
    pub node: &'a str,
    /// The form of its geometry's text.
    pub form: Form,
}

/// Why the words ask for nothing.
#[derive(Clone, Copy, Debug, PartialEq, Eq)]
pub enum RequestEnd {
    /// The words are refused.
    Refused,
    /// There wasn't memory enough.
    Memory,
}

/// The command: `sopcook SCRIPT NODE [-j N] [--form FORM]`.
fn command<'a>(alloc: Global) -> Result<Command<'a>, AllocError>
    ensures { IfOk result (λ command. app_of command ≡ sopcook_app) }
{
    let script = Arg::new(alloc, "script").required(true);
    let node = Arg::new(alloc, "node").required(true);
    let workers = Arg::new(alloc, "workers").short('j');
    let form = Arg::new(alloc, "form").long("form");
    Command::new(alloc, "sopcook")
        .no_binary_name(true)
        .disable_help_flag(true)
        .arg(script)?
        .arg(node)?
        .arg(workers)?
        .arg(form)
}

/// A number of workers: one or two digits with a value from 1 to 64.
fn is_workers(text: &[u8]) -> bool
    ensures { result ≡ is_workers text.now }
{
    match read_number(text, MOST_WORKER_DIGITS) {
        Some(workers) => 1 <= workers && workers <= MOST_WORKERS,
        None => false,
    }
}

/// They may be left out.
fn are_workers(text: Option<&str>) -> bool
    ensures { result ≡ are_workers (option_map (λ t. t.now) text.entry) }
{
    match text {
        Some(text) => is_workers(text.as_bytes()),
        None => true,
    }
}

/// The form of this name.
fn form_named(name: &str) -> Option<Form>
    ensures { result ≡ form_named name.now }
{
    if name == "obj" {
        return Some(Form::Obj);
    }
    if name == "list" {
        return Some(Form::List);
    }
    None
}

/// The form that is asked for: OBJ where it is left out.
fn form_asked(name: Option<&str>) -> Option<Form>
    ensures { result ≡ form_asked (option_map (λ t. t.now) name.entry) }
{
    match name {
        Some(name) => form_named(name),
        None => Some(Form::Obj),
    }
}

/// What an error of the command means.
fn end_of(error: &Error) -> RequestEnd
    ensures { result ≡ RequestEnd.Refused → kind_of error.now ≡ ErrorKind.OutOfMemory → ⊥ }
{
    match error.kind() {
        ErrorKind::OutOfMemory => RequestEnd::Memory,
        _ => RequestEnd::Refused,
    }
}

/// The matches of the words.
fn parse<'a>(alloc: Global, words: &'a [String]) -> Result<ArgMatches<'a>, RequestEnd>
    ensures taken { IfOk result (λ matches. are_taken (fault_of sopcook_app (map string_bytes words.now)) ≡ true) }
    ensures rows { IfOk result (λ matches. rows_of (found_of matches) ≡ matches_of sopcook_app (map string_bytes words.now)) }
    ensures refused { result ≡ Err RequestEnd.Refused → are_taken (fault_of sopcook_app (map string_bytes words.now)) ≡ false }
{
    let command = match command(alloc) {
        Ok(command) => command,
        Err(_) => return Err(RequestEnd::Memory),
    };
    match command.try_get_matches_from(words) {
        Ok(matches) => Ok(matches),
        Err(error) => Err(end_of(&error)),
    }
}

/// What the matches ask for.
fn asked<'a>(matches: &ArgMatches<'a>) -> Option<Request<'a>>
    ensures { option_map request_seen result ≡ asked (are_workers (first_value (found_of matches.now) (codes "workers"))) (form_asked (first_value (found_of matches.now) (codes "form")))
        (first_value (found_of matches.now) (codes "script")) (first_value (found_of matches.now) (codes "node")) }
{
    if !are_workers(matches.get_str("workers")) {
        return None;
    }
    let form = form_asked(matches.get_str("form"))?;
    let script = matches.get_str("script")?;
    let node = matches.get_str("node")?;
    Some(Request { script, node, form })
}

/// What the words ask for. `Refused` comes exactly where they aren't taken, `Memory` for want of memory.
pub fn read_words<'a>(alloc: Global, words: &'a [String]) -> Result<Request<'a>, RequestEnd>
    ensures ok { IfOk result (λ request. request_of (map string_bytes words.now) ≡ Some (request_seen request)) }
    ensures refused { result ≡ Err RequestEnd.Refused → request_of (map string_bytes words.now) ≡ None }
{
    let matches = match parse(alloc, words) {
        Ok(matches) => matches,
        Err(end) => return Err(end),
    };
    match asked(&matches) {
        Some(request) => Ok(request),
        None => Err(RequestEnd::Refused),
    }
}
