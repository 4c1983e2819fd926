//! Cooks a node of the network that a command file builds, and writes its geometry as OBJ or as a listing.
#![tactic(auto)]

ghost use Rattle.std.specs.Prelude.{◌≡◌, ◌≢◌, ◌≤◌, ◌⊎◌};
ghost use Rattle.sop_outside.specs.Causes.{Rose};
ghost use Rattle.sop_outside.specs.Told.{appended, AppendsPrefix};
ghost use Rattle.sopcook.specs.Answer.{words_answer};

mod answer;
mod limits;
mod loads;
mod node;
mod request;
mod run;
mod run_end;
mod script;

use run::{refuse_words, run};
use sop_outside::{DiskFiles, Sink, StdSink};
use std::io::{self, ErrorKind};
use std::process::ExitCode;
use std::{env, rt};

fn main(rt: HostRuntime) -> ExitCode {
    let mut err = StdSink::new(rt.stderr());
    let words = match words_of(&rt) {
        Ok(words) => words,
        Err(error) => return ExitCode::from(end_without_words(error.kind(), &mut err)),
    };
    let mut files = DiskFiles::new(&rt);
    let mut out = StdSink::new(rt.stdout());
    ExitCode::from(run(rt.alloc(), &words, &mut files, &mut out, &mut err))
}

/// The words after the program's name.
fn words_of(system: &HostRuntime) -> io::Result<Vec<String>> {
    let mut words = Vec::new(system.alloc());
    for word in env::args(system)?.skip(1) {
        words.push(word)?;
    }
    Ok(words)
}

/// The status where there are no words: 7 where memory was wanting; else a word isn't UTF-8 and they are refused, with 2, or with 6 where the
/// write failed.
fn end_without_words<E: Sink>(kind: ErrorKind, err: &mut E) -> u8
    ensures memory { kind ≡ ErrorKind.OutOfMemory → (result ≡ 7) × (E.told err.new ≡ E.told err.old) }
    ensures refused { kind ≢ ErrorKind.OutOfMemory → (result ≡ 2) ⊎ (result ≡ 6) }
    ensures written { result ≡ 2 → E.told err.new ≡ appended (E.told err.old) words_answer.err }
    ensures failed { result ≡ 6 → Rose (E.faults err.old) (E.faults err.new) × AppendsPrefix (E.told err.old) (E.told err.new) words_answer.err }
    ensures later { E.faults err.old ≤ E.faults err.new }
{
    match kind {
        ErrorKind::OutOfMemory => 7,
        _ => refuse_words(err),
    }
}

#[cfg(test)]
mod tests;
