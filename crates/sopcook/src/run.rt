//! The top call: words and files in, bytes and a status out.
ghost use Rattle.std.specs.Prelude.{◌≡◌, ◌≤◌, ◌⊎◌, map, string_bytes};
ghost use Rattle.sop_outside.specs.Causes.{Rose};
ghost use Rattle.sop_outside.specs.Told.{appended, AppendsPrefix};
ghost use Rattle.hscript_text.specs.WholeLines.{AreLines};
ghost use Rattle.sopcook.specs.Request.{request_seen};
ghost use Rattle.sopcook.specs.Answer.{words_answer};
ghost use Rattle.sopcook.specs.Promise.{Promise, IsAnswered};
ghost use Rattle.sopcook.specs.Endings.{Delivery, EndWithout, ScriptEnding};

use crate::answer::Answer;
use crate::node::answer_named;
use crate::request::{Request, RequestEnd, read_words};
use crate::run_end::RunEnd;
use crate::script::{Opening, open_script};
use hscript_text::Script;
use sop_outside::{Files, Sink, put};
use std::alloc::Global;

/// Cooks the node that the words name, of the script that they name, and writes its geometry on `out`, as OBJ or as its listing. What the
/// script echoes comes first on `err`.
///
/// The words are `SCRIPT NODE [-j N] [--form FORM]`, without the program's name. The status is 0 where all was written; 2 where the words are
/// refused; 3 where the script is missing, longer than 4 MiB or refused at a line, or the node isn't there; 4 where the cook gives a fault; 5
/// where a load failed, counted; 6 where a write failed, counted; and 7 for want of memory. 2 to 5 come with a line on `err`.
pub fn run<F: Files, O: Sink, E: Sink>(
    alloc: Global,
    words: &[String],
    files: &mut F,
    out: &mut O,
    err: &mut E,
) -> u8
    ensures { Promise (map string_bytes words.now) result
        (record {
          files = record { told = F.told files.old; faults = F.faults files.old; misses = F.misses files.old; overs = F.overs files.old };
          out = record { told = O.told out.old; faults = O.faults out.old };
          err = record { told = E.told err.old; faults = E.faults err.old };
        })
        (record {
          files = record { told = F.told files.new; faults = F.faults files.new; misses = F.misses files.new; overs = F.overs files.new };
          out = record { told = O.told out.new; faults = O.faults out.new };
          err = record { told = E.told err.new; faults = E.faults err.new };
        }) }
{
    let request = match read_words(alloc, words) {
        Ok(request) => request,
        Err(RequestEnd::Refused) => return refuse_words(err),
        Err(RequestEnd::Memory) => return 7,
    };
    match open_script(alloc, files, request.script) {
        Ok(Opening::Read(script)) => { answer_script(alloc, &script, &request, files, out, err) }
        Ok(Opening::Refused(answer)) => deliver(&answer, out, err),
        Err(end) => deliver_end(end, err),
    }
}

/// Writes what a script echoes, answers its node that is asked for, and writes the answer.
fn answer_script<F: Files, O: Sink, E: Sink>(
    alloc: Global,
    script: &Script,
    request: &Request<'_>,
    files: &mut F,
    out: &mut O,
    err: &mut E,
) -> u8
    requires { AreLines script.now.echoed }
    ensures { ScriptEnding script.now (request_seen request.now) result
        (record {
          files = record { told = F.told files.old; faults = F.faults files.old; misses = F.misses files.old; overs = F.overs files.old };
          out = record { told = O.told out.old; faults = O.faults out.old };
          err = record { told = E.told err.old; faults = E.faults err.old };
        })
        (record {
          files = record { told = F.told files.new; faults = F.faults files.new; misses = F.misses files.new; overs = F.overs files.new };
          out = record { told = O.told out.new; faults = O.faults out.new };
          err = record { told = E.told err.new; faults = E.faults err.new };
        }) }
{
    if put(err, script.echoed.as_slice()).is_err() {
        return 6;
    }
    match answer_named(alloc, &script.net, request, files) {
        Ok(answer) => deliver(&answer, out, err),
        Err(end) => deliver_end(end, err),
    }
}

/// Writes an answer, and gives its status, or 6 where a write failed.
fn deliver<O: Sink, E: Sink>(answer: &Answer, out: &mut O, err: &mut E) -> u8
    requires { IsAnswered answer.now.status }
    ensures { Delivery answer.now result (record { told = O.told out.old; faults = O.faults out.old }) (record { told = O.told out.new; faults = O.faults out.new })
        (record { told = E.told err.old; faults = E.faults err.old }) (record { told = E.told err.new; faults = E.faults err.new }) }
{
    if put(err, answer.err.as_slice()).is_err() {
        return 6;
    }
    if put(out, answer.out.as_slice()).is_err() {
        return 6;
    }
    answer.status
}

/// Ends a run without an answer. A failed load gives its line and 5, or 6 where the write failed; want of memory gives 7.
fn deliver_end<E: Sink>(end: RunEnd, err: &mut E) -> u8
    ensures { EndWithout end result (record { told = E.told err.old; faults = E.faults err.old }) (record { told = E.told err.new; faults = E.faults err.new }) }
{
    match end {
        RunEnd::Read => match put(err, b"sopcook: read fault\n") {
            Ok(()) => 5,
            Err(_) => 6,
        },
        RunEnd::Memory => 7,
    }
}

/// Says that the words are refused, and gives 2, or 6 where the write failed.
pub fn refuse_words<E: Sink>(err: &mut E) -> u8
    ensures statuses { (result ≡ 2) ⊎ (result ≡ 6) }
    ensures written { result ≡ 2 → E.told err.new ≡ appended (E.told err.old) words_answer.err }
    ensures failed { result ≡ 6 → Rose (E.faults err.old) (E.faults err.new) }
    ensures part { AppendsPrefix (E.told err.old) (E.told err.new) words_answer.err }
    ensures later { E.faults err.old ≤ E.faults err.new }
{
    match put(err, b"sopcook: words\n") {
        Ok(()) => 2,
        Err(_) => 6,
    }
}
