//! The script of a run: loaded and read.
ghost use Rattle.std.specs.Prelude.{◌≡◌, ◌≤◌, length, Err, IfOk, IfSome};
ghost use Rattle.sop_outside.specs.Causes.{Counts, Rose};
ghost use Rattle.sop_outside.specs.Load.{load_of};
ghost use Rattle.hscript_text.specs.Script.{script_of};
ghost use Rattle.hscript_text.specs.Limits.{most_script_bytes};
ghost use Rattle.sopcook.specs.Endings.{EchoesLines, IsOpening, IsRead, IsCaused};

use crate::answer::Answer;
use crate::run_end::RunEnd;
use hscript_text::limits::MOST_SCRIPT_BYTES;
use hscript_text::{Script, ScriptEnd, read_script};
use sop_outside::{Files, LoadEnd};
use std::alloc::Global;

/// A script that was loaded and read, or the answer that refuses it.
#[derive(Drop)]
pub enum Opening {
    Read(Script),
    Refused(Answer),
}

/// Loads the script of this name, and reads it.
pub fn open_script<F: Files>(alloc: Global, files: &mut F, script: &str) -> Result<Opening, RunEnd>
    ensures told { F.told files.new ≡ F.told files.old }
    ensures faults { Counts (F.faults files.old) (F.faults files.new) (result ≡ Err RunEnd.Read) }
    ensures misses_later { F.misses files.old ≤ F.misses files.new }
    ensures overs_later { F.overs files.old ≤ F.overs files.new }
    ensures opening { IfOk result (λ opening. IfSome (F.told files.old) (λ names. IsOpening (load_of names script.now most_script_bytes) opening)) }
    ensures lines { IfOk result EchoesLines }
    ensures caused { IfOk result (IsCaused (Rose (F.misses files.old) (F.misses files.new)) (Rose (F.overs files.old) (F.overs files.new))) }
{
    match files.load(alloc, script, MOST_SCRIPT_BYTES as u64) {
        Ok(bytes) => read(alloc, &bytes),
        Err(LoadEnd::Missing) => Ok(Opening::Refused(Answer::of_no_script(alloc)?)),
        Err(LoadEnd::TooLong) => Ok(Opening::Refused(Answer::of_long_script(alloc)?)),
        Err(LoadEnd::Failed) => Err(RunEnd::Read),
        Err(LoadEnd::Memory) => Err(RunEnd::Memory),
    }
}

/// Reads a script of these bytes.
fn read(alloc: Global, bytes: &[u8]) -> Result<Opening, RunEnd>
    requires { length bytes.now ≤ most_script_bytes }
    ensures read { IfOk result (IsRead (script_of bytes.now)) }
    ensures lines { IfOk result EchoesLines }
    ensures no_load { result ≡ Err RunEnd.Read → ⊥ }
{
    match read_script(alloc, bytes) {
        Ok(script) => Ok(Opening::Read(script)),
        Err(
            ScriptEnd::Refused {
                line,
                kind: refusal,
            },
        ) => { Ok(Opening::Refused(Answer::of_line(alloc, line, refusal)?)) }
        Err(ScriptEnd::Memory) => Err(RunEnd::Memory),
    }
}
