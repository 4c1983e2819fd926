//! Whole command files.
ghost use Rattle.std.specs.Prelude.{◌≡◌, ◌≤◌, Ok, OnOk, IfOk, IfErr, length};
ghost use Rattle.hscript_text.specs.Limits.{most_script_bytes};
ghost use Rattle.hscript_text.specs.Script.{start, after, script_from, script_of};
ghost use Rattle.hscript_text.specs.WholeLines.{AreLines};
ghost use Rattle.hscript_text.specs.Ends.{EndsAs, IsRefusal};

use crate::commands::carry_out;
use crate::echoed::Echoed;
use crate::reader::Reader;
use crate::refusal::{CommandEnd, ScriptEnd, end_of};
use sop_net::Net;
use sop_outside::{ByteList, Text};
use std::alloc::Global;

/// What a command file gives: the network that its commands build, and the text that they echo, at most 1 MiB.
#[derive(Drop)]
pub struct Script {
    pub net: Net,
    pub echoed: ByteList,
}

/// The network that a command file builds, and the text that it echoes, which consists of whole lines.
///
/// `Refused` has the line and the refusal of the first refused command; for bytes that aren't UTF-8 it is `BadBytes`, whatever the commands
/// are. `Memory` comes for want of memory alone. The time is linear in the bytes and in what the words become.
pub fn read_script(alloc: Global, bytes: &[u8]) -> Result<Script, ScriptEnd>
    requires { length bytes.now ≤ most_script_bytes }
    ensures ok { IfOk result (λ script. script_of bytes.now ≡ Ok script) }
    ensures refused { IfErr result (λ end. IsRefusal (script_of bytes.now) end) }
    ensures lines { IfOk result (λ script. AreLines script.echoed) }
{
    match Reader::new(alloc, bytes) {
        Ok(reader) => carry_out_all(alloc, reader),
        Err(end) => Err(end),
    }
}

/// Carries out the commands that are still to come, on no node and with nothing echoed.
fn carry_out_all(alloc: Global, mut reader: Reader<'_>) -> Result<Script, ScriptEnd>
    ensures ok { IfOk result (λ script. script_from start reader.entry ≡ Ok script) }
    ensures refused { IfErr result (λ end. IsRefusal (script_from start reader.entry) end) }
{
    let mut state = State::new(alloc);
    loop {
        match reader.next() {
            Ok(Some(command)) => match state.carry_out(command.words.as_slice()) {
                Ok(()) => {}
                Err(end) => return Err(end_of(command.line, end)),
            },
            Ok(None) => return Ok(state.into_script()),
            Err(end) => return Err(end),
        }
    }
}

/// The network and the echoed text so far.
#[derive(Drop)]
pub struct State {
    pub net: Net,
    pub echoed: Echoed,
}

impl State {
    /// No node, and nothing echoed.
    fn new(alloc: Global) -> State
        ensures { result ≡ start }
    {
        State {
            net: Net::new(alloc),
            echoed: Echoed::new(alloc),
        }
    }

    /// Carries out `echo` or a command of the network by its words.
    fn carry_out(&mut self, words: &[Text]) -> Result<(), CommandEnd>
        ensures ok { OnOk result (after self.old words.now ≡ Ok self.new) }
        ensures refused { IfErr result (λ end. EndsAs (after self.old words.now) end) }
    {
        match words {
            [verb, rest @ ..] if verb.as_str() == "echo" => self.echoed.echo(rest),
            _ => carry_out(&mut self.net, words),
        }
    }

    fn into_script(self) -> Script
        ensures net { result.net ≡ self.net }
        ensures echoed { result.echoed ≡ self.echoed }
    {
        let State { net, echoed } = self;
        Script {
            net,
            echoed: echoed.into_list(),
        }
    }
}
