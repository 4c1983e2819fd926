//! The four commands of a network.
ghost use Rattle.std.specs.Prelude.{◌≡◌, Ok, OnOk, IfErr, OnErr};
ghost use Rattle.hscript_text.specs.Commands.{op_add, op_parm, op_wire, op_rm, carried_out};
ghost use Rattle.hscript_text.specs.Ends.{EndsAs};

use crate::refusal::{CommandEnd, ScriptKind, command_end_of};
use crate::verb::{Verb, verb_of};
use sop_net::Net;
use sop_outside::Text;

/// Carries out a command of a network by its words: `opadd TYPE NAME`, `opparm NODE PARM VALUE ..`, `opwire NODE INDEX SOURCE` or `oprm NODE`.
/// A command that isn't carried out leaves the network as it was.
///
/// `BadCommand` comes for another first word or none, then `BadArgs` for a wrong number of words, then the network's own refusal. `Memory`
/// comes for want of memory alone.
pub fn carry_out(net: &mut Net, words: &[Text]) -> Result<(), CommandEnd>
    ensures ok { OnOk result (carried_out net.old words.now ≡ Ok net.new) }
    ensures refused { IfErr result (λ end. EndsAs (carried_out net.old words.now) end) }
    ensures err { OnErr result (net.new ≡ net.old) }
{
    let [verb, rest @ ..] = words else {
        return Err(CommandEnd::Refused(ScriptKind::BadCommand));
    };
    match verb_of(verb.as_str()) {
        Some(Verb::OpAdd) => op_add(net, rest),
        Some(Verb::OpParm) => op_parm(net, rest),
        Some(Verb::OpWire) => op_wire(net, rest),
        Some(Verb::OpRm) => op_rm(net, rest),
        None => Err(CommandEnd::Refused(ScriptKind::BadCommand)),
    }
}

fn op_add(net: &mut Net, words: &[Text]) -> Result<(), CommandEnd>
    ensures ok { OnOk result (op_add net.old words.now ≡ Ok net.new) }
    ensures refused { IfErr result (λ end. EndsAs (op_add net.old words.now) end) }
    ensures err { OnErr result (net.new ≡ net.old) }
{
    let [word, name] = words else {
        return Err(CommandEnd::Refused(ScriptKind::BadArgs));
    };
    match net.add(word.as_str(), name.as_str()) {
        Ok(_) => Ok(()),
        Err(end) => Err(command_end_of(end)),
    }
}

fn op_parm(net: &mut Net, words: &[Text]) -> Result<(), CommandEnd>
    ensures ok { OnOk result (op_parm net.old words.now ≡ Ok net.new) }
    ensures refused { IfErr result (λ end. EndsAs (op_parm net.old words.now) end) }
    ensures err { OnErr result (net.new ≡ net.old) }
{
    let [node, pairs @ ..] = words else {
        return Err(CommandEnd::Refused(ScriptKind::BadArgs));
    };
    if pairs.len() < 2 || pairs.len() % 2 != 0 {
        return Err(CommandEnd::Refused(ScriptKind::BadArgs));
    }
    match net.set_pairs(node.as_str(), pairs) {
        Ok(()) => Ok(()),
        Err(end) => Err(command_end_of(end)),
    }
}

fn op_wire(net: &mut Net, words: &[Text]) -> Result<(), CommandEnd>
    ensures ok { OnOk result (op_wire net.old words.now ≡ Ok net.new) }
    ensures refused { IfErr result (λ end. EndsAs (op_wire net.old words.now) end) }
    ensures err { OnErr result (net.new ≡ net.old) }
{
    let [node, index, source] = words else {
        return Err(CommandEnd::Refused(ScriptKind::BadArgs));
    };
    match net.wire(node.as_str(), index.as_str(), source.as_str()) {
        Ok(()) => Ok(()),
        Err(end) => Err(command_end_of(end)),
    }
}

fn op_rm(net: &mut Net, words: &[Text]) -> Result<(), CommandEnd>
    ensures ok { OnOk result (op_rm net.old words.now ≡ Ok net.new) }
    ensures refused { IfErr result (λ end. EndsAs (op_rm net.old words.now) end) }
    ensures err { OnErr result (net.new ≡ net.old) }
{
    let [node] = words else {
        return Err(CommandEnd::Refused(ScriptKind::BadArgs));
    };
    match net.remove(node.as_str()) {
        Ok(()) => Ok(()),
        Err(end) => Err(command_end_of(end)),
    }
}
