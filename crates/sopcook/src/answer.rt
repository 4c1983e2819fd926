//! What the program answers.
ghost use Rattle.std.specs.Prelude.{◌≡◌, [], IfOk, IsTrue};
ghost use Rattle.sop_model.specs.Faults.{has_named_node};
ghost use Rattle.sop_model.specs.Geometry.{IsReadable};
ghost use Rattle.sop_net.specs.Network.{IsLive};
ghost use Rattle.sop_cook.specs.Visit.{failed};
ghost use Rattle.sopcook.specs.Answer.{refused_with, no_script, script_too_long, line_answer, no_node, fault_answer, text_in};

use crate::request::Form;
use geo_text::{write_list, write_obj};
use hscript_text::ScriptKind;
use itoa::Buffer;
use sop_model::{Fault, GeoView};
use sop_net::{Net, NodeId};
use sop_outside::ByteList;
use std::alloc::{AllocError, Global};

/// A status, and the bytes that go to standard output and to standard error.
#[derive(Debug, Drop)]
pub struct Answer {
    pub status: u8,
    pub out: ByteList,
    pub err: ByteList,
}

impl Answer {
    ghost use Rattle.sopcook.specs.Endings.{IsFaultAnswer};

    /// A refusal: a line behind the program's name.
    fn refused(alloc: Global, status: u8, text: &[u8]) -> Result<Answer, AllocError>
        ensures { IfOk result (λ answer. answer ≡ refused_with status text.now) }
    {
        let mut err = Vec::from_slice(alloc, b"sopcook: ")?;
        err.extend_from_slice(text)?;
        err.push(b'\n')?;
        Ok(Answer {
            status,
            out: ByteList::new(alloc),
            err: ByteList::from_vec(err),
        })
    }

    /// The script is missing.
    pub fn of_no_script(alloc: Global) -> Result<Answer, AllocError>
        ensures { IfOk result (λ answer. answer ≡ no_script) }
    {
        Answer::refused(alloc, 3, b"script: NoScript")
    }

    /// The script is too long.
    pub fn of_long_script(alloc: Global) -> Result<Answer, AllocError>
        ensures { IfOk result (λ answer. answer ≡ script_too_long) }
    {
        Answer::refused(alloc, 3, b"script: TooLong")
    }

    /// A command of the script is refused.
    pub fn of_line(alloc: Global, line: u32, refusal: ScriptKind) -> Result<Answer, AllocError>
        ensures { IfOk result (λ answer. answer ≡ line_answer line refusal) }
    {
        let mut text = Vec::from_slice(alloc, b"line ")?;
        text.extend_from_slice(Buffer::new().format(line).as_bytes())?;
        text.extend_from_slice(b": ")?;
        text.extend_from_slice(refusal.name().as_bytes())?;
        Answer::refused(alloc, 3, &text)
    }

    /// There is no such node.
    pub fn of_no_node(alloc: Global) -> Result<Answer, AllocError>
        ensures { IfOk result (λ answer. answer ≡ no_node) }
    {
        Answer::refused(alloc, 3, b"node: NoNode")
    }

    /// The cook gives a fault of this node.
    pub fn of_fault(
        alloc: Global,
        net: &Net,
        node: NodeId,
        fault: &Fault,
    ) -> Result<Answer, AllocError>
        requires { IsLive net.now.nodes node }
        ensures answer { IfOk result (λ answer. answer ≡ fault_answer net.now.nodes (failed node fault.now)) }
        ensures line { IsTrue (has_named_node fault.now) → IfOk result (IsFaultAnswer fault.now) }
    {
        net.is_network();
        let mut text = Vec::from_slice(alloc, net.name(node).as_bytes())?;
        text.extend_from_slice(b": ")?;
        fault.print(&mut text)?;
        Answer::refused(alloc, 4, &text)
    }

    /// The cook gives a geometry.
    pub fn of_geo<V: GeoView>(alloc: Global, form: Form, view: &V) -> Result<Answer, AllocError>
        requires { IsReadable (V.geo view.now) }
        ensures { IfOk result (λ answer. answer ≡ record { status = 0; out = text_in form (V.geo view.now); err = [] }) }
    {
        Ok(Answer {
            status: 0,
            out: ByteList::from_vec(write_form(alloc, form, view)?),
            err: ByteList::new(alloc),
        })
    }
}

/// The text of a geometry in a form.
fn write_form<V: GeoView>(alloc: Global, form: Form, view: &V) -> Result<Vec<u8>, AllocError>
    requires { IsReadable (V.geo view.now) }
    ensures { IfOk result (λ text. text.items ≡ text_in form (V.geo view.now)) }
{
    match form {
        Form::Obj => write_obj(alloc, view),
        Form::List => write_list(alloc, view),
    }
}
