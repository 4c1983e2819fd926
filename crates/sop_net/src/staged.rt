// Texts that are staged for the parameters of a node: judged and copied before the first is set.
ghost use Rattle.std.specs.Prelude.{◌≡◌, ◌⊎◌, ℕ, List, IfOk, IfErr, Some, None, length, map, position, bytes_eq, replicate};
ghost use Rattle.sop_net.specs.NodeTable.{parms_of};
ghost use Rattle.sop_net.specs.Rows.{parm_meant};
ghost use Rattle.sop_net.specs.Staged.{staged_over};
ghost use Rattle.sop_net.specs.Steps.{refusal_of_pair, refusal_of_pairs, with_pairs};

use crate::net_end::NetEnd;
use crate::node_type::NodeType;
use crate::table::Parm;
use sop_outside::Text;
use std::alloc::{AllocError, Global};

/// A text for a parameter, which goes by its place.
#[derive(Drop)]
pub struct StagedText {
    pub at: usize,
    pub text: Text,
}

/// A text for a parameter of a type, judged: `NoParm`, then `BadValue`.
pub fn staged_text(
    alloc: Global,
    node_type: NodeType,
    name: &str,
    value: &str,
) -> Result<StagedText, NetEnd>
    ensures ok { IfOk result (λ next. refusal_of_pair node_type name.now value.now ≡ None) }
    ensures text { IfOk result (λ next. (position (λ p. bytes_eq p.name name.now) (parms_of node_type) ≡ Some next.at) × (next.text ≡ value.now)) }
    ensures refused { IfErr result (λ end. (end ≡ NetEnd.Memory) ⊎ (refusal_of_pair node_type name.now value.now ≡ Some end)) }
{
    let parms = node_type.row().parms;
    let Some(at) = place_of_parm(parms, name) else {
        return Err(NetEnd::NoParm);
    };
    let parm = &parms[at];
    if !parm.kind.takes(value) {
        return Err(NetEnd::BadValue);
    }
    let text = Text::from_str(alloc, value)?;
    Ok(StagedText { at, text })
}

fn place_of_parm(parms: &[Parm], name: &str) -> Option<usize>
    ensures { result ≡ position (λ p. bytes_eq p.name name.now) (map parm_meant parms.now) }
{
    parms.iter().position(|parm| parm.name == name)
}

/// Texts for parameters of a type, each parameter followed by its text, judged in turn: the last one for each parameter, by its place.
pub fn staged_pairs(
    alloc: Global,
    node_type: NodeType,
    pairs: &[Text],
) -> Result<Vec<Option<Text>>, NetEnd>
    ensures ok { IfOk result (λ staged. refusal_of_pairs node_type pairs.now ≡ None) }
    ensures texts { IfOk result (λ staged. (texts : List (List ℕ)) → with_pairs node_type texts pairs.now ≡ staged_over texts staged.items) }
    ensures places { IfOk result (λ staged. length staged.items ≡ length (parms_of node_type)) }
    ensures refused { IfErr result (λ end. (end ≡ NetEnd.Memory) ⊎ (refusal_of_pairs node_type pairs.now ≡ Some end)) }
{
    let mut texts = nothing_staged(alloc, node_type.row().parms.len())?;
    let mut left = pairs;
    while let [name, value, rest @ ..] = left {
        let next = staged_text(alloc, node_type, name.as_str(), value.as_str())?;
        texts[next.at] = Some(next.text);
        left = rest;
    }
    Ok(texts)
}

/// No text for any of so many parameters.
fn nothing_staged(alloc: Global, parms: usize) -> Result<Vec<Option<Text>>, AllocError>
    ensures { IfOk result (λ staged. staged.items ≡ replicate parms None) }
{
    let mut staged = Vec::with_capacity(alloc, parms)?;
    for _ in 0..parms {
        staged.push(None)?;
    }
    Ok(staged)
}
