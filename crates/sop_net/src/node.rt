// Nodes, their parameters and their wires.
ghost use Rattle.std.specs.Prelude.{◌≡◌, ◌<◌, IfOk, length, map, replicate, unwrap_or, slice_get, slice_set, Some, None};
ghost use Rattle.sop_net.specs.NodeTable.{default_parms};
ghost use Rattle.sop_net.specs.Staged.{staged_over};
ghost use Rattle.sop_net.specs.Limits.{most_inputs};
ghost use Rattle.sop_net.specs.Network.{wire_at};
ghost use Rattle.sop_net.specs.Steps.{unless_from};

use crate::node_type::NodeType;
use crate::value::short_whole;
use sop_outside::Text;
use std::alloc::{AllocError, Global};
use std::marker::Model;

/// Names a node by the number of nodes that were added before it. A node keeps it when others are removed, and none is given twice.
#[derive(Clone, Copy, Debug, PartialEq, Eq)]
pub struct NodeId {
    number: u64,
}

impl Model for NodeId {
    ghost use Rattle.std.specs.Prelude.{ℕ};

    ghost Value = { ℕ };

    ghost view = { λ id. id.number };

    ghost inverse = { λ n. record { number = n } };
}

impl NodeId {
    /// The name of the node that is added behind so many.
    pub(crate) fn of_number(number: u64) -> NodeId
        ensures { result ≡ number }
    {
        NodeId { number }
    }

    pub(crate) fn number(self) -> u64
        ensures { result ≡ self }
    {
        self.number
    }
}

/// The wires of a node by input number: the source of each, or none.
#[derive(Drop)]
pub struct WireList {
    sources: Vec<Option<NodeId>>,
}

impl Model for WireList {
    ghost use Rattle.std.specs.Prelude.{List, ℕ, Option};

    ghost Value = { List (Option ℕ) };

    ghost view = { λ wires. wires.sources.items };
}

impl WireList {
    /// So many inputs without a wire.
    pub(crate) fn unwired(alloc: Global, inputs: u32) -> Result<WireList, AllocError>
        ensures { IfOk result (λ wires. wires ≡ replicate inputs None) }
    {
        let sources = vec![in alloc; None; inputs as usize]?;
        Ok(WireList { sources })
    }

    /// The source that is wired into an input.
    pub(crate) fn source(&self, input: u32) -> Option<NodeId>
        ensures { result ≡ wire_at self.now input }
    {
        match self.sources.get(input as usize) {
            Some(source) => *source,
            None => None,
        }
    }

    pub(crate) fn as_slice(&self) -> &[Option<NodeId>]
        ensures { result.now ≡ self.now }
    {
        self.sources.as_slice()
    }

    pub(crate) fn len(&self) -> usize
        ensures { result ≡ length self.now }
    {
        self.sources.len()
    }

    pub(crate) fn set(&mut self, input: usize, source: NodeId)
        requires { input < length self.old }
        ensures { self.new ≡ slice_set self.old input (Some source) }
    {
        self.sources[input] = Some(source);
    }

    /// Removes all wires from `source`.
    pub(crate) fn forget(&mut self, source: NodeId)
        ensures { self.new ≡ map (unless_from source) self.old }
    {
        for wire in self.sources.iter_mut() {
            *wire = unless_from(*wire, source);
        }
    }
}

/// A wire, unless it comes from `source`.
fn unless_from(wire: Option<NodeId>, source: NodeId) -> Option<NodeId>
    ensures { result ≡ unless_from source wire }
{
    match wire {
        Some(from) if from == source => None,
        _ => wire,
    }
}

/// The texts of a node's parameters, in the order of its type's.
#[derive(Drop)]
pub struct Parms {
    texts: Vec<Text>,
}

impl Model for Parms {
    ghost use Rattle.std.specs.Prelude.{List, ℕ};

    ghost Value = { List (List ℕ) };

    ghost view = { λ p. p.texts.items };
}

impl Parms {
    /// The text of parameter `i`, from 0. It takes no memory.
    pub fn text(&self, i: u32) -> &str
        requires { i < length self.now }
        ensures { slice_get self.now i ≡ Some result.now }
    {
        self.texts[i as usize].as_str()
    }

    /// The parameters of a new node.
    pub(crate) fn defaults(alloc: Global, node_type: NodeType) -> Result<Parms, AllocError>
        ensures { IfOk result (λ parms. parms ≡ default_parms node_type) }
    {
        let rows = node_type.row().parms;
        let mut texts = Vec::with_capacity(alloc, rows.len())?;
        for parm in rows {
            texts.push(Text::from_str(alloc, parm.default)?)?;
        }
        Ok(Parms { texts })
    }

    pub(crate) fn set(&mut self, i: usize, text: Text)
        requires { i < length self.old }
        ensures { self.new ≡ slice_set self.old i text }
    {
        self.texts[i] = text;
    }

    /// Sets the texts that are staged, by their places, without taking memory.
    pub(crate) fn set_staged(&mut self, mut staged: Vec<Option<Text>>)
        requires { length staged.items ≡ length self.old }
        ensures { self.new ≡ staged_over self.old staged.items }
    {
        while let Some(text) = staged.pop() {
            replace(&mut self.texts[staged.len()], text);
        }
    }
}

/// Replaces a text where there is another.
fn replace(text: &mut Text, other: Option<Text>)
    ensures { text.new ≡ unwrap_or other text.old }
{
    if let Some(other) = other {
        *text = other;
    }
}

/// The inputs that a node uses, by rising number.
#[derive(Clone, Copy)]
pub struct Sockets<'a> {
    /// The number of the first.
    pub first: u32,
    /// Whether they must be wired.
    pub are_needed: bool,
    /// The source of each one's wire, or none.
    pub wires: &'a [Option<NodeId>],
}

/// A node.
#[derive(Drop)]
pub struct Node {
    pub number: NodeId,
    pub name: Text,
    pub node_type: NodeType,
    /// A text for each parameter of its type.
    pub parms: Parms,
    /// A wire or none for each input of its type.
    pub wires: WireList,
}

impl Node {
    ghost use Rattle.sop_net.specs.Network.{new_node, IsNodeOf, switch_input, wires_used_by};
    ghost use Rattle.sop_net.specs.Sockets.{first_used, needs_inputs};
    ghost use Rattle.sop_net.specs.Needs.{file_of_node};

    /// A node with default parameters and no wire.
    pub(crate) fn new(
        alloc: Global,
        number: NodeId,
        node_type: NodeType,
        name: &str,
    ) -> Result<Node, AllocError>
        ensures { IfOk result (λ node. node ≡ new_node number node_type name.now) }
    {
        Ok(Node {
            number,
            name: Text::from_str(alloc, name)?,
            node_type,
            parms: Parms::defaults(alloc, node_type)?,
            wires: WireList::unwired(alloc, node_type.inputs())?,
        })
    }

    /// The input that a switch takes.
    pub(crate) fn switch_input(&self) -> usize
        requires node { IsNodeOf self.now }
        requires switch { self.now.node_type ≡ NodeType.Switch }
        ensures value { result ≡ switch_input self.now }
        ensures range { result < most_inputs }
    {
        match short_whole(self.parms.text(0).as_bytes()) {
            Some(input) => input.get().unsigned_abs() as usize,
            None => unreachable!(),
        }
    }

    /// The wires that the node uses: of a switch the one into the input that it takes, of every other node all.
    pub(crate) fn used_wires(&self) -> &[Option<NodeId>]
        requires { IsNodeOf self.now }
        ensures { result.now ≡ wires_used_by self.now.node_type self.now }
    {
        match self.node_type {
            NodeType::Switch => {
                let input = self.switch_input();
                &self.wires.as_slice()[input..input + 1]
            }
            _ => self.wires.as_slice(),
        }
    }

    /// The number of the first input that the node uses.
    fn first_used(&self) -> usize
        requires { IsNodeOf self.now }
        ensures value { result ≡ first_used self.now.node_type self.now }
        ensures range { result < most_inputs }
    {
        match self.node_type {
            NodeType::Switch => self.switch_input(),
            _ => 0,
        }
    }

    /// The inputs that the node uses.
    pub(crate) fn sockets(&self) -> Sockets<'_>
        requires { IsNodeOf self.now }
        ensures first { result.first ≡ first_used self.now.node_type self.now }
        ensures needed { result.are_needed ≡ needs_inputs self.now.node_type }
        ensures wires { result.wires.now ≡ wires_used_by self.now.node_type self.now }
    {
        Sockets {
            first: self.first_used() as u32,
            are_needed: !self.node_type.is_optional(),
            wires: self.used_wires(),
        }
    }

    /// The name of the file that a `file` node loads.
    pub(crate) fn file_name(&self) -> &str
        requires node { IsNodeOf self.now }
        requires file { self.now.node_type ≡ NodeType.File }
        ensures { file_of_node (Some self.now) ≡ Some result.now }
    {
        self.parms.text(0)
    }
}
