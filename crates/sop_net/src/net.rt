// The network and its steps.
ghost use Rattle.std.specs.Prelude.{◌≡◌, ◌≢◌, ◌<◌, ◌≤◌, ◌⊎◌, ◌%◌, ◌↔◌, true, ◌∷◌, [], ◌+◌, ◌++◌, length, drop, IsTrue, vec_len, vec_capacity, IfOk, IfErr, IfSome, OnOk, OnErr, Ok, Err, Some, option_map, slice_get, map, ℕ, All, Contains};
ghost use Rattle.sop_net.specs.Network.{empty_network, node_of, number_named, place_of, place_named, IsLive, IsNetwork, IsNodeOf, AreValues, wire_at, wires_of, sources, used_sources, used_wires, switch_input};
ghost use Rattle.sop_net.specs.declared.node_type.NodeType.{NodeType};
ghost use Rattle.sop_net.specs.Limits.{most_nodes, most_added, most_inputs};
ghost use Rattle.sop_net.specs.NodeTable.{parms_of};
ghost use Rattle.sop_net.specs.Graph.{Within, Reaches, searched};
ghost use Rattle.sop_net.specs.Steps.{added_node, with_node, set_node, wired_node, removed_node, unwired};
ghost use Rattle.sop_model.specs.Names.{is_name};
ghost use Rattle.sop_net.specs.Needs.{needed, file_of, IsFileNode};
ghost use Rattle.sop_net.specs.Sockets.{sockets_from, sockets_of};

use crate::input::input_below;
use crate::limits::{MOST_ADDED, MOST_NODES};
use crate::needs::needs_of;
use crate::net_end::NetEnd;
use crate::node::{Node, NodeId, Parms, Sockets};
use crate::node_type::NodeType;
use crate::order::{Order, push_reserved};
use crate::place::place;
use crate::staged::{staged_pairs, staged_text};
use indexmap::IndexSet;
use sop_model::is_name;
use sop_outside::{Text, TextList};
use std::alloc::{AllocError, Global};
use std::marker::Model;

/// A network of at most 1,024 nodes, whose wires never go in a circle.
///
/// A refused call leaves it as it was. `Memory` comes for want of memory alone.
#[derive(Drop)]
pub struct Net {
    alloc: Global,
    nodes: Vec<Node>,
    /// The nodes' names, at their places.
    names: IndexSet<String>,
    order: Order,
    added: u64,
}

impl Model for Net {
    ghost use Rattle.std.specs.Prelude.{map, string_bytes};
    ghost use Rattle.sop_net.specs.Network.{Network};
    ghost use Rattle.sop_net.specs.Order.{IsKept, IsRanked};

    ghost Value = { Network };

    ghost view = { λ net. record { nodes = net.nodes.items; added = net.added } };

    ghost invariant = { λ net. IsKept net.nodes.items (map string_bytes net.names.keys) net.order.nodes.items net.added × IsRanked net.nodes.items net.order.nodes.items net.order.ranks.items net.added };
}

impl Net {
    /// The network of no nodes. It takes memory from `alloc` when it grows.
    pub fn new(alloc: Global) -> Net
        ensures { result ≡ empty_network }
    {
        Net {
            alloc,
            nodes: Vec::new(alloc),
            names: IndexSet::new(alloc),
            order: Order::new(alloc),
            added: 0,
        }
    }

    /// Adds a node with default parameters and no wire, of the type of this word.
    ///
    /// Refusals, in this order: `BadName`, `NameTaken`, `NoType`, `Limit`.
    pub fn add(&mut self, word: &str, name: &str) -> Result<NodeId, NetEnd>
        ensures ok { IfOk result (λ id. (added_node self.old word.now name.now ≡ Ok self.new) × (id ≡ self.old.added)) }
        ensures refused { IfErr result (λ end. (end ≡ NetEnd.Memory) ⊎ (added_node self.old word.now name.now ≡ Err end)) }
        ensures err { OnErr result (self.new ≡ self.old) }
    {
        if !is_name(name.as_bytes()) {
            return Err(NetEnd::BadName);
        }
        if self.place_named(name).is_some() {
            return Err(NetEnd::NameTaken);
        }
        let Some(node_type) = NodeType::of_word(word) else {
            return Err(NetEnd::NoType);
        };
        if self.nodes.len() >= MOST_NODES || self.added == MOST_ADDED {
            return Err(NetEnd::Limit);
        }
        Ok(self.push_node(node_type, name)?)
    }

    /// Adds a node of a new name, where there is room for it.
    fn push_node(&mut self, node_type: NodeType, name: &str) -> Result<NodeId, AllocError>
        requires name { IsTrue (is_name name.now) }
        requires free { place_named self.old.nodes name.now ≡ None }
        requires few { length self.old.nodes < most_nodes }
        requires added { self.old.added < most_added }
        ensures ok { IfOk result (λ id. (self.new ≡ with_node self.old node_type name.now) × (id ≡ self.old.added)) }
        ensures err { OnErr result (self.new ≡ self.old) }
    {
        let id = NodeId::of_number(self.added);
        let node = Node::new(self.alloc, id, node_type, name)?;
        let key = String::from_str(self.alloc, name)?;
        self.nodes.reserve(1)?;
        self.order.reserve_one()?;
        self.names.insert(key)?;
        push_reserved(&mut self.nodes, node);
        self.order.push_reserved(id);
        self.added += 1;
        Ok(id)
    }

    /// Sets a parameter of a node.
    ///
    /// Refusals, in this order: `NoNode`, `NoParm`, `BadValue`.
    pub fn set_parm(&mut self, node: &str, parm: &str, value: &str) -> Result<(), NetEnd>
        ensures ok { OnOk result (set_node self.old node.now (parm.now ∷ value.now ∷ []) ≡ Ok self.new) }
        ensures refused { IfErr result (λ end. (end ≡ NetEnd.Memory) ⊎ (set_node self.old node.now (parm.now ∷ value.now ∷ []) ≡ Err end)) }
        ensures err { OnErr result (self.new ≡ self.old) }
    {
        let Some(at) = self.place_named(node) else {
            return Err(NetEnd::NoNode);
        };
        let next = staged_text(self.alloc, self.nodes[at].node_type, parm, value)?;
        let node = &mut self.nodes[at];
        node.parms.set(next.at, next.text);
        Ok(())
    }

    /// Sets parameters of a node: `pairs` has a parameter and its text in turn, an even number of texts. All are judged before the first is
    /// set; of one parameter twice the last text stays.
    ///
    /// Refusals, in this order: `NoNode`, then for each pair `NoParm`, `BadValue`.
    pub fn set_parms(&mut self, node: &str, pairs: &TextList) -> Result<(), NetEnd>
        requires pairs { length pairs.now % 2 ≡ 0 }
        ensures ok { OnOk result (set_node self.old node.now pairs.now ≡ Ok self.new) }
        ensures refused { IfErr result (λ end. (end ≡ NetEnd.Memory) ⊎ (set_node self.old node.now pairs.now ≡ Err end)) }
        ensures err { OnErr result (self.new ≡ self.old) }
    {
        self.set_pairs(node, pairs.as_slice())
    }

    /// `set_parms` with its texts as a slice.
    pub fn set_pairs(&mut self, node: &str, pairs: &[Text]) -> Result<(), NetEnd>
        requires pairs { length pairs.now % 2 ≡ 0 }
        ensures ok { OnOk result (set_node self.old node.now pairs.now ≡ Ok self.new) }
        ensures refused { IfErr result (λ end. (end ≡ NetEnd.Memory) ⊎ (set_node self.old node.now pairs.now ≡ Err end)) }
        ensures err { OnErr result (self.new ≡ self.old) }
    {
        let Some(at) = self.place_named(node) else {
            return Err(NetEnd::NoNode);
        };
        let staged = staged_pairs(self.alloc, self.nodes[at].node_type, pairs)?;
        let node = &mut self.nodes[at];
        node.parms.set_staged(staged);
        Ok(())
    }

    /// Wires the node `source` into an input of a node. A former wire there is replaced.
    ///
    /// Refusals, in this order: `NoNode` for the node, `NoNode` for the source, `BadInput`, `Cycle`.
    pub fn wire(&mut self, node: &str, index: &str, source: &str) -> Result<(), NetEnd>
        ensures ok { OnOk result (wired_node self.old node.now index.now source.now ≡ Ok self.new) }
        ensures refused { IfErr result (λ end. (end ≡ NetEnd.Memory) ⊎ (wired_node self.old node.now index.now source.now ≡ Err end)) }
        ensures err { OnErr result (self.new ≡ self.old) }
    {
        let Some(at) = self.place_named(node) else {
            return Err(NetEnd::NoNode);
        };
        let Some(source_at) = self.place_named(source) else {
            return Err(NetEnd::NoNode);
        };
        let target = &self.nodes[at];
        let Some(input) = input_below(index.as_bytes(), target.wires.len()) else {
            return Err(NetEnd::BadInput);
        };
        let (target, source) = (target.number, self.nodes[source_at].number);
        self.order.admit(self.alloc, &self.nodes, target, source)?;
        let node = &mut self.nodes[at];
        node.wires.set(input, source);
        Ok(())
    }

    /// Removes a node and all wires that touch it. The only refusal is `NoNode`; it takes no memory.
    pub fn remove(&mut self, node: &str) -> Result<(), NetEnd>
        ensures ok { OnOk result (removed_node self.old node.now ≡ Ok self.new) }
        ensures refused { IfErr result (λ end. (end ≡ NetEnd.Memory) ⊎ (removed_node self.old node.now ≡ Err end)) }
        ensures takes_no_memory { result ≢ Err NetEnd.Memory }
        ensures err { OnErr result (self.new ≡ self.old) }
    {
        let Some(at) = self.place_named(node) else {
            return Err(NetEnd::NoNode);
        };
        let removed = self.nodes.remove(at);
        let _name = self.names.shift_remove_index(at);
        self.order.remove(removed.number, at);
        unwire(&mut self.nodes, removed.number);
        Ok(())
    }

    /// The node of this name. It takes no memory, as none of the reads does.
    pub fn find(&self, name: &str) -> Option<NodeId>
        ensures node { result ≡ number_named self.now.nodes name.now }
        ensures live { IfSome result (λ node. IsLive self.now.nodes node) }
    {
        match self.place_named(name) {
            Some(at) => Some(self.nodes[at].number),
            None => None,
        }
    }

    /// The place of the node of this name.
    fn place_named(&self, name: &str) -> Option<usize>
        ensures place { result ≡ place_named self.now.nodes name.now }
        ensures within { IfSome result (λ at. at < length self.now.nodes) }
    {
        self.names.get_index_of(name)
    }

    /// A node that stands.
    fn at(&self, node: NodeId) -> &Node
        requires { IsLive self.now.nodes node }
        ensures found { node_of self.now.nodes node ≡ Some result.now }
        ensures fits { IsNodeOf result.now }
    {
        &self.nodes[place(&self.nodes, node)]
    }

    /// The name of a node that stands.
    pub fn name(&self, node: NodeId) -> &str
        requires { IsLive self.now.nodes node }
        ensures { option_map (λ n. n.name) (node_of self.now.nodes node) ≡ Some result.now }
    {
        self.at(node).name.as_str()
    }

    /// The parameters of a node that stands: texts that those of its type take.
    pub fn parms(&self, node: NodeId) -> &Parms
        requires { IsLive self.now.nodes node }
        ensures texts { option_map (λ n. n.parms) (node_of self.now.nodes node) ≡ Some result.now }
        ensures values { (t : NodeType) → option_map (λ n. n.node_type) (node_of self.now.nodes node) ≡ Some t → AreValues (parms_of t) result.now }
    {
        &self.at(node).parms
    }

    /// The type of a node that stands.
    pub fn node_type(&self, node: NodeId) -> NodeType
        requires { IsLive self.now.nodes node }
        ensures { option_map (λ n. n.node_type) (node_of self.now.nodes node) ≡ Some result }
    {
        self.at(node).node_type
    }

    /// The source that is wired into an input of a node that stands.
    pub fn source(&self, node: NodeId, input: u32) -> Option<NodeId>
        requires { IsLive self.now.nodes node }
        ensures { result ≡ wire_at (wires_of (node_of self.now.nodes node)) input }
    {
        self.at(node).wires.source(input)
    }

    /// The wires that a node uses, by input number: of a switch the one into the input that it takes, of every other node all.
    pub fn used_wires(&self, node: NodeId) -> &[Option<NodeId>]
        requires { IsLive self.now.nodes node }
        ensures { result.now ≡ used_wires (node_of self.now.nodes node) }
    {
        self.at(node).used_wires()
    }

    /// The inputs that a node uses, at most 32: of a switch the one that it takes, of every other node all.
    pub fn sockets(&self, node: NodeId) -> Sockets<'_>
        requires { IsLive self.now.nodes node }
        ensures sockets { option_map sockets_of (node_of self.now.nodes node) ≡ Some (sockets_from result.first result.are_needed result.wires.now) }
        ensures wires { result.wires.now ≡ used_wires (node_of self.now.nodes node) }
        ensures few { result.first + length result.wires.now ≤ most_inputs }
    {
        self.at(node).sockets()
    }

    /// The name of the file that a `file` node that stands loads.
    pub fn file_name(&self, node: NodeId) -> &str
        requires { IsFileNode self.now.nodes node }
        ensures { file_of self.now.nodes node ≡ Some result.now }
    {
        self.at(node).file_name()
    }

    /// The number of nodes.
    pub fn nodes(&self) -> u32
        ensures { result ≡ length self.now.nodes }
    {
        self.nodes.len() as u32
    }

    /// Node `i` in order of making, from 0.
    pub fn node(&self, i: u32) -> NodeId
        requires { i < length self.now.nodes }
        ensures node { option_map (λ n. n.number) (slice_get self.now.nodes i) ≡ Some result }
        ensures live { IsLive self.now.nodes result }
    {
        self.nodes[i as usize].number
    }

    /// The place of a node that stands in the order of making, from 0.
    pub fn place(&self, node: NodeId) -> u32
        requires { IsLive self.now.nodes node }
        ensures { place_of self.now.nodes node ≡ Some result }
    {
        place(&self.nodes, node) as u32
    }

    /// Writes the first `file` node of each file name that the cook of `node` needs, and answers how many there are: depth first over used
    /// wires by input number, inputs before the node. The places behind them stay. `into` has at least 1,024 places.
    pub fn needs(&self, node: NodeId, into: &mut [NodeId]) -> usize
        requires live { IsLive self.now.nodes node }
        requires room { most_nodes ≤ length into.old }
        ensures count { result ≡ length (needed self.now.nodes node) }
        ensures few { result ≤ most_nodes }
        ensures files { All (IsFileNode self.now.nodes) (needed self.now.nodes node) }
        ensures written { into.new ≡ needed self.now.nodes node ++ drop result into.old }
    {
        needs_of(self, node, into)
    }

    /// What holds of every network: it has at most 1,024 nodes of distinct names, each with texts that its parameters take, each wire comes
    /// from a node that stands, and no node is upstream of itself.
    ///
    /// So no way upstream is longer than the number of nodes, by used wires as by all.
    pub fn is_network(&self)
        ensures network { IsNetwork self.now }
        ensures within { (x : ℕ) → IsLive self.now.nodes x → Within (sources self.now.nodes) (length self.now.nodes) x }
        ensures within_used { (x : ℕ) → IsLive self.now.nodes x → Within (used_sources self.now.nodes) (length self.now.nodes) x }
        ensures used_live { (x y : ℕ) → Contains (used_sources self.now.nodes x) y → IsLive self.now.nodes y }
    {
        let _ = &self.order;
    }

    /// The law that `Cycle` comes exactly where the node is the source or upstream of it: as far as the number of nodes, the search upstream
    /// finds exactly what is reached by wires. The call does nothing.
    pub fn search_finds_what_is_reached(&self)
        ensures { (x y : ℕ) → IsLive self.now.nodes x → (searched (length self.now.nodes) (sources self.now.nodes) x y ≡ true) ↔ Reaches (sources self.now.nodes) x y }
    {
        let _ = &self.order;
    }
}

/// Removes all wires from a node.
fn unwire(nodes: &mut Vec<Node>, source: NodeId)
    ensures { nodes.new.items ≡ map (unwired source) nodes.old.items }
{
    for node in nodes.iter_mut() {
        node.wires.forget(source);
    }
}
