// The order of the nodes in which each stands behind all that it takes from.
ghost use Rattle.std.specs.Prelude.{◌≡◌, ◌<◌, ◌++◌, ◌∷◌, [], ◌⊎◌, ◌==◌, ◌||◌, ℕ, All, AllPairs, Contains, IfOk, IfErr, OnOk, OnErr, length, filter, remove, not, true, false, vec_len, vec_capacity};
ghost use Rattle.std.specs.List.{list_any, position_or_len};
ghost use Rattle.sop_net.specs.Graph.{searched};
ghost use Rattle.sop_net.specs.Network.{IsLive, sources, wired};
ghost use Rattle.sop_net.specs.Order.{In, IsOrder, IsRanking, with_source, flag_of, rank_of};

use crate::net_end::NetEnd;
use crate::node::{Node, NodeId};
use crate::place::place;
use std::alloc::{AllocError, Global};

/// The nodes, each behind all that it takes from, and a rank of each by its place in the network: of two nodes the one of lesser rank comes
/// first.
#[derive(Drop)]
pub struct Order {
    pub nodes: Vec<NodeId>,
    pub ranks: Vec<u64>,
}

impl Order {
    /// The order of no nodes.
    pub fn new(alloc: Global) -> Order
        ensures nodes { result.nodes.items ≡ [] }
        ensures ranks { result.ranks.items ≡ [] }
    {
        Order {
            nodes: Vec::new(alloc),
            ranks: Vec::new(alloc),
        }
    }

    /// Makes room for one node more.
    pub fn reserve_one(&mut self) -> Result<(), AllocError>
        ensures nodes { self.new.nodes.items ≡ self.old.nodes.items }
        ensures ranks { self.new.ranks.items ≡ self.old.ranks.items }
        ensures node_room { OnOk result (vec_len self.new.nodes < vec_capacity self.new.nodes) }
        ensures rank_room { OnOk result (vec_len self.new.ranks < vec_capacity self.new.ranks) }
    {
        self.nodes.reserve(1)?;
        self.ranks.reserve(1)
    }

    /// Puts a new node last, for which room was made. Its number serves as its rank.
    pub fn push_reserved(&mut self, node: NodeId)
        requires node_room { vec_len self.old.nodes < vec_capacity self.old.nodes }
        requires rank_room { vec_len self.old.ranks < vec_capacity self.old.ranks }
        ensures nodes { self.new.nodes.items ≡ self.old.nodes.items ++ node ∷ [] }
        ensures ranks { self.new.ranks.items ≡ self.old.ranks.items ++ node ∷ [] }
    {
        push_reserved(&mut self.nodes, node);
        push_reserved(&mut self.ranks, node.number());
    }

    /// Takes out a node, which stands at `at` in the network.
    pub fn remove(&mut self, node: NodeId, at: usize)
        requires { at < length self.old.ranks.items }
        ensures nodes { self.new.nodes.items ≡ filter (λ x. not (x == node)) self.old.nodes.items }
        ensures ranks { self.new.ranks.items ≡ remove self.old.ranks.items at }
    {
        self.nodes.retain(|x| *x != node);
        self.ranks.remove(at);
    }

    /// Orders the nodes for a wire from `source` into `node`. `Cycle` comes where `node` is `source` or upstream of it; a refusal leaves the
    /// order as it was.
    pub fn admit(
        &mut self,
        alloc: Global,
        nodes: &[Node],
        node: NodeId,
        source: NodeId,
    ) -> Result<(), NetEnd>
        requires rising { AllPairs (λ a b. a.number < b.number) nodes.now }
        requires wires { (x y : ℕ) → Contains (sources nodes.now x) y → IsLive nodes.now y }
        requires order { IsOrder (sources nodes.now) nodes.now self.old.nodes.items }
        requires ranking { IsRanking nodes.now self.old.nodes.items self.old.ranks.items }
        requires node { IsLive nodes.now node }
        requires source { IsLive nodes.now source }
        ensures free { OnOk result (searched (length nodes.now) (sources nodes.now) source node ≡ false) }
        ensures order { OnOk result (IsOrder (with_source (sources nodes.now) node source) nodes.now self.new.nodes.items) }
        ensures ranking { OnOk result (IsRanking nodes.now self.new.nodes.items self.new.ranks.items) }
        ensures ranks { OnOk result ((self.new.ranks.items ≡ self.old.ranks.items) ⊎ All (λ rank. rank < length nodes.now) self.new.ranks.items) }
        ensures refused { IfErr result (λ end. (end ≡ NetEnd.Memory) ⊎ ((end ≡ NetEnd.Cycle) × (searched (length nodes.now) (sources nodes.now) source node ≡ true))) }
        ensures err { OnErr result (self.new ≡ self.old) }
    {
        if self.rank(nodes, source) < self.rank(nodes, node) {
            return Ok(());
        }
        self.nodes = reordered(alloc, nodes, &self.nodes, node, source)?;
        rank_all(nodes, &self.nodes, &mut self.ranks);
        Ok(())
    }

    /// The rank of a node.
    fn rank(&self, nodes: &[Node], node: NodeId) -> u64
        requires rising { AllPairs (λ a b. a.number < b.number) nodes.now }
        requires ranks { length self.now.ranks.items ≡ length nodes.now }
        requires live { IsLive nodes.now node }
        ensures { result ≡ rank_of nodes.now self.now.ranks.items node }
    {
        self.ranks[place(nodes, node)]
    }
}

/// Appends an item for which room was reserved.
pub fn push_reserved<T: Drop>(items: &mut Vec<T>, item: T)
    requires { vec_len items.old < vec_capacity items.old }
    ensures { items.new.items ≡ items.old.items ++ item ∷ [] }
{
    match items.push(item) {
        Ok(()) => {}
        Err(_) => unreachable!(),
    }
}

/// Ranks each node of an order by its place in it.
fn rank_all(nodes: &[Node], order: &[NodeId], ranks: &mut [u64])
    requires rising { AllPairs (λ a b. a.number < b.number) nodes.now }
    requires live { (x : ℕ) → In order.now x → IsLive nodes.now x }
    requires len { length ranks.old ≡ length nodes.now }
    ensures len { length ranks.new ≡ length nodes.now }
    ensures ranks { (x : ℕ) → In order.now x → rank_of nodes.now ranks.new x ≡ position_or_len (λ y. y == x) order.now }
{
    for rank in (0..order.len()).rev() {
        ranks[place(nodes, order[rank])] = rank as u64;
    }
}

/// The order with `node` and all downstream of it behind the others, for a wire from `source`. `Cycle` comes where `node` is `source` or
/// upstream of it.
fn reordered(
    alloc: Global,
    nodes: &[Node],
    order: &[NodeId],
    node: NodeId,
    source: NodeId,
) -> Result<Vec<NodeId>, NetEnd>
    requires rising { AllPairs (λ a b. a.number < b.number) nodes.now }
    requires wires { (x y : ℕ) → Contains (sources nodes.now x) y → IsLive nodes.now y }
    requires order { IsOrder (sources nodes.now) nodes.now order.now }
    requires source { IsLive nodes.now source }
    ensures free { OnOk result (searched (length nodes.now) (sources nodes.now) source node ≡ false) }
    ensures order { IfOk result (λ new. IsOrder (with_source (sources nodes.now) node source) nodes.now new.items) }
    ensures refused { IfErr result (λ end. (end ≡ NetEnd.Memory) ⊎ ((end ≡ NetEnd.Cycle) × (searched (length nodes.now) (sources nodes.now) source node ≡ true))) }
{
    let flags = downstream(alloc, nodes, order, node)?;
    if flag(nodes, &flags, source) {
        return Err(NetEnd::Cycle);
    }
    Ok(flagged_last(alloc, nodes, order, &flags)?)
}

/// Flags each node that is `node` or downstream of it, by its place.
fn downstream(
    alloc: Global,
    nodes: &[Node],
    order: &[NodeId],
    node: NodeId,
) -> Result<Vec<bool>, AllocError>
    requires rising { AllPairs (λ a b. a.number < b.number) nodes.now }
    requires wires { (x y : ℕ) → Contains (sources nodes.now x) y → IsLive nodes.now y }
    requires order { IsOrder (sources nodes.now) nodes.now order.now }
    ensures len { IfOk result (λ flags. length flags.items ≡ length nodes.now) }
    ensures flags { IfOk result (λ flags. (x : ℕ) → IsLive nodes.now x → flag_of nodes.now flags.items x ≡ searched (length nodes.now) (sources nodes.now) x node) }
{
    let mut flags = vec![in alloc; false; nodes.len()]?;
    for x in order {
        let at = place(nodes, *x);
        flags[at] = is_downstream(nodes, &flags, &nodes[at], node);
    }
    Ok(flags)
}

/// Whether a node is `node` or takes from a node that is flagged.
fn is_downstream(nodes: &[Node], flags: &[bool], x: &Node, node: NodeId) -> bool
    requires rising { AllPairs (λ a b. a.number < b.number) nodes.now }
    requires flags { length flags.now ≡ length nodes.now }
    requires wires { (y : ℕ) → Contains (wired x.now.wires) y → IsLive nodes.now y }
    ensures { result ≡ ((x.now.number == node) || list_any (flag_of nodes.now flags.now) (wired x.now.wires)) }
{
    x.number == node || takes_from_flagged(nodes, flags, x.wires.as_slice())
}

/// Whether some wire comes from a node that is flagged.
fn takes_from_flagged(nodes: &[Node], flags: &[bool], wires: &[Option<NodeId>]) -> bool
    requires rising { AllPairs (λ a b. a.number < b.number) nodes.now }
    requires flags { length flags.now ≡ length nodes.now }
    requires wires { (y : ℕ) → Contains (wired wires.now) y → IsLive nodes.now y }
    ensures { result ≡ list_any (flag_of nodes.now flags.now) (wired wires.now) }
{
    for wire in wires {
        if let Some(source) = wire {
            if flag(nodes, flags, *source) {
                return true;
            }
        }
    }
    false
}

/// The flag of a node.
fn flag(nodes: &[Node], flags: &[bool], node: NodeId) -> bool
    requires rising { AllPairs (λ a b. a.number < b.number) nodes.now }
    requires flags { length flags.now ≡ length nodes.now }
    requires live { IsLive nodes.now node }
    ensures { result ≡ flag_of nodes.now flags.now node }
{
    flags[place(nodes, node)]
}

/// The order with the flagged nodes behind the others.
fn flagged_last(
    alloc: Global,
    nodes: &[Node],
    order: &[NodeId],
    flags: &[bool],
) -> Result<Vec<NodeId>, AllocError>
    requires rising { AllPairs (λ a b. a.number < b.number) nodes.now }
    requires flags { length flags.now ≡ length nodes.now }
    requires live { (x : ℕ) → Contains order.now x → IsLive nodes.now x }
    ensures { IfOk result (λ new. new.items ≡ filter (λ x. not (flag_of nodes.now flags.now x)) order.now ++ filter (flag_of nodes.now flags.now) order.now) }
{
    let mut front = Vec::with_capacity(alloc, order.len())?;
    let mut back = Vec::new(alloc);
    for x in order {
        if flag(nodes, flags, *x) {
            back.push(*x)?;
        } else {
            front.push(*x)?;
        }
    }
    front.extend_from_slice(back.as_slice())?;
    Ok(front)
}
