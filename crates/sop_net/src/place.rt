// Where a node stands in the order of making.
ghost use Rattle.std.specs.Prelude.{◌≡◌, ◌<◌, AllPairs, length, Some};
ghost use Rattle.sop_net.specs.Network.{place_of, IsLive};

use crate::node::{Node, NodeId};

/// The place of a node that stands: its number, unless a node before it was removed.
pub fn place(nodes: &[Node], node: NodeId) -> usize
    requires rising { AllPairs (λ a b. a.number < b.number) nodes.now }
    requires live { IsLive nodes.now node }
    ensures place { place_of nodes.now node ≡ Some result }
    ensures within { result < length nodes.now }
{
    let first = node.number() as usize;
    match nodes.get(first) {
        Some(there) if there.number == node => first,
        _ => searched(nodes, node),
    }
}

/// The place of a node that stands, by a search in halves: numbers rise along the list.
fn searched(nodes: &[Node], node: NodeId) -> usize
    requires rising { AllPairs (λ a b. a.number < b.number) nodes.now }
    requires live { IsLive nodes.now node }
    ensures place { place_of nodes.now node ≡ Some result }
    ensures within { result < length nodes.now }
{
    match nodes.binary_search_by_key(&node.number(), |n| n.number.number()) {
        Ok(at) => at,
        Err(_) => unreachable!(),
    }
}
