//! How often each node is used in a cook, so that a share of a geometry is kept only where a later use is left.
ghost use Rattle.std.specs.Prelude.{◌≡◌, length, IfOk};
ghost use Rattle.sop_net.specs.Network.{IsLive, used_sources};
ghost use Rattle.sop_net.specs.Graph.{Within};

use sop_net::{Net, NodeId};
use std::alloc::{AllocError, Global};

/// How often each node is used in a cook of `node`, by its place.
pub fn uses_of(alloc: Global, net: &Net, node: NodeId) -> Result<Vec<u32>, AllocError>
    requires { IsLive net.now.nodes node }
    ensures { IfOk result (λ uses. length uses.items ≡ length net.now.nodes) }
{
    net.is_network();
    let mut uses = vec![in alloc; 0; net.nodes() as usize]?;
    count(net, node, net.nodes(), &mut uses);
    Ok(uses)
}

/// Counts a use of a node, and at the first one those of its sources. `left` bounds the ways upstream.
fn count(net: &Net, node: NodeId, left: u32, uses: &mut [u32])
    requires live { IsLive net.now.nodes node }
    requires within { Within (used_sources net.now.nodes) left node }
    requires places { length uses.old ≡ length net.now.nodes }
    ensures { length uses.new ≡ length uses.old }
{
    let place = net.place(node) as usize;
    uses[place] = uses[place].saturating_add(1);
    if uses[place] > 1 {
        return;
    }
    net.is_network();
    let wires = net.used_wires(node);
    for wire in wires {
        if let Some(source) = *wire {
            count(net, source, left - 1, uses);
        }
    }
}
