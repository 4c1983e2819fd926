// The files that the cook of a node needs.
ghost use Rattle.std.specs.Prelude.{◌≡◌, ◌≤◌, ◌++◌, length, take, drop, All};
ghost use Rattle.std.specs.List.{list_any};
ghost use Rattle.std.specs.Option.{option_copied};
ghost use Rattle.sop_net.specs.Limits.{most_nodes};
ghost use Rattle.sop_net.specs.Graph.{Within};
ghost use Rattle.sop_net.specs.Network.{IsLive, used_sources};
ghost use Rattle.sop_net.specs.Needs.{file_of, IsFileNode, is_file_named, needed, with_file};
ghost use Rattle.sop_net.specs.Listing.{IsListing, IsWritten, with_needs};

use crate::limits::MOST_NODES;
use crate::net::Net;
use crate::node::NodeId;
use crate::node_type::NodeType;

/// What `Net::needs` writes and answers.
pub(crate) fn needs_of(net: &Net, node: NodeId, into: &mut [NodeId]) -> usize
    requires live { IsLive net.now.nodes node }
    requires room { most_nodes ≤ length into.old }
    ensures count { result ≡ length (needed net.now.nodes node) }
    ensures few { result ≤ most_nodes }
    ensures files { All (IsFileNode net.now.nodes) (needed net.now.nodes node) }
    ensures written { into.new ≡ needed net.now.nodes node ++ drop result into.old }
{
    net.is_network();
    let mut marks = [false; MOST_NODES];
    visit(net, node, net.nodes(), &mut marks, into, 0)
}

/// Lists the files that the cook of a node needs behind the first `count`, and answers how many are listed then.
///
/// Marks go by the places of nodes: of a marked node, all that it needs is listed. `left` bounds the ways upstream.
fn visit(
    net: &Net,
    node: NodeId,
    left: u32,
    marks: &mut [bool],
    into: &mut [NodeId],
    mut count: usize,
) -> usize
    requires live { IsLive net.now.nodes node }
    requires within { Within (used_sources net.now.nodes) left node }
    requires places { length net.now.nodes ≤ length marks.old }
    requires room { length net.now.nodes ≤ length into.old }
    requires count { count ≤ length into.old }
    requires listing { IsListing net.now.nodes marks.old (take count into.old) }
    ensures written { IsWritten into.old into.new result (with_needs net.now.nodes (take count into.old) node) }
    ensures listing { IsListing net.now.nodes marks.new (with_needs net.now.nodes (take count into.old) node) }
{
    let place = net.place(node) as usize;
    if marks[place] {
        return count;
    }
    net.is_network();
    for wire in net.used_wires(node) {
        if let Some(source) = wire {
            count = visit(net, *source, left - 1, marks, into, count);
        }
    }
    count = list(net, node, into, count);
    marks[place] = true;
    count
}

/// Lists a node behind the first `count` where it loads a file that none of them loads, and answers how many are listed then.
fn list(net: &Net, node: NodeId, into: &mut [NodeId], count: usize) -> usize
    requires live { IsLive net.now.nodes node }
    requires listed { All (IsLive net.now.nodes) (take count into.old) }
    requires count { count ≤ length into.old }
    requires room { length (with_file net.now.nodes (take count into.old) node) ≤ length into.old }
    ensures { IsWritten into.old into.new result (with_file net.now.nodes (take count into.old) node) }
{
    match file_name(net, node) {
        Some(name) if !is_listed(net, &into[..count], name) => {
            into[count] = node;
            count + 1
        }
        _ => count,
    }
}

/// The name of the file that a node loads.
fn file_name(net: &Net, node: NodeId) -> Option<&str>
    requires { IsLive net.now.nodes node }
    ensures { option_copied result ≡ file_of net.now.nodes node }
{
    match net.node_type(node) {
        NodeType::File => Some(net.file_name(node)),
        _ => None,
    }
}

/// Whether one of the listed nodes loads the file of this name.
///
/// It looks at each, so that no memory is taken: a full list of 1,024 costs about half a million looks in all.
fn is_listed(net: &Net, listed: &[NodeId], name: &str) -> bool
    requires { All (IsLive net.now.nodes) listed.now }
    ensures { result ≡ list_any (λ y. is_file_named (file_of net.now.nodes y) name.now) listed.now }
{
    for node in listed {
        if loads(net, *node, name) {
            return true;
        }
    }
    false
}

/// Whether a node loads the file of this name.
fn loads(net: &Net, node: NodeId, name: &str) -> bool
    requires { IsLive net.now.nodes node }
    ensures { result ≡ is_file_named (file_of net.now.nodes node) name.now }
{
    match file_name(net, node) {
        Some(file) => file == name,
        None => false,
    }
}
