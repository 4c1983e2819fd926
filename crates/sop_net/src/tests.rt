// The unit row of refusals, and each public call on a small network.
ghost use Rattle.std.specs.Prelude.{◌≡◌, ◌%◌, length, IfOk};
ghost use Rattle.sop_net.specs.Network.{IsLive};

use super::*;
use sop_outside::{Text, TextList};
use std::alloc::{AllocError, Global};
use std::process::Abort;
use std::test::Fail;

fn pair(alloc: Global, name: &str, value: &str) -> Result<TextList, AllocError>
    ensures { IfOk result (λ pair. length pair % 2 ≡ 0) }
{
    let (name, value) = (Text::from_str(alloc, name)?, Text::from_str(alloc, value)?);
    let mut pair = TextList::new(alloc);
    pair.add(name)?;
    pair.add(value)?;
    Ok(pair)
}

#[test]
fn refusals_have_their_names(rt: HostRuntime) -> Result<(), Fail> {
    let mut net = Net::new(rt.alloc());
    net.add("null", "a")?;
    assert!(rt; net.set_parm("a", "x", "1") == Err(NetEnd::NoParm));
    assert!(rt; net.set_parms("a", &pair(rt.alloc(), "x", "1")?) == Err(NetEnd::NoParm));
    assert!(rt; net.wire("a", "1", "a") == Err(NetEnd::BadInput));
    assert!(rt; net.wire("a", "0", "a") == Err(NetEnd::Cycle));
    assert!(rt; net.remove("b") == Err(NetEnd::NoNode));
    Ok(())
}

/// The node of a name.
fn named(rt: &impl Abort, net: &Net, name: &str) -> NodeId
    ensures { IsLive net.now.nodes result }
{
    net.find(name).expect(rt, "a node of this name")
}

/// A switch `s` that takes its input 1, into which the file node `f` is wired.
fn sample(alloc: Global) -> Result<Net, Fail> {
    let mut net = Net::new(alloc);
    net.add("file", "f")?;
    net.add("switch", "s")?;
    net.set_parm("f", "file", "a.obj")?;
    net.set_parms("s", &pair(alloc, "input", "1")?)?;
    net.wire("s", "01", "f")?;
    Ok(net)
}

#[test]
fn a_network_is_read(rt: HostRuntime) -> Result<(), Fail> {
    let mut net = sample(rt.alloc())?;
    assert_eq!(rt; net.nodes(), 2);
    let (f, s) = (named(&rt, &net, "f"), named(&rt, &net, "s"));
    assert_eq!(rt; net.name(s), "s");
    assert!(rt; net.node_type(f) == NodeType::File);
    assert!(rt; net.node(1) == s && net.place(s) == 1);
    assert!(rt; net.source(s, 1) == Some(f));
    let sockets = net.sockets(s);
    assert!(rt; sockets.first == 1 && sockets.are_needed && sockets.wires == &[Some(f)][..]);
    let mut files = vec![in rt.alloc(); s; limits::MOST_NODES]?;
    assert_eq!(rt; net.needs(s, &mut files), 1);
    assert!(rt; files[0] == f);
    net.remove("f")?;
    assert!(rt; net.find("f").is_none() && net.place(named(&rt, &net, "s")) == 0);
    Ok(())
}
