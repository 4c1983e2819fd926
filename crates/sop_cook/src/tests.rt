//! Tests of the cook.
use super::*;
use geo_text::write_obj;
use sop_net::{Net, NetEnd};
use sop_outside::ByteList;
use sop_vault::Vault;
use std::alloc::{AllocError, Global};
use std::test::Fail;

const POINT: &[u8] = b"v 1 2 3\n";

/// A merge of a file, of a switch that takes the same file by a null, and of nothing between them.
fn merge_net(alloc: Global) -> Result<Net, NetEnd> {
    let mut net = Net::new(alloc);
    for (word, name) in [
        ("file", "f"),
        ("null", "n"),
        ("switch", "w"),
        ("merge", "m"),
    ] {
        net.add(word, name)?;
    }
    net.set_parm("f", "file", "a")?;
    net.set_parm("w", "input", "1")?;
    for (node, input, source) in [
        ("n", "0", "f"),
        ("w", "1", "n"),
        ("m", "0", "f"),
        ("m", "31", "w"),
    ] {
        net.wire(node, input, source)?;
    }
    Ok(net)
}

fn loads(alloc: Global, bytes: &[u8]) -> Result<Loaded, AllocError> {
    let mut loaded = Loaded::new(alloc);
    let bytes = ByteList::from_vec(Vec::from_slice(alloc, bytes)?);
    loaded.add("a", LoadedFile::Bytes(bytes))?;
    Ok(loaded)
}

/// The geometry of the node of a name as OBJ, and nothing where it has none.
fn cooked(alloc: Global, net: &Net, name: &str, loaded: &Loaded) -> Result<Vec<u8>, AllocError> {
    let Some(node) = net.find(name) else {
        return Ok(Vec::new(alloc));
    };
    let mut vault = Vault::new(alloc);
    match cook(alloc, net, node, loaded, &mut vault) {
        Ok(key) => write_obj(alloc, &vault.view(key)),
        Err(_) => Ok(Vec::new(alloc)),
    }
}

#[test]
fn a_network_is_cooked(rt: HostRuntime) -> Result<(), Fail> {
    let loaded = loads(rt.alloc(), POINT)?;
    assert!(rt; loaded.has("a") && !loaded.has("b"));
    let net = merge_net(rt.alloc())?;
    cook_runs_visits(&net);
    let text = cooked(rt.alloc(), &net, "m", &loaded)?;
    assert_eq!(rt; text.as_slice(), b"v 1 2 3\nv 1 2 3\n".as_slice());
    Ok(())
}
