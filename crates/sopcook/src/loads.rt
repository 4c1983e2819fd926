//! The files that a cook needs, loaded before any is read.
ghost use Rattle.std.specs.Prelude.{◌≡◌, ◌≤◌, All, Err, Ok, IfOk, IfSome, OnOk};
ghost use Rattle.sop_outside.specs.Causes.{Counts, Rose};
ghost use Rattle.sop_net.specs.Needs.{IsFileNode, needed};
ghost use Rattle.sop_net.specs.Network.{IsLive};
ghost use Rattle.sopcook.specs.Loads.{Has, HasFilesOf, HasMissing, HoldsLoads, Keeps, MissesBy, told_files};

use crate::limits::MOST_FILE_BYTES;
use crate::run_end::RunEnd;
use sop_cook::{Loaded, LoadedFile};
use sop_net::limits::MOST_NODES;
use sop_net::{Net, NodeId};
use sop_outside::{ByteList, Files, LoadEnd};
use std::alloc::Global;

/// Loads the files that the cook of a node needs, inputs before the node, each name once.
pub fn load_needs<F: Files>(
    files: &mut F,
    alloc: Global,
    net: &Net,
    node: NodeId,
) -> Result<Loaded, RunEnd>
    requires { IsLive net.now.nodes node }
    ensures told { F.told files.new ≡ F.told files.old }
    ensures faults { Counts (F.faults files.old) (F.faults files.new) (result ≡ Err RunEnd.Read) }
    ensures misses_later { F.misses files.old ≤ F.misses files.new }
    ensures overs_later { F.overs files.old ≤ F.overs files.new }
    ensures loads { IfSome (F.told files.old) (λ names. IfOk result (HoldsLoads names)) }
    ensures all { IfOk result (HasFilesOf net.now.nodes (needed net.now.nodes node)) }
    ensures missing { IfOk result (λ loaded. HasMissing loaded → Rose (F.misses files.old) (F.misses files.new)) }
{
    let mut nodes = vec![in alloc; node; MOST_NODES]?;
    let count = net.needs(node, &mut nodes);
    load_files(files, alloc, net, &nodes[..count])
}

/// Loads the files of `file` nodes.
fn load_files<F: Files>(
    files: &mut F,
    alloc: Global,
    net: &Net,
    nodes: &[NodeId],
) -> Result<Loaded, RunEnd>
    requires { All (IsFileNode net.now.nodes) nodes.now }
    ensures told { F.told files.new ≡ F.told files.old }
    ensures faults { Counts (F.faults files.old) (F.faults files.new) (result ≡ Err RunEnd.Read) }
    ensures misses_later { F.misses files.old ≤ F.misses files.new }
    ensures overs_later { F.overs files.old ≤ F.overs files.new }
    ensures loads { IfSome (F.told files.old) (λ names. IfOk result (HoldsLoads names)) }
    ensures all { IfOk result (HasFilesOf net.now.nodes nodes.now) }
    ensures missing { IfOk result (λ loaded. HasMissing loaded → Rose (F.misses files.old) (F.misses files.new)) }
{
    let mut loaded = Loaded::new(alloc);
    for node in nodes {
        load_file(files, alloc, net.file_name(*node), &mut loaded)?;
    }
    Ok(loaded)
}

/// Loads a file and adds the load.
fn load_file<F: Files>(
    files: &mut F,
    alloc: Global,
    name: &str,
    loaded: &mut Loaded,
) -> Result<(), RunEnd>
    ensures told { F.told files.new ≡ F.told files.old }
    ensures faults { Counts (F.faults files.old) (F.faults files.new) (result ≡ Err RunEnd.Read) }
    ensures misses_later { F.misses files.old ≤ F.misses files.new }
    ensures overs_later { F.overs files.old ≤ F.overs files.new }
    ensures loads { IfSome (F.told files.old) (λ names. HoldsLoads names loaded.old → HoldsLoads names loaded.new) }
    ensures kept { Keeps loaded.old loaded.new }
    ensures here { OnOk result (Has loaded.new name.now) }
    ensures missing { OnOk result (MissesBy loaded.old loaded.new (Rose (F.misses files.old) (F.misses files.new))) }
{
    let load = load_one(files, alloc, name)?;
    loaded.add(name, load)?;
    Ok(())
}

/// Loads one file. That it is missing or too long is a load too.
fn load_one<F: Files>(files: &mut F, alloc: Global, name: &str) -> Result<LoadedFile, RunEnd>
    ensures told { F.told files.new ≡ F.told files.old }
    ensures faults { Counts (F.faults files.old) (F.faults files.new) (result ≡ Err RunEnd.Read) }
    ensures misses { Counts (F.misses files.old) (F.misses files.new) (result ≡ Ok LoadedFile.Missing) }
    ensures overs_later { F.overs files.old ≤ F.overs files.new }
    ensures load { IfSome (F.told files.old) (λ names. IfOk result (λ load. load ≡ told_files names name.now)) }
{
    match files.load(alloc, name, MOST_FILE_BYTES) {
        Ok(bytes) => Ok(LoadedFile::Bytes(ByteList::from_vec(bytes))),
        Err(LoadEnd::Missing) => Ok(LoadedFile::Missing),
        Err(LoadEnd::TooLong) => Ok(LoadedFile::TooLong),
        Err(LoadEnd::Failed) => Err(RunEnd::Read),
        Err(LoadEnd::Memory) => Err(RunEnd::Memory),
    }
}
