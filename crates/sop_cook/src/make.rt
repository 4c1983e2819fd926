//! What a node makes of its inputs and its file.
ghost use Rattle.std.specs.Prelude.{◌≡◌, [], All, IfOk, IfSome, IsTrue};
ghost use Rattle.sop_net.specs.Network.{IsLive, node_of};
ghost use Rattle.sop_net.specs.Sockets.{sockets_of};
ghost use Rattle.sop_vault.specs.Passing.{Passes, Owns};
ghost use Rattle.sop_basic.specs.Loads.{file_in};
ghost use Rattle.sop_cook.specs.Made.{is_built, made};
ghost use Rattle.sop_cook.specs.Ends.{seen};
ghost use Rattle.sop_cook.specs.Keys.{inputs_at, key_of, IsReadyAt};
ghost use Rattle.sop_cook.specs.Parts.{AreFilled, TellsMade};

use sop_basic::{Loaded, cook_basic, is_basic};
use sop_combine::{cook_combine, is_combining};
use sop_model::CookStop;
use sop_net::{Net, NodeId, NodeType};
use sop_vault::{GeoKey, Vault};
use std::alloc::Global;

/// Whether nodes of this type can be cooked yet.
pub fn is_built(node_type: NodeType) -> bool
    ensures { result ≡ is_built node_type }
{
    is_combining(node_type) || is_basic(node_type)
}

/// A new key of what a node makes of its inputs, one for each that it uses, and of its file.
pub fn make(
    alloc: Global,
    net: &Net,
    node: NodeId,
    inputs: &[Option<GeoKey>],
    loaded: &Loaded,
    vault: &mut Vault<'_>,
) -> Result<GeoKey, CookStop>
    requires live { IsLive net.now.nodes node }
    requires built { IfSome (node_of net.now.nodes node) (λ n. IsTrue (is_built n.node_type)) }
    requires filled { IfSome (node_of net.now.nodes node) (λ n. AreFilled (sockets_of n) inputs.now) }
    requires ready { All (λ input. IfSome input (IsReadyAt vault.old)) inputs.now }
    ensures tells { IfSome (node_of net.now.nodes node) (λ n. TellsMade (made (file_in loaded.now) n (inputs_at vault.old inputs.now)) (seen vault.new result)) }
    ensures ready { IfOk result (IsReadyAt vault.new) }
    ensures passes { Passes vault.old [] vault.new (key_of result) }
    ensures owns { Owns vault.new (key_of result) }
{
    net.is_network();
    let node_type = net.node_type(node);
    let parms = net.parms(node);
    if is_combining(node_type) {
        cook_combine(alloc, vault, node_type, parms, inputs)
    } else {
        cook_basic(alloc, vault, node_type, parms, inputs, loaded)
    }
}
