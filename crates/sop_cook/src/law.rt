//! The laws of the cook.
ghost use Rattle.std.specs.Prelude.{◌≡◌, ℕ};
ghost use Rattle.sop_net.specs.Network.{node_of, IsLive};
ghost use Rattle.sop_basic.specs.Loads.{FileMap};
ghost use Rattle.sop_cook.specs.Visit.{visit};
ghost use Rattle.sop_cook.specs.SerialCook.{run, cook_of};
ghost use Rattle.sop_cook.specs.Laws.{Asks, IsUsedWire, AreAlike};

use sop_net::Net;

/// The laws of the cook of a network. The call does nothing.
///
/// What a node cooks to is what its visit gives where it is run, so the bound of the definition is never met. A visit asks for used wires of its
/// node alone. A node cooks to the same over files that agree on the names that it and the nodes upstream of it by used wires load.
pub fn cook_runs_visits(net: &Net)
    ensures rule { (files : FileMap) (x : ℕ) → IsLive net.now.nodes x → cook_of files net.now.nodes x ≡ run (cook_of files net.now.nodes) (visit files x (node_of net.now.nodes x)) }
    ensures asks { (files : FileMap) (x : ℕ) → Asks (IsUsedWire net.now.nodes x) (visit files x (node_of net.now.nodes x)) }
    ensures files { (files others : FileMap) (x : ℕ) → AreAlike files others net.now.nodes x → cook_of files net.now.nodes x ≡ cook_of others net.now.nodes x }
{
    net.is_network();
}
