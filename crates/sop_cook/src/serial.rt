//! The serial cook of a network. Each node that is needed is cooked once.
ghost use Rattle.std.specs.Prelude.{◌≡◌, ℕ, ◌∷◌, ◌++◌, All, Contains, IfErr, IfOk, IfSome, IsTrue, OnErr, IsSome, IsSomeAnd, Ok, Result, option_map, option_to_list};
ghost use Rattle.sop_model.specs.declared.geo.Geo.{Geo};
ghost use Rattle.sop_model.specs.declared.fault.Fault.{Fault};
ghost use Rattle.sop_net.specs.Graph.{Within};
ghost use Rattle.sop_net.specs.Network.{IsLive, node_of, used_sources};
ghost use Rattle.sop_net.specs.Sockets.{sockets_of};
ghost use Rattle.sop_vault.specs.Keyed.{at};
ghost use Rattle.sop_vault.specs.Vaults.{VaultMap, Added, HoldsAsBefore};
ghost use Rattle.sop_vault.specs.Passing.{Passes, Owns};
ghost use Rattle.sop_basic.specs.Loads.{file_in};
ghost use Rattle.sop_cook.specs.Visit.{at_node, ask, ask_all};
ghost use Rattle.sop_cook.specs.SerialCook.{cook_of};
ghost use Rattle.sop_cook.specs.Laws.{IsMissing};
ghost use Rattle.sop_cook.specs.Ends.{HasNamedNode, IsAtLive, Tells, IsReady, geo_at, seen};
ghost use Rattle.sop_cook.specs.Keys.{inputs_at, keys_in, key_of, IsReadyAt};
ghost use Rattle.sop_cook.specs.Parts.{AreFilled, TellsMade, GoesOn, EndsSo};
ghost use Rattle.sop_cook.specs.Cooking.{nodes_of, keys_of, gives, IsRunning, RunsOn};

use crate::cook_end::CookEnd;
use crate::kept::{Kept, drop_all};
use crate::make::{is_built, make};
use sop_basic::Loaded;
use sop_model::{CookStop, Fault};
use sop_net::{Net, NodeId, Sockets};
use sop_vault::{GeoKey, Vault};
use std::alloc::Global;

/// Cooks a node of a network: a new key of its geometry, exactly as the serial cook defines it, or exactly its fault with the fault's
/// node. No other key comes, goes or changes.
///
/// Each node that it needs is cooked once, inputs before the node. A file that has no load counts as missing.
pub fn cook(
    alloc: Global,
    net: &Net,
    node: NodeId,
    loaded: &Loaded,
    vault: &mut Vault<'_>,
) -> Result<GeoKey, CookEnd>
    requires { IsLive net.now.nodes node }
    ensures tells { Tells (cook_of (file_in loaded.now) net.now.nodes node) (seen vault.new result) }
    ensures ready { IfOk result (λ key. IsSomeAnd (at vault.new.geos key) IsReady) }
    ensures added { IfOk result (λ key. Added vault.old vault.new key (at vault.new.geos key)) }
    ensures err { OnErr result (HoldsAsBefore vault.old vault.new) }
    ensures at { IfErr result (IsAtLive net.now.nodes) }
    ensures named { IfErr result HasNamedNode }

    // `NoFile` comes only where the load of the file of the fault's node is `Missing` or isn't there.
    ensures no_file { IfErr result (λ end. (x : ℕ) → end ≡ CookEnd.Fault x Fault.NoFile → IsMissing (file_in loaded.now) net.now.nodes node x) }
{
    net.is_network();
    vault.is_vault();
    let nodes = net.nodes();
    let kept = match Kept::new(alloc, net, node) {
        Ok(kept) => kept,
        Err(_) => return Err(CookEnd::Memory),
    };
    let mut cooking = Cooking {
        alloc,
        net,
        loaded,
        kept,
    };
    let given = cooking.give(node, nodes, vault);
    drop_all(cooking.kept.keys.as_slice(), vault);
    vault.is_vault();
    given
}

/// A cook that runs.
#[derive(Drop)]
struct Cooking<'a> {
    alloc: Global,
    net: &'a Net,
    loaded: &'a Loaded,
    kept: Kept,
}

impl<'a> Cooking<'a> {
    /// A key of the geometry of a node, of which a share is kept where a later use is left. `left` bounds the ways upstream.
    #[cycle(cook)]
    fn give(&mut self, node: NodeId, left: u32, vault: &mut Vault<'_>) -> Result<GeoKey, CookEnd>
        requires live { IsLive (nodes_of self.old) node }
        requires within { Within (used_sources (nodes_of self.old)) left node }
        requires running { IsRunning vault.old self.old }
        requires owns { Owns vault.old (keys_of self.old) }
        ensures on { RunsOn self.old vault.new self.new }
        ensures tells { Tells (gives self.old node) (seen vault.new result) }
        ensures ready { IfOk result (IsReadyAt vault.new) }
        ensures passes { Passes vault.old (keys_of self.old) vault.new (key_of result ++ keys_of self.new) }
        ensures owns { Owns vault.new (key_of result ++ keys_of self.new) }
    {
        let place = self.net.place(node) as usize;
        match self.kept.take(place) {
            Some(key) => self.keep(node, key, vault),
            None => match self.visit(node, left, vault) {
                Ok(key) => self.keep(node, key, vault),
                Err(end) => Err(end),
            },
        }
    }

    /// Hands on the key of a node's geometry, and keeps a share where a later use is left. For want of memory the geometry goes.
    fn keep(&mut self, node: NodeId, key: GeoKey, vault: &mut Vault<'_>) -> Result<GeoKey, CookEnd>
        requires live { IsLive (nodes_of self.old) node }
        requires running { IsRunning vault.old self.old }
        requires gives { IsSomeAnd (at vault.old.geos key) (λ g. (gives self.old node ≡ Ok g) × IsReady g) }
        requires owns { Owns vault.old (key ∷ keys_of self.old) }
        ensures on { RunsOn self.old vault.new self.new }
        ensures tells { Tells (gives self.old node) (seen vault.new result) }
        ensures ready { IfOk result (IsReadyAt vault.new) }
        ensures passes { Passes vault.old (key ∷ keys_of self.old) vault.new (key_of result ++ keys_of self.new) }
        ensures owns { Owns vault.new (key_of result ++ keys_of self.new) }
    {
        let place = self.net.place(node) as usize;
        match self.kept.keep(place, key, vault) {
            Ok(()) => Ok(key),
            Err(_) => {
                vault.drop_geo(key);
                Err(CookEnd::Memory)
            }
        }
    }

    /// Visits a node: it asks for its inputs, makes its geometry of them, and lets them go.
    #[cycle(cook)]
    fn visit(&mut self, node: NodeId, left: u32, vault: &mut Vault<'_>) -> Result<GeoKey, CookEnd>
        requires live { IsLive (nodes_of self.old) node }
        requires within { Within (used_sources (nodes_of self.old)) left node }
        requires running { IsRunning vault.old self.old }
        requires owns { Owns vault.old (keys_of self.old) }
        ensures on { RunsOn self.old vault.new self.new }
        ensures tells { Tells (gives self.old node) (seen vault.new result) }
        ensures ready { IfOk result (IsReadyAt vault.new) }
        ensures passes { Passes vault.old (keys_of self.old) vault.new (key_of result ++ keys_of self.new) }
        ensures owns { Owns vault.new (key_of result ++ keys_of self.new) }
    {
        let net = self.net;
        net.is_network();
        if !is_built(net.node_type(node)) {
            return Err(CookEnd::Fault {
                node,
                fault: Fault::NotYet,
            });
        }
        match self.gather(node, left, vault) {
            Ok(inputs) => {
                let made = make(self.alloc, net, node, inputs.as_slice(), self.loaded, vault);
                drop_all(inputs.as_slice(), vault);
                made_at(node, made)
            }
            Err(end) => Err(end),
        }
    }

    /// Keys of the inputs that a node uses, asked for in turn. Where one gives none, those before it go.
    #[cycle(cook)]
    fn gather(
        &mut self,
        node: NodeId,
        left: u32,
        vault: &mut Vault<'_>,
    ) -> Result<Vec<Option<GeoKey>>, CookEnd>
        requires live { IsLive (nodes_of self.old) node }
        requires within { Within (used_sources (nodes_of self.old)) left node }
        requires running { IsRunning vault.old self.old }
        requires owns { Owns vault.old (keys_of self.old) }
        ensures on { RunsOn self.old vault.new self.new }
        ensures ok { IfOk result (λ inputs. IfSome (node_of (nodes_of self.old) node) (λ n. GoesOn (gives self.old) (ask_all node (sockets_of n)) (inputs_at vault.new inputs.items))) }
        ensures err { IfErr result (λ end. IfSome (node_of (nodes_of self.old) node) (λ n. EndsSo (gives self.old) (ask_all node (sockets_of n)) end)) }
        ensures filled { IfOk result (λ inputs. IfSome (node_of (nodes_of self.old) node) (λ n. AreFilled (sockets_of n) inputs.items)) }
        ensures ready { IfOk result (λ inputs. All (λ input. IfSome input (IsReadyAt vault.new)) inputs.items) }
        ensures passes { IfOk result (λ inputs. Passes vault.old (keys_of self.old) vault.new (keys_in inputs.items ++ keys_of self.new)) }
        ensures owns { IfOk result (λ inputs. Owns vault.new (keys_in inputs.items ++ keys_of self.new)) }
        ensures passes_err { OnErr result (Passes vault.old (keys_of self.old) vault.new (keys_of self.new)) }
        ensures owns_err { OnErr result (Owns vault.new (keys_of self.new)) }
    {
        let net = self.net;
        let Sockets {
            first,
            are_needed,
            wires,
        } = net.sockets(node);
        let mut inputs = match Vec::with_capacity(self.alloc, wires.len()) {
            Ok(inputs) => inputs,
            Err(_) => return Err(CookEnd::Memory),
        };
        for i in 0..wires.len() {
            match self.ask(node, first + i as u32, are_needed, wires[i], left, vault) {
                Ok(input) => inputs.push_reserved(input),
                Err(end) => {
                    drop_all(inputs.as_slice(), vault);
                    return Err(end);
                }
            }
        }
        Ok(inputs)
    }

    /// A key of one input of a node, or none where it isn't wired and need not be.
    #[cycle(cook)]
    fn ask(
        &mut self,
        node: NodeId,
        input: u32,
        is_needed: bool,
        wire: Option<NodeId>,
        left: u32,
        vault: &mut Vault<'_>,
    ) -> Result<Option<GeoKey>, CookEnd>
        requires used { IfSome wire (λ source. Contains (used_sources (nodes_of self.old) node) source) }
        requires within { Within (used_sources (nodes_of self.old)) left node }
        requires running { IsRunning vault.old self.old }
        requires owns { Owns vault.old (keys_of self.old) }
        ensures on { RunsOn self.old vault.new self.new }
        ensures ok { IfOk result (λ key. GoesOn (gives self.old) (ask node input is_needed wire) (option_map (geo_at vault.new) key)) }
        ensures err { IfErr result (EndsSo (gives self.old) (ask node input is_needed wire)) }
        ensures given { IfOk result (λ key. IsTrue is_needed → IsSome key) }
        ensures ready { IfOk result (λ key. IfSome key (IsReadyAt vault.new)) }
        ensures passes { IfOk result (λ key. Passes vault.old (keys_of self.old) vault.new (option_to_list key ++ keys_of self.new)) }
        ensures owns { IfOk result (λ key. Owns vault.new (option_to_list key ++ keys_of self.new)) }
        ensures passes_err { OnErr result (Passes vault.old (keys_of self.old) vault.new (keys_of self.new)) }
        ensures owns_err { OnErr result (Owns vault.new (keys_of self.new)) }
    {
        let net = self.net;
        net.is_network();
        match wire {
            Some(source) => match self.give(source, left - 1, vault) {
                Ok(key) => Ok(Some(key)),
                Err(end) => Err(end),
            },
            None if is_needed => Err(CookEnd::Fault {
                node,
                fault: Fault::NoInput(input),
            }),
            None => Ok(None),
        }
    }
}

/// What a node made: a fault is its own.
fn made_at(node: NodeId, made: Result<GeoKey, CookStop>) -> Result<GeoKey, CookEnd>
    ensures tells { (v : VaultMap) (outcome : Result Geo Fault) → TellsMade outcome (seen v made) → Tells (at_node node outcome) (seen v result) }
    ensures ready { (v : VaultMap) → IfOk made (IsReadyAt v) → IfOk result (IsReadyAt v) }
    ensures key { key_of result ≡ key_of made }
{
    match made {
        Ok(key) => Ok(key),
        Err(CookStop::Fault(fault)) => Err(CookEnd::Fault { node, fault }),
        Err(CookStop::Memory) => Err(CookEnd::Memory),
    }
}
