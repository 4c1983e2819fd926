// A combining node, by its type.
ghost use Rattle.std.specs.Prelude.{◌≡◌, Some, slice_get, IsTrue, IfOk, OnErr, IsSomeAnd};
ghost use Rattle.sop_model.specs.Geometry.{IsGood};
ghost use Rattle.sop_net.specs.NodeTable.{parms_of};
ghost use Rattle.sop_net.specs.Network.{AreValues};
ghost use Rattle.sop_vault.specs.Keyed.{at};
ghost use Rattle.sop_vault.specs.Vaults.{HoldsAsBefore};
ghost use Rattle.sop_basic.specs.Making.{Gives};
ghost use Rattle.sop_basic.specs.Cook.{inputs_seen, AreLive, AreGoodAt};
ghost use Rattle.sop_combine.specs.Combine.{combine_geo, is_combining};
ghost use Rattle.sop_combine.specs.Cook.{needs_input, IsGivenAt};

use crate::blast::cook_blast;
use crate::group_create::cook_group_create;
use crate::merge::cook_merge;
use sop_model::CookStop;
use sop_net::{NodeType, Parms};
use sop_vault::{GeoKey, Vault};
use std::alloc::Global;

/// Whether a type is a combining one: `merge`, `blast` or `groupcreate`.
pub fn is_combining(node_type: NodeType) -> bool
    ensures { result ≡ is_combining node_type }
{
    matches!(
        node_type,
        NodeType::Merge | NodeType::Blast | NodeType::GroupCreate
    )
}

/// Cooks a node of a combining type, with all inputs of its type by rising number, the needed ones of which are given: a new key of what the node
/// gives, well made where its inputs are, and all else in the vault stays. The fault of the node else; want of memory may come at any time.
/// After an `Err` every key and its pages are as before.
pub fn cook_combine<'b>(
    alloc: Global,
    vault: &mut Vault<'b>,
    node_type: NodeType,
    parms: &Parms,
    inputs: &[Option<GeoKey>],
) -> Result<GeoKey, CookStop>
    requires built { IsTrue (is_combining node_type) }
    requires values { AreValues (parms_of node_type) parms.now }
    requires needed { IsTrue (needs_input node_type) → IsGivenAt inputs.now 0 }
    requires live { AreLive vault.old inputs.now }
    ensures gives { Gives vault.old vault.new (combine_geo node_type parms.now (inputs_seen vault.old inputs.now)) result }
    ensures err { OnErr result (HoldsAsBefore vault.old vault.new) }
    ensures good { AreGoodAt vault.old inputs.now → IfOk result (λ key. IsSomeAnd (at vault.new.geos key) IsGood) }
{
    vault.is_vault();
    let cooked = cook_now(alloc, vault, node_type, parms, inputs);
    vault.is_vault();
    cooked
}

/// The same, but that less is said of what is left.
fn cook_now<'b>(
    alloc: Global,
    vault: &mut Vault<'b>,
    node_type: NodeType,
    parms: &Parms,
    inputs: &[Option<GeoKey>],
) -> Result<GeoKey, CookStop>
    requires built { IsTrue (is_combining node_type) }
    requires values { AreValues (parms_of node_type) parms.now }
    requires needed { IsTrue (needs_input node_type) → IsGivenAt inputs.now 0 }
    requires live { AreLive vault.old inputs.now }
    ensures { Gives vault.old vault.new (combine_geo node_type parms.now (inputs_seen vault.old inputs.now)) result }
{
    match node_type {
        NodeType::Merge => cook_merge(vault, inputs),
        NodeType::Blast => cook_blast(alloc, vault, parms, given(inputs, 0)),
        NodeType::GroupCreate => cook_group_create(alloc, vault, parms, given(inputs, 0)),
        _ => unreachable!(),
    }
}

/// The key that is given for the input of a number.
fn given(inputs: &[Option<GeoKey>], number: usize) -> GeoKey
    requires { IsGivenAt inputs.now number }
    ensures { slice_get inputs.now number ≡ Some (Some result) }
{
    match inputs.get(number) {
        Some(Some(key)) => *key,
        _ => unreachable!(),
    }
}
