// A basic node, by its type.
ghost use Rattle.std.specs.Prelude.{◌≡◌, Some, slice_get, IsTrue, IfOk, OnOk, OnErr, IsSomeAnd};
ghost use Rattle.std.specs.Option.{option_and_then};
ghost use Rattle.sop_model.specs.Geometry.{IsGood};
ghost use Rattle.sop_net.specs.NodeTable.{parms_of};
ghost use Rattle.sop_net.specs.Network.{AreValues};
ghost use Rattle.sop_vault.specs.Keyed.{at};
ghost use Rattle.sop_vault.specs.Vaults.{HoldsAsBefore};
ghost use Rattle.sop_basic.specs.Loads.{file_in};
ghost use Rattle.sop_basic.specs.Making.{Gives};
ghost use Rattle.sop_basic.specs.Basic.{basic_geo, is_basic};
ghost use Rattle.sop_basic.specs.Cook.{inputs_seen, needs_input, hands_on, IsGiven, AreLive, AreGoodAt};

use crate::add::cook_add;
use crate::attrib_create::cook_attrib_create;
use crate::attrib_delete::cook_attrib_delete;
use crate::box_node::cook_box;
use crate::enumerate::cook_enumerate;
use crate::file::cook_file;
use crate::grid::cook_grid;
use crate::line::cook_line;
use crate::loaded::Loaded;
use crate::making::hand_on;
use crate::xform::cook_xform;
use sop_model::CookStop;
use sop_net::{NodeType, Parms};
use sop_vault::{GeoKey, Vault};
use std::alloc::Global;

/// Whether a type is a basic one.
pub fn is_basic(node_type: NodeType) -> bool
    ensures { result ≡ is_basic node_type }
{
    matches!(
        node_type,
        NodeType::File
            | NodeType::Add
            | NodeType::Line
            | NodeType::Grid
            | NodeType::Box
            | NodeType::Null
            | NodeType::Switch
            | NodeType::Xform
            | NodeType::AttribCreate
            | NodeType::AttribDelete
            | NodeType::Enumerate
    )
}

/// Cooks a node of a basic type, with an input for each that it uses, by rising number (of a switch the one that it takes, of every
/// other node all of its type's), and with the loads of files: a new key of what the node gives, well made where its inputs are, and all
/// else in the vault stays. A null and a switch add no page. The fault of the node else; want of memory may come at any time. After an
/// `Err` every key and its pages are as before.
pub fn cook_basic<'b>(
    alloc: Global,
    vault: &mut Vault<'b>,
    node_type: NodeType,
    parms: &Parms,
    inputs: &[Option<GeoKey>],
    loaded: &Loaded,
) -> Result<GeoKey, CookStop>
    requires built { IsTrue (is_basic node_type) }
    requires values { AreValues (parms_of node_type) parms.now }
    requires needed { IsTrue (needs_input node_type) → IsGiven inputs.now }
    requires live { AreLive vault.old inputs.now }
    ensures gives { Gives vault.old vault.new (basic_geo (file_in loaded.now) node_type parms.now (inputs_seen vault.old inputs.now)) result }
    ensures pages { IsTrue (hands_on node_type) → OnOk result (vault.new.pages ≡ vault.old.pages) }
    ensures err { OnErr result (HoldsAsBefore vault.old vault.new) }
    ensures good { AreGoodAt vault.old inputs.now → IfOk result (λ key. IsSomeAnd (at vault.new.geos key) IsGood) }
{
    vault.is_vault();
    let cooked = cook_by_type(alloc, vault, node_type, parms, inputs, loaded);
    vault.is_vault();
    cooked
}

/// The same, but that less is said of what is left.
fn cook_by_type<'b>(
    alloc: Global,
    vault: &mut Vault<'b>,
    node_type: NodeType,
    parms: &Parms,
    inputs: &[Option<GeoKey>],
    loaded: &Loaded,
) -> Result<GeoKey, CookStop>
    requires built { IsTrue (is_basic node_type) }
    requires values { AreValues (parms_of node_type) parms.now }
    requires needed { IsTrue (needs_input node_type) → IsGiven inputs.now }
    requires live { AreLive vault.old inputs.now }
    ensures gives { Gives vault.old vault.new (basic_geo (file_in loaded.now) node_type parms.now (inputs_seen vault.old inputs.now)) result }
    ensures pages { IsTrue (hands_on node_type) → OnOk result (vault.new.pages ≡ vault.old.pages) }
{
    match node_type {
        NodeType::File => cook_file(alloc, vault, parms, loaded),
        NodeType::Add => cook_add(alloc, vault, parms, first(inputs)),
        NodeType::Line => cook_line(alloc, vault, parms),
        NodeType::Grid => cook_grid(vault, parms),
        NodeType::Box => cook_box(vault, parms),
        NodeType::Null => hand_on(vault, given(inputs)),
        NodeType::Switch => hand_on(vault, given(inputs)),
        NodeType::Xform => cook_xform(alloc, vault, parms, given(inputs)),
        NodeType::AttribCreate => cook_attrib_create(alloc, vault, parms, given(inputs)),
        NodeType::AttribDelete => cook_attrib_delete(alloc, vault, parms, given(inputs)),
        NodeType::Enumerate => cook_enumerate(alloc, vault, parms, given(inputs)),
        _ => unreachable!(),
    }
}

/// The key that is given for the first input, where there is one.
fn first(inputs: &[Option<GeoKey>]) -> Option<GeoKey>
    ensures { result ≡ option_and_then (λ key. key) (slice_get inputs.now 0) }
{
    match inputs.first() {
        Some(input) => *input,
        None => None,
    }
}

/// The key that is given for the first input.
fn given(inputs: &[Option<GeoKey>]) -> GeoKey
    requires { IsGiven inputs.now }
    ensures { slice_get inputs.now 0 ≡ Some (Some result) }
{
    match inputs.first() {
        Some(Some(key)) => *key,
        _ => unreachable!(),
    }
}
