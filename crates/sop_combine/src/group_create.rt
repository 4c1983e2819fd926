// `groupcreate`: a group of what is selected.
ghost use Rattle.std.specs.Prelude.{◌≡◌, Some};
ghost use Rattle.sop_model.specs.declared.geo.Geo.{Geo};
ghost use Rattle.sop_net.specs.declared.node_type.NodeType.TheVariants as type;
ghost use Rattle.sop_net.specs.NodeTable.{parms_of};
ghost use Rattle.sop_net.specs.Network.{AreValues};
ghost use Rattle.sop_vault.specs.Keyed.{at, IsLive};
ghost use Rattle.sop_basic.specs.Outcomes.{limited};
ghost use Rattle.sop_basic.specs.Making.{Gives};
ghost use Rattle.sop_combine.specs.GroupCreate.{combination_in, combined, groupcreate_geo};

use crate::members::combine_members;
use sop_basic::{class_in, finish, selected};
use sop_model::{CookStop, Fault, is_name};
use sop_net::Parms;
use sop_vault::{GeoKey, Vault};
use std::alloc::Global;

/// How the old members of a group are combined with the selected elements.
#[derive(Clone, Copy, Debug, PartialEq, Eq)]
pub enum Combination {
    /// The selected are members.
    Replace,
    /// The old members and the selected are.
    Union,
    /// The old members that are selected are.
    Intersect,
    /// The old members that aren't selected are.
    Subtract,
}

impl Combination {
    /// The one of a word.
    fn of(text: &str) -> Combination
        ensures { result ≡ combination_in text.now }
    {
        if text == "union" {
            Combination::Union
        } else if text == "intersect" {
            Combination::Intersect
        } else if text == "subtract" {
            Combination::Subtract
        } else {
            Combination::Replace
        }
    }

    /// Whether an element is a member, by whether it was one and whether it is selected.
    pub fn combined(self, old: bool, selected: bool) -> bool
        ensures { result ≡ combined self old selected }
    {
        match self {
            Combination::Replace => selected,
            Combination::Union => old || selected,
            Combination::Intersect => old && selected,
            Combination::Subtract => old && !selected,
        }
    }
}

/// Cooks a `groupcreate` node: a new key. `BadParm` for a bad name, then `BadGroup` and `NoGroup` as a pattern gives them, then `Limit` for
/// a 257th group.
pub fn cook_group_create<'b>(
    alloc: Global,
    vault: &mut Vault<'b>,
    parms: &Parms,
    input: GeoKey,
) -> Result<GeoKey, CookStop>
    requires live { IsLive vault.old.geos input }
    requires values { AreValues (parms_of type.GroupCreate) parms.now }
    ensures { (g : Geo) → at vault.old.geos input ≡ Some g → Gives vault.old vault.new (limited (groupcreate_geo parms.now g)) result }
{
    let class = class_in(parms.text(0));
    let name = parms.text(1);
    if !is_name(name.as_bytes()) {
        return Err(CookStop::Fault(Fault::BadParm));
    }
    let flags = match selected(alloc, vault, input, class, parms.text(2)) {
        Ok(flags) => flags,
        Err(stop) => return Err(stop),
    };
    let combination = Combination::of(parms.text(3));
    let key = vault.share(input)?;
    let made = combine_members(vault, key, class, name, combination, &flags);
    finish(vault, key, made)
}
