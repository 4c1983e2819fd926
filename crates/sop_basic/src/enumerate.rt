// `enumerate`: elements counted under an attribute.
ghost use Rattle.std.specs.Prelude.{◌≡◌, length, Some, Ok, IsTrue};
ghost use Rattle.sop_model.specs.declared.geo.Geo.{Geo};
ghost use Rattle.sop_model.specs.Names.{is_name};
ghost use Rattle.sop_model.specs.Geometry.{count_of};
ghost use Rattle.sop_net.specs.declared.node_type.NodeType.TheVariants as type;
ghost use Rattle.sop_net.specs.NodeTable.{parms_of};
ghost use Rattle.sop_net.specs.Network.{AreValues};
ghost use Rattle.sop_vault.specs.Keyed.{at, IsLive};
ghost use Rattle.sop_vault.specs.Refusals.{IsNoPosition};
ghost use Rattle.sop_basic.specs.Heads.{is_position};
ghost use Rattle.sop_basic.specs.Making.{Prepares, Gives};
ghost use Rattle.sop_basic.specs.Outcomes.{limited};
ghost use Rattle.sop_basic.specs.Enumerate.{counted_under, may_count, enumerate_geo};

use crate::filling::{Filling, fill};
use crate::heads::{ensure_head, is_position};
use crate::making::finish;
use crate::parm_texts::class_in;
use crate::selecting::selected;
use sop_model::{Class, CookStop, Fault, Kind, is_name};
use sop_net::Parms;
use sop_vault::{GeoKey, Vault};
use std::alloc::Global;

/// Cooks an `enumerate` node: a new key. `BadParm` for a bad name and the points' `P`, then `BadGroup` and `NoGroup` as a pattern gives
/// them, then `Limit` for a 65th attribute or the weight.
pub fn cook_enumerate<'b>(
    alloc: Global,
    vault: &mut Vault<'b>,
    parms: &Parms,
    input: GeoKey,
) -> Result<GeoKey, CookStop>
    requires live { IsLive vault.old.geos input }
    requires values { AreValues (parms_of type.Enumerate) parms.now }
    ensures { (g : Geo) → at vault.old.geos input ≡ Some g → Gives vault.old vault.new (limited (enumerate_geo parms.now g)) result }
{
    let class = class_in(parms.text(0));
    let name = parms.text(1);
    if !may_count(class, name) {
        return Err(CookStop::Fault(Fault::BadParm));
    }
    let flags = match selected(alloc, vault, input, class, parms.text(2)) {
        Ok(flags) => flags,
        Err(stop) => return Err(stop),
    };
    let key = vault.share(input)?;
    let made = count_elements(vault, key, class, name, &flags);
    finish(vault, key, made)
}

/// Counts the selected elements of a class under a name.
fn count_elements<'b>(
    vault: &mut Vault<'b>,
    key: GeoKey,
    class: Class,
    name: &str,
    selected: &[bool],
) -> Result<(), CookStop>
    requires live { IsLive vault.old.geos key }
    requires name { IsTrue (is_name name.now) }
    requires apart { IsNoPosition class name.now }
    requires each { (g : Geo) → at vault.old.geos key ≡ Some g → length selected.now ≡ count_of g class }
    ensures { (g : Geo) → at vault.old.geos key ≡ Some g → Prepares vault.old vault.new key (Ok (counted_under class name.now g selected.now)) result }
{
    let head = ensure_head(vault, key, class, name, Kind::Int)?;
    fill(vault, key, class, head, &Filling::Counted, selected)
}

fn may_count(class: Class, name: &str) -> bool
    ensures { result ≡ may_count class name.now }
{
    is_name(name.as_bytes()) && !is_position(class, name)
}
