// `xform`: points scaled and moved.
ghost use Rattle.std.specs.Prelude.{◌≡◌, Some};
ghost use Rattle.sop_model.specs.declared.geo.Geo.{Geo};
ghost use Rattle.sop_net.specs.declared.node_type.NodeType.TheVariants as type;
ghost use Rattle.sop_net.specs.NodeTable.{parms_of};
ghost use Rattle.sop_net.specs.Network.{AreValues};
ghost use Rattle.sop_vault.specs.Keyed.{at, IsLive};
ghost use Rattle.sop_basic.specs.Making.{Gives};
ghost use Rattle.sop_basic.specs.Outcomes.{limited};
ghost use Rattle.sop_basic.specs.Xform.{scaled, moved, xform_geo};
ghost use Rattle.sop_basic.specs.Rules.{moving, tells_of_move};

use crate::making::finish;
use crate::movement::{Movement, move_points};
use crate::parm_texts::vector_in;
use crate::selecting::selected;
use sop_fixed::{NumFault, Real, Vec3};
use sop_model::{Class, CookStop};
use sop_net::Parms;
use sop_vault::{GeoKey, Vault};
use std::alloc::Global;

/// What becomes of the places of the selected points: they are scaled, then moved.
#[derive(Clone, Copy)]
pub struct Move<'a> {
    pub by: Vec3,
    pub scale: Vec3,
    /// A flag for each point.
    pub selected: &'a [bool],
}

impl<'a> Movement for Move<'a> {
    ghost rule = { moving };

    ghost tells = { tells_of_move };

    fn target(&self, point: u32, place: &Vec3) -> Result<Vec3, NumFault> {
        if self.selected[point as usize] {
            moved(*place, self.scale, self.by)
        } else {
            Ok(*place)
        }
    }
}

fn moved(place: Vec3, scale: Vec3, by: Vec3) -> Result<Vec3, NumFault>
    ensures { result ≡ moved by scale place }
{
    Ok(Vec3 {
        x: scaled(place.x, scale.x, by.x)?,
        y: scaled(place.y, scale.y, by.y)?,
        z: scaled(place.z, scale.z, by.z)?,
    })
}

fn scaled(place: Real, scale: Real, by: Real) -> Result<Real, NumFault>
    ensures { result ≡ scaled place scale by }
{
    let way = match place.mul(scale) {
        Ok(way) => way,
        Err(fault) => return Err(fault),
    };
    way.add(by)
}

/// Cooks an `xform` node: a new key. `BadGroup` and `NoGroup` as a pattern gives them; `Range` names the first selected point that goes
/// out of range. A page all of whose points stay where they are isn't copied.
pub fn cook_xform<'b>(
    alloc: Global,
    vault: &mut Vault<'b>,
    parms: &Parms,
    input: GeoKey,
) -> Result<GeoKey, CookStop>
    requires live { IsLive vault.old.geos input }
    requires values { AreValues (parms_of type.Xform) parms.now }
    ensures { (g : Geo) → at vault.old.geos input ≡ Some g → Gives vault.old vault.new (limited (xform_geo parms.now g)) result }
{
    let flags = match selected(alloc, vault, input, Class::Point, parms.text(2)) {
        Ok(flags) => flags,
        Err(stop) => return Err(stop),
    };
    let movement = Move {
        by: vector_in(parms.text(0)),
        scale: vector_in(parms.text(1)),
        selected: &flags,
    };
    let key = vault.share(input)?;
    let made = move_points(vault, key, &movement);
    finish(vault, key, made)
}
