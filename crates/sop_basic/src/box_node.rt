// `box`: eight points around a center, and six closed primitives.
ghost use Rattle.std.specs.Prelude.{◌≡◌, ◌<◌, ◌≤◌, [], Some};
ghost use Rattle.sop_model.specs.Geometry.{empty_geo};
ghost use Rattle.sop_net.specs.declared.node_type.NodeType.TheVariants as type;
ghost use Rattle.sop_net.specs.NodeTable.{parms_of};
ghost use Rattle.sop_net.specs.Network.{AreValues};
ghost use Rattle.sop_vault.specs.Keyed.{at};
ghost use Rattle.sop_basic.specs.Making.{Makes, Gives};
ghost use Rattle.sop_basic.specs.Outcomes.{limited};
ghost use Rattle.sop_basic.specs.Box.{side, box_geo};
ghost use Rattle.sop_basic.specs.Rules.{box_in, box_rule, side_corners, tells_all, box_made};

use crate::making::finish;
use crate::movement::{Movement, make_points};
use crate::parm_texts::vector_in;
use crate::parts::part_of;
use crate::quads::{Quads, add_quads};
use sop_fixed::{NumFault, Real, Vec3};
use sop_model::CookStop;
use sop_net::Parms;
use sop_vault::{GeoKey, Vault};

/// A box as its parameters tell of it.
#[derive(Clone, Copy)]
pub struct BoxShape {
    pub size: Vec3,
    pub center: Vec3,
}

impl BoxShape {
    fn of(parms: &Parms) -> BoxShape
        requires { AreValues (parms_of type.Box) parms.now }
        ensures { result ≡ box_in parms.now }
    {
        BoxShape {
            size: vector_in(parms.text(0)),
            center: vector_in(parms.text(1)),
        }
    }
}

impl Movement for BoxShape {
    ghost rule = { box_rule };

    ghost tells = { tells_all };

    fn target(&self, point: u32, _place: &Vec3) -> Result<Vec3, NumFault> {
        Ok(Vec3 {
            x: side(point % 2, self.size.x, self.center.x)?,
            y: side(point / 2 % 2, self.size.y, self.center.y)?,
            z: side(point / 4 % 2, self.size.z, self.center.z)?,
        })
    }
}

/// One side of the center or the other, along one axis.
fn side(bit: u32, size: Real, center: Real) -> Result<Real, NumFault>
    ensures { result ≡ side bit size center }
{
    let half = part_of(size, 1, 2);
    if bit == 0 {
        center.sub(half)
    } else {
        center.add(half)
    }
}

/// The sides of a box.
struct Sides {}

impl Quads for Sides {
    ghost corners = { λ s. side_corners };

    ghost tells = { tells_all };

    fn quad(&self, i: u32) -> [u32; 4] {
        match i {
            0 => [0, 2, 3, 1],
            1 => [4, 5, 7, 6],
            2 => [0, 1, 5, 4],
            3 => [2, 6, 7, 3],
            4 => [0, 4, 6, 2],
            _ => [1, 3, 7, 5],
        }
    }
}

/// Cooks a `box` node: a new key. `Range` names the first point that is out of range.
pub fn cook_box<'b>(vault: &mut Vault<'b>, parms: &Parms) -> Result<GeoKey, CookStop>
    requires { AreValues (parms_of type.Box) parms.now }
    ensures { Gives vault.old vault.new (limited (box_geo parms.now)) result }
{
    let shape = BoxShape::of(parms);
    let key = vault.empty()?;
    let made = make_box(vault, key, &shape);
    finish(vault, key, made)
}

fn make_box<'b>(vault: &mut Vault<'b>, key: GeoKey, shape: &BoxShape) -> Result<(), CookStop>
    requires { at vault.old.geos key ≡ Some empty_geo }
    ensures { Makes vault.old vault.new key (box_made shape.now) result }
{
    make_points(vault, key, 8, shape)?;
    add_quads(vault, key, 6, &Sides {})
}
