// `line`: points along a direction, and one open primitive through them.
ghost use Rattle.std.specs.Prelude.{◌≡◌, ◌<◌, ◌≤◌, [], Some, Ok, length, List};
ghost use Rattle.sop_fixed.specs.declared.vec3.Vec3 as vector;
ghost use Rattle.sop_model.specs.Limits.{most_points};
ghost use Rattle.sop_model.specs.Geometry.{empty_geo};
ghost use Rattle.sop_net.specs.declared.node_type.NodeType.TheVariants as type;
ghost use Rattle.sop_net.specs.NodeTable.{parms_of};
ghost use Rattle.sop_net.specs.Network.{AreValues};
ghost use Rattle.sop_vault.specs.Keyed.{at};
ghost use Rattle.sop_basic.specs.Making.{Makes, Gives, HasPoints};
ghost use Rattle.sop_basic.specs.Outcomes.{limited};
ghost use Rattle.sop_basic.specs.Shapes.{shape};
ghost use Rattle.sop_basic.specs.Line.{way_to, along, line_through, line_geo};
ghost use Rattle.sop_basic.specs.Rules.{line_in, line_rule, tells_of_line, line_made};

use crate::making::{add_prim, finish};
use crate::movement::{Movement, make_points};
use crate::numbers::numbers_between;
use crate::parm_texts::{count_in, number_in, vector_in, zero};
use crate::parts::part_of;
use sop_fixed::{NumFault, Real, Vec3};
use sop_model::CookStop;
use sop_net::Parms;
use sop_vault::{GeoKey, Vault};
use std::alloc::Global;

/// A line as its parameters tell of it.
#[derive(Clone, Copy)]
pub struct Line {
    pub origin: Vec3,
    pub dir: Vec3,
    pub dist: Real,
    pub points: u32,
}

impl Line {
    fn of(parms: &Parms) -> Line
        requires { AreValues (parms_of type.Line) parms.now }
        ensures value { result ≡ line_in parms.now }
        ensures few { result.points ≤ most_points }
    {
        Line {
            origin: vector_in(parms.text(0)),
            dir: vector_in(parms.text(1)),
            dist: number_in(parms.text(2).as_bytes()),
            points: count_in(parms.text(3)),
        }
    }
}

impl Movement for Line {
    ghost rule = { line_rule };

    ghost tells = { tells_of_line };

    fn target(&self, point: u32, _place: &Vec3) -> Result<Vec3, NumFault> {
        let t = way_to(self.dist, self.points, point);
        Ok(Vec3 {
            x: along(self.origin.x, self.dir.x, t)?,
            y: along(self.origin.y, self.dir.y, t)?,
            z: along(self.origin.z, self.dir.z, t)?,
        })
    }
}

/// How far along a point of so many stands.
fn way_to(dist: Real, points: u32, point: u32) -> Real
    requires { point < points }
    ensures { result ≡ way_to dist points point }
{
    if points <= 1 {
        return zero();
    }
    part_of(dist, point, points - 1)
}

fn along(origin: Real, dir: Real, t: Real) -> Result<Real, NumFault>
    ensures { result ≡ along origin dir t }
{
    let way = match dir.mul(t) {
        Ok(way) => way,
        Err(fault) => return Err(fault),
    };
    origin.add(way)
}

/// Cooks a `line` node: a new key. `Range` names the first point that is out of range.
pub fn cook_line<'b>(
    alloc: Global,
    vault: &mut Vault<'b>,
    parms: &Parms,
) -> Result<GeoKey, CookStop>
    requires { AreValues (parms_of type.Line) parms.now }
    ensures { Gives vault.old vault.new (limited (line_geo parms.now)) result }
{
    let line = Line::of(parms);
    let key = vault.empty()?;
    let made = make_line(alloc, vault, key, &line);
    finish(vault, key, made)
}

fn make_line<'b>(
    alloc: Global,
    vault: &mut Vault<'b>,
    key: GeoKey,
    line: &Line,
) -> Result<(), CookStop>
    requires fresh { at vault.old.geos key ≡ Some empty_geo }
    requires few { line.now.points ≤ most_points }
    ensures { Makes vault.old vault.new key (line_made line.now) result }
{
    make_points(vault, key, line.points, line)?;
    add_through(alloc, vault, key, line.points)
}

/// Adds one open primitive through all points, of which there are so many.
fn add_through<'b>(
    alloc: Global,
    vault: &mut Vault<'b>,
    key: GeoKey,
    count: u32,
) -> Result<(), CookStop>
    requires points { HasPoints vault.old key }
    requires many { (places : List vector.Vec3) → at vault.old.geos key ≡ Some (shape places []) → length places ≡ count }
    ensures { (places : List vector.Vec3) → at vault.old.geos key ≡ Some (shape places []) → Makes vault.old vault.new key (Ok (line_through places)) result }
{
    let numbers = numbers_between(alloc, 0, count)?;
    add_prim(vault, key, false, numbers.as_slice())
}
