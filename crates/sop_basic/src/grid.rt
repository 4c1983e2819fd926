// `grid`: rows and columns of points, and closed primitives between them.
ghost use Rattle.std.specs.Prelude.{◌≡◌, ◌<◌, ◌≤◌, ◌*◌, ◌-◌, [], Some, Ok};
ghost use Rattle.sop_model.specs.Geometry.{empty_geo};
ghost use Rattle.sop_net.specs.declared.node_type.NodeType.TheVariants as type;
ghost use Rattle.sop_net.specs.NodeTable.{parms_of};
ghost use Rattle.sop_net.specs.Network.{AreValues};
ghost use Rattle.sop_vault.specs.Keyed.{at};
ghost use Rattle.sop_basic.specs.Making.{Makes, Gives};
ghost use Rattle.sop_basic.specs.Outcomes.{limited};
ghost use Rattle.sop_basic.specs.Grid.{across, grid_of, grid_geo};
ghost use Rattle.sop_basic.specs.Rules.{grid_in, grid_rule, TellsOfGrid, quad_corners, TellsOfQuad};

use crate::making::finish;
use crate::movement::{Movement, make_points};
use crate::parm_texts::{count_in, number_in, zero};
use crate::parts::{negative, part_of};
use crate::quads::{Quads, add_quads};
use sop_fixed::{NumFault, Real, Vec3};
use sop_model::CookStop;
use sop_net::Parms;
use sop_vault::{GeoKey, Vault};

/// A grid as its parameters tell of it.
#[derive(Clone, Copy)]
pub struct Grid {
    pub rows: u32,
    pub cols: u32,
    pub sizex: Real,
    pub sizez: Real,
}

impl Grid {
    fn of(parms: &Parms) -> Grid
        requires { AreValues (parms_of type.Grid) parms.now }
        ensures value { result ≡ grid_in parms.now }
        ensures some_rows { 0 < result.rows }
        ensures rows { result.rows ≤ 1000 }
        ensures some_cols { 0 < result.cols }
        ensures cols { result.cols ≤ 1000 }
    {
        Grid {
            rows: count_in(parms.text(0)),
            cols: count_in(parms.text(1)),
            sizex: number_in(parms.text(2).as_bytes()),
            sizez: number_in(parms.text(3).as_bytes()),
        }
    }
}

impl Movement for Grid {
    ghost rule = { grid_rule };

    ghost tells = { TellsOfGrid };

    fn target(&self, point: u32, _place: &Vec3) -> Result<Vec3, NumFault> {
        Ok(Vec3 {
            x: across(self.sizex, self.cols, point % self.cols),
            y: zero(),
            z: across(self.sizez, self.rows, point / self.cols),
        })
    }
}

impl Quads for Grid {
    ghost corners = { quad_corners };

    ghost tells = { TellsOfQuad };

    fn quad(&self, i: u32) -> [u32; 4] {
        let first = i / (self.cols - 1) * self.cols + i % (self.cols - 1);
        let below = (i / (self.cols - 1) + 1) * self.cols + i % (self.cols - 1);
        [first, first + 1, below + 1, below]
    }
}

/// Where the i-th of so many stands along a size, with the middle at zero.
fn across(size: Real, count: u32, i: u32) -> Real
    requires within { i < count }
    requires few { count ≤ 1000 }
    ensures { result ≡ across size count i }
{
    if count <= 1 {
        return zero();
    }
    let steps = count - 1;
    if 2 * i >= steps {
        part_of(size, 2 * i - steps, 2 * steps)
    } else {
        negative(part_of(size, steps - 2 * i, 2 * steps))
    }
}

/// Cooks a `grid` node: a new key.
pub fn cook_grid<'b>(vault: &mut Vault<'b>, parms: &Parms) -> Result<GeoKey, CookStop>
    requires { AreValues (parms_of type.Grid) parms.now }
    ensures { Gives vault.old vault.new (limited (grid_geo parms.now)) result }
{
    let grid = Grid::of(parms);
    let key = vault.empty()?;
    let made = make_grid(vault, key, &grid);
    finish(vault, key, made)
}

fn make_grid<'b>(vault: &mut Vault<'b>, key: GeoKey, grid: &Grid) -> Result<(), CookStop>
    requires fresh { at vault.old.geos key ≡ Some empty_geo }
    requires some_rows { 0 < grid.now.rows }
    requires rows { grid.now.rows ≤ 1000 }
    requires some_cols { 0 < grid.now.cols }
    requires cols { grid.now.cols ≤ 1000 }
    ensures { Makes vault.old vault.new key (Ok (grid_of grid.now.rows grid.now.cols grid.now.sizex grid.now.sizez)) result }
{
    make_points(vault, key, grid.rows * grid.cols, grid)?;
    add_quads(vault, key, (grid.rows - 1) * (grid.cols - 1), grid)
}
