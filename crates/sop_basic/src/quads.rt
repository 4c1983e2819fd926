// Closed primitives of four points, one after the other.
ghost use Rattle.std.specs.Prelude.{◌≡◌, ◌<◌, ◌≤◌, ℕ, [], List, All, Some, Ok, length};
ghost use Rattle.sop_fixed.specs.declared.vec3.Vec3 as vector;
ghost use Rattle.sop_model.specs.Limits.{most_prims};
ghost use Rattle.sop_vault.specs.Keyed.{at};
ghost use Rattle.sop_basic.specs.Making.{Makes, HasPoints};
ghost use Rattle.sop_basic.specs.Shapes.{shape, closed_prims};

use crate::making::add_prim;
use sop_model::CookStop;
use sop_vault::{GeoKey, Vault};

/// Which points closed primitives of four points go through, by number.
pub trait Quads {
    ghost corners: { Self → ℕ → List ℕ };

    /// Whether it is told which points the primitive of a number goes through.
    ghost tells: { Self → ℕ → Type 0 };

    /// The points of the primitive of a number. It takes no memory.
    fn quad(&self, i: u32) -> [u32; 4]
        requires { tells self.now i }
        ensures { result ≡ corners self.now i };
}

/// Adds so many primitives, at most 1,000,000, to points alone.
pub fn add_quads<'b, Q: Quads>(
    vault: &mut Vault<'b>,
    key: GeoKey,
    count: u32,
    quads: &Q,
) -> Result<(), CookStop>
    requires points { HasPoints vault.old key }
    requires few { count ≤ most_prims }
    requires told { (i : ℕ) → i < count → Q.tells quads.now i }
    requires four { (i : ℕ) → length (Q.corners quads.now i) ≡ 4 }
    requires within { (places : List vector.Vec3) → at vault.old.geos key ≡ Some (shape places []) → (i : ℕ) → i < count → All (λ p. p < length places) (Q.corners quads.now i) }
    ensures { (places : List vector.Vec3) → at vault.old.geos key ≡ Some (shape places []) → Makes vault.old vault.new key (Ok (shape places (closed_prims (Q.corners quads.now) count))) result }
{
    for i in 0..count {
        add_prim(vault, key, true, &quads.quad(i))?;
    }
    Ok(())
}
