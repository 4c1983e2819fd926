// `merge`: geometries one behind the other.
ghost use Rattle.std.specs.Prelude.{◌≡◌, All, Some, Ok, IfSome};
ghost use Rattle.std.specs.Option.{option_and_then};
ghost use Rattle.sop_model.specs.declared.geo.Geo.{Geo};
ghost use Rattle.sop_model.specs.Geometry.{empty_geo};
ghost use Rattle.sop_model.specs.Merge.{merged};
ghost use Rattle.sop_model.specs.Appending.{appended};
ghost use Rattle.sop_vault.specs.Keyed.{at, IsLive};
ghost use Rattle.sop_basic.specs.Outcomes.{limited};
ghost use Rattle.sop_basic.specs.Making.{Prepares, Gives};
ghost use Rattle.sop_basic.specs.Additions.{Extends};
ghost use Rattle.sop_basic.specs.Cook.{inputs_seen, AreLive};
ghost use Rattle.sop_combine.specs.Combine.{wired};
ghost use Rattle.sop_combine.specs.Steps.{behind, IsInput};

use sop_basic::{finish, stop_of};
use sop_model::CookStop;
use sop_vault::{GeoKey, Vault};

/// Cooks a `merge` node: a new key. `Limit` where all inputs together pass a limit.
pub fn cook_merge<'b>(vault: &mut Vault<'b>, inputs: &[Option<GeoKey>]) -> Result<GeoKey, CookStop>
    requires { AreLive vault.old inputs.now }
    ensures { Gives vault.old vault.new (limited (Ok (merged (wired (inputs_seen vault.old inputs.now))))) result }
{
    vault.is_vault();
    let key = vault.empty()?;
    let made = append_all(vault, key, inputs);
    finish(vault, key, made)
}

/// Puts the inputs that have a geometry behind the empty one, in order.
fn append_all<'b>(
    vault: &mut Vault<'b>,
    key: GeoKey,
    inputs: &[Option<GeoKey>],
) -> Result<(), CookStop>
    requires fresh { at vault.old.geos key ≡ Some empty_geo }
    requires inputs { All (IsInput vault.old key) inputs.now }
    ensures { Prepares vault.old vault.new key (Ok (merged (wired (inputs_seen vault.old inputs.now)))) result }
{
    for input in inputs {
        append_input(vault, key, *input)?;
    }
    Ok(())
}

/// Puts an input behind a geometry, where it has one.
fn append_input<'b>(
    vault: &mut Vault<'b>,
    key: GeoKey,
    input: Option<GeoKey>,
) -> Result<(), CookStop>
    requires live { IsLive vault.old.geos key }
    requires input { IfSome input (IsLive vault.old.geos) }
    ensures { (a : Geo) → at vault.old.geos key ≡ Some a → Extends vault.old vault.new key (behind a (option_and_then (at vault.old.geos) input)) result }
{
    match input {
        Some(from) => append(vault, key, from),
        None => Ok(()),
    }
}

/// Puts a geometry behind another.
fn append<'b>(vault: &mut Vault<'b>, key: GeoKey, from: GeoKey) -> Result<(), CookStop>
    requires live { IsLive vault.old.geos key }
    requires from { IsLive vault.old.geos from }
    ensures { (a b : Geo) → at vault.old.geos key ≡ Some a → at vault.old.geos from ≡ Some b → Extends vault.old vault.new key (appended a b) result }
{
    if let Err(end) = vault.append(key, from) {
        return Err(stop_of(end));
    }
    Ok(())
}
