// Steps that make the geometry of a new key, and what becomes of the key where a step stops.
ghost use Rattle.std.specs.Prelude.{◌≡◌, OnOk, Some, Ok};
ghost use Rattle.sop_model.specs.declared.geo.Geo.{Geo};
ghost use Rattle.sop_model.specs.Geometry.{IsWithin};
ghost use Rattle.sop_model.specs.Rows.{points_added, prim_added, ArePoints};
ghost use Rattle.sop_vault.specs.Keyed.{at, IsLive};
ghost use Rattle.sop_vault.specs.Vaults.{VaultMap, Added};
ghost use Rattle.sop_basic.specs.Outcomes.{Outcome, limited, within_limits};
ghost use Rattle.sop_basic.specs.Making.{Makes, Prepares, Gives, Judges, stop_of};

use sop_model::limits::MOST_WEIGHT;
use sop_model::{CookStop, Fault};
use sop_vault::{GeoKey, Vault, VaultEnd};

/// The key, where its geometry was made and passes no limit. Where a step stopped, or a limit is passed, the key goes.
pub fn finish<'b>(
    vault: &mut Vault<'b>,
    key: GeoKey,
    made: Result<(), CookStop>,
) -> Result<GeoKey, CookStop>
    requires { IsLive vault.old.geos key }
    ensures gives { (first opened : VaultMap) (g : Geo) (outcome : Outcome) → Added first opened key (Some g) → Prepares opened vault.old key outcome made → Gives first vault.new (limited outcome) result }
    ensures still { OnOk result (vault.new ≡ vault.old) }
{
    match judged(vault, key, made) {
        Ok(()) => Ok(key),
        Err(stop) => {
            vault.drop_geo(key);
            Err(stop)
        }
    }
}

/// What was made, or that it passes a limit.
fn judged<'b>(vault: &Vault<'b>, key: GeoKey, made: Result<(), CookStop>) -> Result<(), CookStop>
    requires { IsLive vault.now.geos key }
    ensures { (opened : VaultMap) (outcome : Outcome) → Prepares opened vault.now key outcome made → Makes opened vault.now key (limited outcome) result }
{
    match made {
        Ok(()) => judge(vault, key),
        Err(stop) => Err(stop),
    }
}

/// Whether the geometry at a key passes no limit: a vault asks all but the weight.
fn judge<'b>(vault: &Vault<'b>, key: GeoKey) -> Result<(), CookStop>
    requires { IsLive vault.now.geos key }
    ensures { (g : Geo) → at vault.now.geos key ≡ Some g → Judges g result }
{
    vault.is_vault();
    if vault.weight(key) > MOST_WEIGHT {
        return Err(CookStop::Fault(Fault::Limit));
    }
    Ok(())
}

/// A new key of the same geometry, which passes no limit. No page is copied.
pub fn hand_on<'b>(vault: &mut Vault<'b>, input: GeoKey) -> Result<GeoKey, CookStop>
    requires { IsLive vault.old.geos input }
    ensures gives { (g : Geo) → at vault.old.geos input ≡ Some g → Gives vault.old vault.new (within_limits g) result }
    ensures pages { OnOk result (vault.new.pages ≡ vault.old.pages) }
{
    let key = vault.share(input)?;
    finish(vault, key, Ok(()))
}

/// What the end of a call of a vault is at a node.
pub fn stop_of(end: VaultEnd) -> CookStop
    ensures { result ≡ stop_of end }
{
    match end {
        VaultEnd::Limit => CookStop::Fault(Fault::Limit),
        _ => CookStop::Memory,
    }
}

/// Adds points, for which there is room.
pub fn add_points<'b>(vault: &mut Vault<'b>, key: GeoKey, more: u32) -> Result<(), CookStop>
    requires live { IsLive vault.old.geos key }
    requires room { (g : Geo) → at vault.old.geos key ≡ Some g → IsWithin (points_added g more) }
    ensures { (g : Geo) → at vault.old.geos key ≡ Some g → Makes vault.old vault.new key (Ok (points_added g more)) result }
{
    if let Err(end) = vault.add_points(key, more) {
        return Err(stop_of(end));
    }
    Ok(())
}

/// Adds a primitive through points that are there, for which there is room.
pub fn add_prim<'b>(
    vault: &mut Vault<'b>,
    key: GeoKey,
    closed: bool,
    points: &[u32],
) -> Result<(), CookStop>
    requires live { IsLive vault.old.geos key }
    requires points { (g : Geo) → at vault.old.geos key ≡ Some g → ArePoints g points.now }
    requires room { (g : Geo) → at vault.old.geos key ≡ Some g → IsWithin (prim_added g closed points.now) }
    ensures { (g : Geo) → at vault.old.geos key ≡ Some g → Makes vault.old vault.new key (Ok (prim_added g closed points.now)) result }
{
    if let Err(end) = vault.add_prim(key, closed, points) {
        return Err(stop_of(end));
    }
    Ok(())
}
