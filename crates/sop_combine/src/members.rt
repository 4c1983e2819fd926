// A group that a node makes sure of, and its members.
ghost use Rattle.std.specs.Prelude.{◌≡◌, ◌<◌, length, Some, None, Ok, IsTrue};
ghost use Rattle.sop_model.specs.declared.geo.Geo.{Geo};
ghost use Rattle.sop_model.specs.Names.{is_name};
ghost use Rattle.sop_model.specs.Geometry.{rows_of, count_of};
ghost use Rattle.sop_model.specs.Rows.{changed_at, with_rows, group_named, group_added, HasGroup, HasGroups};
ghost use Rattle.sop_vault.specs.Keyed.{at, IsLive};
ghost use Rattle.sop_basic.specs.Making.{Makes, Prepares};
ghost use Rattle.sop_combine.specs.GroupCreate.{with_group, members_combined};
ghost use Rattle.sop_combine.specs.Marked.{class_changed, flag_combined, combining};
ghost use Rattle.sop_combine.specs.Steps.{FindsGroup};

use crate::group_create::Combination;
use sop_basic::stop_of;
use sop_model::{Class, CookStop, GeoView};
use sop_vault::{GeoKey, Vault};

/// Combines the members of a group with the elements that these flags select. A new group comes behind the others.
pub fn combine_members<'b>(
    vault: &mut Vault<'b>,
    key: GeoKey,
    class: Class,
    name: &str,
    combination: Combination,
    flags: &[bool],
) -> Result<(), CookStop>
    requires live { IsLive vault.old.geos key }
    requires name { IsTrue (is_name name.now) }
    requires class { HasGroups class }
    requires each { (g : Geo) → at vault.old.geos key ≡ Some g → length flags.now ≡ count_of g class }
    ensures { (g : Geo) → at vault.old.geos key ≡ Some g → Prepares vault.old vault.new key (Ok (members_combined combination (with_group g class name.now) class name.now flags.now)) result }
{
    let group = match ensure_group(vault, key, class, name) {
        Ok(group) => group,
        Err(stop) => return Err(stop),
    };
    set_members(vault, key, class, group, combination, flags)
}

/// Makes sure that a class has a group of this name, and answers its number. `Limit` where the class has 256 others.
fn ensure_group<'b>(
    vault: &mut Vault<'b>,
    key: GeoKey,
    class: Class,
    name: &str,
) -> Result<u32, CookStop>
    requires live { IsLive vault.old.geos key }
    requires name { IsTrue (is_name name.now) }
    requires class { HasGroups class }
    ensures { (g : Geo) → at vault.old.geos key ≡ Some g → FindsGroup vault.old vault.new key class name.now (with_group g class name.now) result }
{
    match vault.view(key).find_group(class, name) {
        Some(group) => Ok(group),
        None => add_group(vault, key, class, name),
    }
}

/// A new group behind the others.
fn add_group<'b>(
    vault: &mut Vault<'b>,
    key: GeoKey,
    class: Class,
    name: &str,
) -> Result<u32, CookStop>
    requires live { IsLive vault.old.geos key }
    requires name { IsTrue (is_name name.now) }
    requires class { HasGroups class }
    requires free { (g : Geo) → at vault.old.geos key ≡ Some g → group_named g class name.now ≡ None }
    ensures { (g : Geo) → at vault.old.geos key ≡ Some g → FindsGroup vault.old vault.new key class name.now (group_added g class name.now) result }
{
    match vault.add_group(key, class, name) {
        Ok(group) => Ok(group),
        Err(end) => Err(stop_of(end)),
    }
}

/// Combines the members of the group of this number with the elements that these flags select.
fn set_members<'b>(
    vault: &mut Vault<'b>,
    key: GeoKey,
    class: Class,
    group: u32,
    combination: Combination,
    flags: &[bool],
) -> Result<(), CookStop>
    requires live { IsLive vault.old.geos key }
    requires group { (g : Geo) → at vault.old.geos key ≡ Some g → HasGroup g class group }
    requires each { (g : Geo) → at vault.old.geos key ≡ Some g → length flags.now ≡ count_of g class }
    ensures { (g : Geo) → at vault.old.geos key ≡ Some g → Makes vault.old vault.new key (Ok (class_changed (combining combination group flags.now) g class)) result }
{
    let elements = vault.view(key).count(class);
    for element in 0..elements {
        let selected = flags[element as usize];
        set_one(vault, key, class, group, element, combination, selected)?;
    }
    Ok(())
}

/// The same of one element.
fn set_one<'b>(
    vault: &mut Vault<'b>,
    key: GeoKey,
    class: Class,
    group: u32,
    element: u32,
    combination: Combination,
    selected: bool,
) -> Result<(), CookStop>
    requires live { IsLive vault.old.geos key }
    requires group { (g : Geo) → at vault.old.geos key ≡ Some g → HasGroup g class group }
    requires there { (g : Geo) → at vault.old.geos key ≡ Some g → element < count_of g class }
    ensures { (g : Geo) → at vault.old.geos key ≡ Some g → Makes vault.old vault.new key (Ok (with_rows g class (changed_at (flag_combined combination group selected) (rows_of g class) element))) result }
{
    let old = vault.view(key).member(class, group, element);
    let on = combination.combined(old, selected);
    if let Err(end) = vault.set_member(key, class, group, element, on) {
        return Err(stop_of(end));
    }
    Ok(())
}
