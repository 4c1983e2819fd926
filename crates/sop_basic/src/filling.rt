// The values of an attribute, set at the selected elements one after the other.
ghost use Rattle.std.specs.Prelude.{◌≡◌, ◌<◌, ◌≤◌, ◌^◌, ℕ, length, Some, Ok, pos, IsTrue};
ghost use Rattle.sop_model.specs.declared.geo.Geo.{Geo};
ghost use Rattle.sop_model.specs.declared.value.Kind.TheVariants as kinds;
ghost use Rattle.sop_model.specs.Geometry.{count_of};
ghost use Rattle.sop_model.specs.Rows.{value_set, kind_at};
ghost use Rattle.sop_model.specs.Values.{kind_of, is_value_within};
ghost use Rattle.sop_vault.specs.Keyed.{at, IsLive};
ghost use Rattle.sop_basic.specs.Making.{Makes};
ghost use Rattle.sop_basic.specs.Fillings.{filled_with, filled};

use crate::making::stop_of;
use sop_fixed::Int;
use sop_model::{Class, CookStop, GeoView, Value};
use sop_vault::{GeoKey, Vault};

/// The values that elements get.
#[derive(Clone, Copy)]
pub enum Filling<'a> {
    /// All the same.
    Same(&'a Value),
    /// Each its number among the selected, from 0.
    Counted,
}

/// Sets the value of each selected element under an attribute.
pub fn fill<'b>(
    vault: &mut Vault<'b>,
    key: GeoKey,
    class: Class,
    head: u32,
    filling: &Filling<'_>,
    selected: &[bool],
) -> Result<(), CookStop>
    requires live { IsLive vault.old.geos key }
    requires each { (g : Geo) → at vault.old.geos key ≡ Some g → length selected.now ≡ count_of g class }
    requires kinds { (g : Geo) → at vault.old.geos key ≡ Some g → (i : ℕ) → kind_at g class head ≡ Some (kind_of (filled_with filling.now i)) }
    requires within { (i : ℕ) → IsTrue (is_value_within (filled_with filling.now i)) }
    ensures { (g : Geo) → at vault.old.geos key ≡ Some g → Makes vault.old vault.new key (Ok (filled (filled_with filling.now) class head selected.now g)) result }
{
    let elements = vault.view(key).count(class);
    let mut before = 0;
    for element in 0..elements {
        if selected[element as usize] {
            fill_one(vault, key, class, head, element, filling, before)?;
            before += 1;
        }
    }
    Ok(())
}

/// Sets the value of a selected element, of which there are so many before it.
fn fill_one<'b>(
    vault: &mut Vault<'b>,
    key: GeoKey,
    class: Class,
    head: u32,
    element: u32,
    filling: &Filling<'_>,
    before: u32,
) -> Result<(), CookStop>
    requires live { IsLive vault.old.geos key }
    requires there { (g : Geo) → at vault.old.geos key ≡ Some g → element < count_of g class }
    requires few { before ≤ 4000000 }
    requires kinds { (g : Geo) → at vault.old.geos key ≡ Some g → kind_at g class head ≡ Some (kind_of (filled_with filling.now before)) }
    requires within { IsTrue (is_value_within (filled_with filling.now before)) }
    ensures { (g : Geo) → at vault.old.geos key ≡ Some g → Makes vault.old vault.new key (Ok (value_set g class head element (filled_with filling.now before))) result }
{
    match filling {
        Filling::Same(value) => set_value(vault, key, class, head, element, value),
        Filling::Counted => {
            let value = Value::Int(int_of(before));
            set_value(vault, key, class, head, element, &value)
        }
    }
}

/// Sets the value of one element under an attribute.
pub fn set_value<'b>(
    vault: &mut Vault<'b>,
    key: GeoKey,
    class: Class,
    head: u32,
    element: u32,
    value: &Value,
) -> Result<(), CookStop>
    requires live { IsLive vault.old.geos key }
    requires there { (g : Geo) → at vault.old.geos key ≡ Some g → element < count_of g class }
    requires kind { (g : Geo) → at vault.old.geos key ≡ Some g → kind_at g class head ≡ Some (kind_of value.now) }
    requires within { IsTrue (is_value_within value.now) }
    ensures { (g : Geo) → at vault.old.geos key ≡ Some g → Makes vault.old vault.new key (Ok (value_set g class head element value.now)) result }
{
    if let Err(end) = vault.set(key, class, head, element, value) {
        return Err(stop_of(end));
    }
    Ok(())
}

fn int_of(number: u32) -> Int
    requires { number ≤ 4000000 }
    ensures { result ≡ pos number }
{
    match Int::of(i64::from(number)) {
        Ok(n) => n,
        Err(_) => unreachable!(),
    }
}
