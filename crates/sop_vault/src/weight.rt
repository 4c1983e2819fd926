//! What the values of a geometry weigh.
ghost use Rattle.std.specs.Prelude.{◌≡◌, ◌<◌, length, min, sum_by, IfSome};
ghost use Rattle.sop_model.specs.Values.{weight_of};
ghost use Rattle.sop_model.specs.Geometry.{heads_of, rows_of, row_weight, geo_weight, IsReadable, AreValuesWithin};
ghost use Rattle.sop_model.specs.Rows.{column_of};
ghost use Rattle.sop_vault.specs.Keyed.{at, IsLive};

use crate::vault::{GeoKey, Vault};
use sop_model::{Class, GeoView, Kind};

impl<'b> Vault<'b> {
    /// What all values of all elements weigh: 1 for a number, 3 for a vector, 1 and one more for each whole eighth of its bytes for a
    /// string, 1 and its items' weights for a list. The time grows with the attributes, and with the elements of a class that has an
    /// attribute of strings or lists. It takes no memory.
    pub fn weight(&self, key: GeoKey) -> u64
        requires { IsLive self.now.geos key }
        ensures { IfSome (at self.now.geos key) (λ g. result ≡ geo_weight g) }
    {
        view_weight(&self.view(key))
    }
}

/// What all values of a geometry weigh.
fn view_weight<V: GeoView>(view: &V) -> u64
    requires readable { IsReadable (V.geo view.now) }
    requires values { AreValuesWithin (V.geo view.now) }
    ensures { result ≡ geo_weight (V.geo view.now) }
{
    let front = class_weight(view, Class::Detail).saturating_add(class_weight(view, Class::Prim));
    let back = class_weight(view, Class::Point).saturating_add(class_weight(view, Class::Vertex));
    front.saturating_add(back)
}

/// What the values of a class weigh, or `u64::MAX` where that is less.
fn class_weight<V: GeoView>(view: &V, class: Class) -> u64
    requires readable { IsReadable (V.geo view.now) }
    ensures { result ≡ min (sum_by row_weight (rows_of (V.geo view.now) class)) u64.MAX }
{
    let mut weight: u64 = 0;
    for head in 0..view.heads(class) {
        weight = weight.saturating_add(column_weight(view, class, head));
    }
    weight
}

/// What the values under an attribute weigh, or `u64::MAX` where that is less.
fn column_weight<V: GeoView>(view: &V, class: Class, head: u32) -> u64
    requires readable { IsReadable (V.geo view.now) }
    requires head { head < length (heads_of (V.geo view.now) class).heads }
    ensures { result ≡ min (sum_by weight_of (column_of (V.geo view.now) class head)) u64.MAX }
{
    match view.head_kind(class, head) {
        Kind::Int | Kind::Real => u64::from(view.count(class)),
        Kind::Vector => 3 * u64::from(view.count(class)),
        Kind::Str | Kind::Ints | Kind::Reals | Kind::Vectors | Kind::Strs => {
            values_weight(view, class, head)
        }
    }
}

/// The same, value by value.
fn values_weight<V: GeoView>(view: &V, class: Class, head: u32) -> u64
    requires readable { IsReadable (V.geo view.now) }
    requires head { head < length (heads_of (V.geo view.now) class).heads }
    ensures { result ≡ min (sum_by weight_of (column_of (V.geo view.now) class head)) u64.MAX }
{
    let mut weight: u64 = 0;
    for element in 0..view.count(class) {
        weight = weight.saturating_add(view.value(class, head, element).weight());
    }
    weight
}
