// Geometries without points and primitives: their attributes and groups.
ghost use Rattle.std.specs.Prelude.{◌≡◌, ◌++◌, IfOk, OnOk, position};
ghost use Rattle.std.specs.Str.{bytes_eq};
ghost use Rattle.geo_text.specs.ObjTaking.{begun, head_if};

use crate::taker::Attributes;
use sop_model::{Geo, Head, HeadSet, Kind, PrimList, RowList};
use sop_outside::{Text, TextList};
use std::alloc::{AllocError, Global};

/// The geometry of these attributes that has no element and no group.
pub(crate) fn begun(alloc: Global, has: Attributes) -> Result<Geo, AllocError>
    ensures { IfOk result (λ geo. geo ≡ begun has) }
{
    let mut geo = Geo::plain(alloc, RowList::new(alloc), PrimList::new(alloc))?;
    add_head(alloc, &mut geo.point, has.colour, "Cd")?;
    add_head(alloc, &mut geo.vertex, has.texture, "uv")?;
    add_head(alloc, &mut geo.vertex, has.normal, "N")?;
    Ok(geo)
}

/// Puts a vector of this name behind the attributes, where it is wanted.
fn add_head(alloc: Global, set: &mut HeadSet, is_wanted: bool, name: &str) -> Result<(), AllocError>
    ensures heads { OnOk result (set.new.heads ≡ set.old.heads ++ head_if is_wanted name.now) }
    ensures groups { OnOk result (set.new.groups ≡ set.old.groups) }
{
    if !is_wanted {
        return Ok(());
    }
    set.heads.add(Head {
        name: Text::from_str(alloc, name)?,
        kind: Kind::Vector,
    })
}

/// The number of the group of this name.
pub(crate) fn group_named(groups: &TextList, name: &str) -> Option<usize>
    ensures { result ≡ position (λ g. bytes_eq g name.now) groups.now }
{
    groups
        .as_slice()
        .iter()
        .position(|group| group.as_str() == name)
}
