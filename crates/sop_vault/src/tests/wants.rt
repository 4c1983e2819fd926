//! Each call of a vault that may take memory, and what stands where it gets none.
ghost use Rattle.std.specs.Prelude.{IsTrue};
ghost use Rattle.sop_model.specs.Names.{is_name};
ghost use Rattle.sop_vault.specs.Keyed.{IsLive};
ghost use Rattle.sop_vault.specs.Living.{StayLive};

use super::calls::{
    add_and_drop, add_attr, add_group, add_points, add_prim, add_vertex, cell_of, del_attr, double,
    keep_without, load_row, reverse, set_member, set_text, set_x, share_and_drop,
};
use super::looks::{has_place, look_at};
use crate::{GeoKey, Vault, VaultEnd};
use sop_model::Class;
use sop_outside::Text;
use std::alloc::Global;
use std::process::Abort;

/// A call.
#[derive(Clone, Copy)]
enum Call {
    Empty,
    LoadRows,
    Cell,
    AddPoints,
    AddAttr,
    AddGroup,
    AddPrim,
    AddVertices,
    Set,
    SetText,
    SetMember,
    Share,
    Keep,
    Reorder,
    Append,
    DelAttr,
}

/// The calls in an order in which each finds what it needs.
const CALLS: [Call; 16] = [
    Call::Empty,
    Call::LoadRows,
    Call::Cell,
    Call::AddPoints,
    Call::AddAttr,
    Call::AddGroup,
    Call::AddPrim,
    Call::AddVertices,
    Call::Set,
    Call::SetText,
    Call::SetMember,
    Call::Share,
    Call::Keep,
    Call::Reorder,
    Call::Append,
    Call::DelAttr,
];

/// Makes each call on the geometry at `key`. One that is refused must leave that geometry, the one at `other` and the number of pages
/// as they were; the others aren't made then.
pub fn call_each(
    rt: &impl Abort,
    alloc: Global,
    vault: &mut Vault<'_>,
    key: GeoKey,
    other: GeoKey,
    name: &str,
) -> Result<(), VaultEnd>
    requires key { IsLive vault.old.geos key }
    requires other { IsLive vault.old.geos other }
    requires name { IsTrue (is_name name.now) }
    ensures { StayLive vault.old.geos vault.new.geos }
{
    for call in CALLS {
        let before = (look_at(vault, key), look_at(vault, other));
        let made = call.make(alloc, vault, key, name);
        if made.is_err() {
            assert_eq!(rt; look_at(vault, key), before.0);
            assert_eq!(rt; look_at(vault, other), before.1);
            return made;
        }
    }
    Ok(())
}

/// Takes the places of points out as pages, and puts these in again. Each of both calls must leave all as it was where it is refused.
pub fn take_and_adopt(rt: &impl Abort, vault: &mut Vault<'_>, key: GeoKey) -> Result<(), VaultEnd>
    requires { IsLive vault.old.geos key }
    ensures { StayLive vault.old.geos vault.new.geos }
{
    if !has_place(&vault.view(key), 0) {
        return Err(VaultEnd::NoPoint);
    }
    let before = look_at(vault, key);
    let Ok(pages) = vault.take_loose(key, Class::Point, 0) else {
        assert_eq!(rt; look_at(vault, key), before);
        return Err(VaultEnd::Memory);
    };
    let taken = look_at(vault, key);
    if vault.adopt(key, Class::Point, 0, pages).is_err() {
        assert_eq!(rt; look_at(vault, key), taken);
        return Err(VaultEnd::Memory);
    }
    Ok(())
}

impl Call {
    fn make(
        self,
        alloc: Global,
        vault: &mut Vault<'_>,
        key: GeoKey,
        name: &str,
    ) -> Result<(), VaultEnd>
        requires live { IsLive vault.old.geos key }
        requires name { IsTrue (is_name name.now) }
        ensures { StayLive vault.old.geos vault.new.geos }
    {
        match self {
            Call::Empty => add_and_drop(vault),
            Call::LoadRows => load_row(alloc, vault),
            Call::Cell => cell_of(vault, Text::from_str(alloc, name)?),
            Call::AddPoints => add_points(vault, key, 3),
            Call::AddAttr => add_attr(vault, key, name),
            Call::AddGroup => add_group(vault, key, name),
            Call::AddPrim => add_prim(vault, key, &[0, 1]),
            Call::AddVertices => add_vertex(vault, key, 0, 2),
            Call::Set => set_x(vault, key, 2, 5),
            Call::SetText => set_text(alloc, vault, key, 0),
            Call::SetMember => set_member(vault, key, 2),
            Call::Share => share_and_drop(vault, key),
            Call::Keep => keep_without(alloc, vault, key, 1),
            Call::Reorder => reverse(alloc, vault, key),
            Call::Append => double(vault, key),
            Call::DelAttr => del_attr(vault, key, name),
        }
    }
}
