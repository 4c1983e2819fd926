//! What no clause says: that the calls succeed with memory at hand.
mod calls;
mod looks;
mod wants;

use crate::{Vault, VaultEnd};
use calls::{
    add_attr, add_group, add_prim, add_vertex, double, set_member, set_text, set_x, share, turned,
    with_points, with_row,
};
use looks::{are_texts, x_of};
use sop_fixed::Int;
use sop_model::{Class, GeoView, Value};
use sop_pages::Cell;
use std::test::Fail;
use wants::{call_each, take_and_adopt};

#[test]
fn a_share_keeps_what_it_had(rt: HostRuntime) -> Result<(), Fail> {
    let mut vault = Vault::new(rt.alloc());
    let first = with_points(&mut vault, 2)?;
    let second = share(&mut vault, first)?;
    set_x(&mut vault, second, 0, 5)?;
    assert_eq!(rt; x_of(&vault.view(first), 0), Some(0));
    assert_eq!(rt; x_of(&vault.view(second), 0), Some(5));
    vault.drop_geo(first);
    vault.drop_geo(second);
    let loaded = with_row(rt.alloc(), &mut vault, 7)?;
    assert_eq!(rt; x_of(&vault.view(loaded), 0), Some(7));
    vault.drop_geo(loaded);
    assert_eq!(rt; vault.pages(), 0);
    Ok(())
}

#[test]
fn a_changed_copy_takes_a_page(rt: HostRuntime) -> Result<(), Fail> {
    let mut vault = Vault::new(rt.alloc());
    let first = with_points(&mut vault, 3_000)?;
    let pages = vault.pages();
    let second = share(&mut vault, first)?;
    assert_eq!(rt; vault.pages(), pages);
    set_x(&mut vault, second, 0, 5)?;
    assert_eq!(rt; vault.pages(), pages.wrapping_add(1));
    set_x(&mut vault, second, 1, 5)?;
    assert_eq!(rt; vault.pages(), pages.wrapping_add(1));
    vault.drop_geo(second);
    assert_eq!(rt; vault.pages(), pages);
    Ok(())
}

#[test]
fn texts_are_shared(rt: HostRuntime) -> Result<(), Fail> {
    let mut vault = Vault::new(rt.alloc());
    let first = with_points(&mut vault, 0)?;
    add_attr(&mut vault, first, "a")?;
    add_prim(&mut vault, first, &[])?;
    add_prim(&mut vault, first, &[])?;
    set_text(rt.alloc(), &mut vault, first, 1)?;
    let second = share(&mut vault, first)?;
    assert!(rt; are_texts(&vault.view(first), "", "text"));
    assert!(rt; are_texts(&vault.view(second), "", "text"));
    Ok(())
}

#[test]
fn refusals_are_told(rt: HostRuntime) -> Result<(), Fail> {
    let mut vault = Vault::new(rt.alloc());
    let key = with_points(&mut vault, 2)?;
    assert_eq!(rt; add_attr(&mut vault, key, "a"), Ok(()));
    assert_eq!(rt; add_attr(&mut vault, key, "a"), Err(VaultEnd::Exists));
    assert_eq!(rt; add_group(&mut vault, key, "g"), Ok(()));
    assert_eq!(rt; add_group(&mut vault, key, "g"), Err(VaultEnd::Exists));
    assert_eq!(rt; set_member(&mut vault, key, 1), Ok(()));
    assert_eq!(rt; add_prim(&mut vault, key, &[7]), Err(VaultEnd::NoPoint));
    assert_eq!(rt; add_prim(&mut vault, key, &[]), Ok(()));
    assert_eq!(rt; add_vertex(&mut vault, key, 0, 1), Ok(()));
    assert_eq!(rt; vault.view(key).count(Class::Vertex), 1);
    assert_eq!(rt;
        vault.del_attr(key, Class::Prim, "b"),
        Err(VaultEnd::NoAttr)
    );
    Ok(())
}

#[test]
fn points_go_and_turn_and_come(rt: HostRuntime) -> Result<(), Fail> {
    let mut vault = Vault::new(rt.alloc());
    let key = turned(rt.alloc(), &mut vault, 5)?;
    double(&mut vault, key)?;
    take_and_adopt(&rt, &mut vault, key)?;
    let view = vault.view(key);
    for (point, x) in [Some(5), Some(0), Some(5), Some(0), None]
        .iter()
        .enumerate()
    {
        assert_eq!(rt; x_of(&view, point as u32), *x);
    }
    let five = Int::of(5).expect(&rt, "in range");
    assert_eq!(rt; vault.cell(&Value::Int(five))?, Cell::Int(five));
    Ok(())
}

#[test]
fn want_of_memory_leaves_all_as_it_was(rt: HostRuntime) -> Result<(), Fail> {
    let mut vault = Vault::new(rt.alloc());
    let first = with_points(&mut vault, 0)?;
    call_each(&rt, rt.alloc(), &mut vault, first, first, "a")?;
    take_and_adopt(&rt, &mut vault, first)?;
    let second = share(&mut vault, first)?;
    call_each(&rt, rt.alloc(), &mut vault, second, first, "b")?;
    take_and_adopt(&rt, &mut vault, second)?;
    Ok(())
}
