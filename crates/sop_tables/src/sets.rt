//! The attributes and groups of two tables together.
ghost use Rattle.std.specs.Prelude.{◌≡◌, ◌↔◌, ◌≤◌, ◌++◌, not, filter, length, IsTrue, IfOk, OnOk};
ghost use Rattle.std.specs.List.{list_any};
ghost use Rattle.std.specs.Str.{bytes_eq};
ghost use Rattle.sop_model.specs.Geometry.{AreKept, set_bounds};
ghost use Rattle.sop_rows.specs.Both.{both_sets};

use sop_model::copies::Copied;
use sop_model::limits::{MOST_GROUPS, MOST_HEADS};
use sop_model::{Head, HeadList, HeadSet};
use sop_outside::{Text, TextList};
use std::alloc::{AllocError, Global};

/// Those of the first, and behind them those of the second whose name the first hasn't.
pub(crate) fn both(alloc: Global, first: &HeadSet, second: &HeadSet) -> Result<HeadSet, AllocError>
    ensures { IfOk result (λ set. set ≡ both_sets first.now second.now) }
{
    let mut set = first.copy(alloc)?;
    add_heads(
        alloc,
        &mut set.heads,
        first.heads.as_slice(),
        second.heads.as_slice(),
    )?;
    add_groups(
        alloc,
        &mut set.groups,
        first.groups.as_slice(),
        second.groups.as_slice(),
    )?;
    Ok(set)
}

// Puts the heads whose name none of the first has behind the others.
fn add_heads(
    alloc: Global,
    into: &mut HeadList,
    first: &[Head],
    more: &[Head],
) -> Result<(), AllocError>
    ensures { OnOk result (into.new ≡ into.old ++ filter (λ h. not (list_any (λ k. bytes_eq k.name h.name) first.now)) more.now) }
{
    for head in more {
        if !has_head(first, head.name.as_str()) {
            into.add(head.copy(alloc)?)?;
        }
    }
    Ok(())
}

// Puts the names that none of the first is behind the others.
fn add_groups(
    alloc: Global,
    into: &mut TextList,
    first: &[Text],
    more: &[Text],
) -> Result<(), AllocError>
    ensures { OnOk result (into.new ≡ into.old ++ filter (λ name. not (list_any (λ k. bytes_eq k name) first.now)) more.now) }
{
    for name in more {
        if !has_group(first, name.as_str()) {
            into.add(name.copy(alloc)?)?;
        }
    }
    Ok(())
}

fn has_head(heads: &[Head], name: &str) -> bool
    ensures { result ≡ list_any (λ k. bytes_eq k.name name.now) heads.now }
{
    heads.iter().any(|own| own.name.as_str() == name)
}

fn has_group(groups: &[Text], name: &str) -> bool
    ensures { result ≡ list_any (λ k. bytes_eq k name.now) groups.now }
{
    groups.iter().any(|own| own.as_str() == name)
}

/// Whether both together are at most as many attributes and groups as a class may have.
pub(crate) fn both_fit(first: &HeadSet, second: &HeadSet) -> bool
    requires first { AreKept (set_bounds first.now) }
    requires second { AreKept (set_bounds second.now) }
    ensures { IsTrue result ↔ AreKept (set_bounds (both_sets first.now second.now)) }
{
    let heads = first.heads.len() + count_heads(first.heads.as_slice(), second.heads.as_slice());
    let groups = first.groups.len()
        + count_groups(first.groups.as_slice(), second.groups.as_slice());
    heads <= MOST_HEADS && groups <= MOST_GROUPS
}

// How many heads have a name that none of the first has.
fn count_heads(first: &[Head], more: &[Head]) -> usize
    ensures few { result ≤ length more.now }
    ensures is { result ≡ length (filter (λ h. not (list_any (λ k. bytes_eq k.name h.name) first.now)) more.now) }
{
    let mut count = 0;
    for head in more {
        if !has_head(first, head.name.as_str()) {
            count += 1;
        }
    }
    count
}

// How many names none of the first is.
fn count_groups(first: &[Text], more: &[Text]) -> usize
    ensures few { result ≤ length more.now }
    ensures is { result ≡ length (filter (λ name. not (list_any (λ k. bytes_eq k name) first.now)) more.now) }
{
    let mut count = 0;
    for name in more {
        if !has_group(first, name.as_str()) {
            count += 1;
        }
    }
    count
}
