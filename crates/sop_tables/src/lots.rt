//! All columns, or the members of all groups, of a table: copied, held and let go one after the other.
ghost use Rattle.std.specs.Prelude.{◌≡◌, ◌≤◌, [], map, IfOk};
ghost use Rattle.sop_pages.specs.Pages.{live_pages};
ghost use Rattle.sop_cells.specs.Shelves.{Shifts};
ghost use Rattle.sop_columns.specs.Bits.{placed};
ghost use Rattle.sop_tables.specs.Tables.{flat, IsHeld, HasRoom};

use sop_cells::Shelf;
use sop_columns::{BitColumn, Column};
use std::alloc::{AllocError, Global};

/// The same columns, which the shelf doesn't count before `hold_columns`.
pub(crate) fn copy_columns(alloc: Global, columns: &[Column]) -> Result<Vec<Column>, AllocError>
    ensures { IfOk result (λ made. made.items ≡ columns.now) }
{
    let mut made = Vec::with_capacity(alloc, columns.len())?;
    for column in columns {
        made.push(column.copy()?)?;
    }
    Ok(made)
}

/// Counts each column once more.
pub(crate) fn hold_columns(columns: &[Column], shelf: &mut Shelf<'_>)
    requires held { IsHeld shelf.old (flat columns.now) }
    requires room { HasRoom shelf.old (flat columns.now) }
    ensures shifts { Shifts shelf.old shelf.new [] (flat columns.now) }
    ensures pages { live_pages shelf.new.own ≡ live_pages shelf.old.own }
{
    for column in columns {
        column.hold(shelf);
    }
}

/// Lets each column go.
pub(crate) fn release_columns(mut columns: Vec<Column>, shelf: &mut Shelf<'_>)
    requires held { IsHeld shelf.old (flat columns.items) }
    ensures shifts { Shifts shelf.old shelf.new (flat columns.items) [] }
    ensures pages { live_pages shelf.new.own ≤ live_pages shelf.old.own }
{
    while let Some(column) = columns.pop() {
        column.release(shelf);
    }
}

/// The same members, which the shelf doesn't count before `hold_members`.
pub(crate) fn copy_members(
    alloc: Global,
    members: &[BitColumn],
) -> Result<Vec<BitColumn>, AllocError>
    ensures { IfOk result (λ made. made.items ≡ members.now) }
{
    let mut made = Vec::with_capacity(alloc, members.len())?;
    for column in members {
        made.push(column.copy()?)?;
    }
    Ok(made)
}

/// Counts the members of each group once more.
pub(crate) fn hold_members(members: &[BitColumn], shelf: &mut Shelf<'_>)
    requires held { IsHeld shelf.old (flat (map placed members.now)) }
    requires room { HasRoom shelf.old (flat (map placed members.now)) }
    ensures shifts { Shifts shelf.old shelf.new [] (flat (map placed members.now)) }
    ensures pages { live_pages shelf.new.own ≡ live_pages shelf.old.own }
{
    for column in members {
        column.hold(shelf);
    }
}

/// Lets the members of each group go.
pub(crate) fn release_members(mut members: Vec<BitColumn>, shelf: &mut Shelf<'_>)
    requires held { IsHeld shelf.old (flat (map placed members.items)) }
    ensures shifts { Shifts shelf.old shelf.new (flat (map placed members.items)) [] }
    ensures pages { live_pages shelf.new.own ≤ live_pages shelf.old.own }
{
    while let Some(column) = members.pop() {
        column.release(shelf);
    }
}
