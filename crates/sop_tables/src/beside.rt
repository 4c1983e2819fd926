//! One column, or the members of one group, made beside others.
ghost use Rattle.std.specs.Prelude.{◌≡◌, ℕ, ◌+◌, ◌^◌, ◌<◌, ◌≤◌, [], ◌++◌, length, map, replicate, slice_index_or, All, IfOk, OnOk, OnErr};
ghost use Rattle.sop_model.specs.Limits.{most_vertices};
ghost use Rattle.sop_model.specs.Values.{kind_of, default_of};
ghost use Rattle.sop_cells.specs.Shelves.{Shifts};
ghost use Rattle.sop_columns.specs.Fitted.{fitted_to};
ghost use Rattle.sop_columns.specs.Bits.{flag, placed, AreBits};
ghost use Rattle.sop_tables.specs.Transposed.{items_at};
ghost use Rattle.sop_tables.specs.Tables.{held, IsHeld, HasRoomFor, IsColumnOf, IsNoStep};
ghost use Rattle.sop_tables.specs.Changes.{ArePicks, IsNewColumn, IsNewMembers};

use sop_cells::Shelf;
use sop_columns::{BitColumn, Column, Names};
use sop_model::{Head, Kind};
use std::alloc::{AllocError, Global};

/// A column that holds the same pages.
pub(crate) fn shared_column(column: &Column, shelf: &mut Shelf<'_>) -> Result<Column, AllocError>
    requires held { IsHeld shelf.old column.now }
    requires room { HasRoomFor shelf.old (2 ^ 20) }
    requires few { length column.now ≤ 4096 }
    ensures same { IfOk result (λ c. c ≡ column.now) }
    ensures shifts { OnOk result (Shifts shelf.old shelf.new [] column.now) }
    ensures err { OnErr result (shelf.new ≡ shelf.old) }
{
    let made = column.copy()?;
    made.hold(shelf);
    Ok(made)
}

/// A column of the first `count` values and, behind them, of `more` defaults of its head. The pages are shared where the
/// column has cells enough.
pub(crate) fn longer_column(
    column: &Column,
    head: &Head,
    count: u32,
    more: u32,
    shelf: &mut Shelf<'_>,
    names: &mut Names,
) -> Result<Column, AllocError>
    requires column { IsColumnOf shelf.old names.old count (default_of head.now.kind) column.now }
    requires held { IsHeld shelf.old column.now }
    requires room { HasRoomFor shelf.old (2 ^ 20) }
    requires most { count + more ≤ most_vertices }
    ensures made { IfOk result (IsNewColumn shelf.old shelf.new names.old names.new (count + more) head.now (held shelf.old names.old count column.now ++ replicate more (default_of head.now.kind))) }
    ensures err { OnErr result (IsNoStep shelf.old shelf.new names.old names.new) }
{
    let total = count + more;
    if column.reaches(shelf, total) {
        shared_column(column, shelf)
    } else {
        column.extended(shelf, names, head.kind, total)
    }
}

/// A column of the values at these numbers, each below `count`.
pub(crate) fn picked_column(
    column: &Column,
    head: &Head,
    count: u32,
    numbers: &[u32],
    shelf: &mut Shelf<'_>,
    names: &Names,
) -> Result<Column, AllocError>
    requires column { IsColumnOf shelf.old names.now count (default_of head.now.kind) column.now }
    requires held { IsHeld shelf.old column.now }
    requires room { HasRoomFor shelf.old (2 ^ 20) }
    requires most { count ≤ most_vertices }
    requires picks { ArePicks count numbers.now }
    ensures made { IfOk result (IsNewColumn shelf.old shelf.new names.now names.now (length numbers.now) head.now (items_at numbers.now (held shelf.old names.now count column.now))) }
    ensures err { OnErr result (shelf.new ≡ shelf.old) }
{
    column.picked(shelf, numbers)
}

/// A column of `count` defaults of the head.
pub(crate) fn fresh_column(
    alloc: Global,
    head: &Head,
    count: u32,
    shelf: &mut Shelf<'_>,
    names: &mut Names,
) -> Result<Column, AllocError>
    ensures made { IfOk result (IsNewColumn shelf.old shelf.new names.old names.new count head.now (replicate count (default_of head.now.kind))) }
    ensures err { OnErr result (IsNoStep shelf.old shelf.new names.old names.new) }
{
    Column::new(alloc, head.kind, count, shelf, names)
}

/// A column of the first `count` values, which are of the kind `own`, put under another head.
pub(crate) fn fitted_column(
    column: &Column,
    own: Kind,
    head: &Head,
    count: u32,
    shelf: &mut Shelf<'_>,
    names: &mut Names,
) -> Result<Column, AllocError>
    requires column { IsColumnOf shelf.old names.old count (default_of own) column.now }
    requires held { IsHeld shelf.old column.now }
    requires kinds { All (λ v. kind_of v ≡ own) (held shelf.old names.old count column.now) }
    requires room { HasRoomFor shelf.old (2 ^ 20) }
    requires most { count ≤ most_vertices }
    ensures made { IfOk result (IsNewColumn shelf.old shelf.new names.old names.new count head.now (map (fitted_to head.now.kind) (held shelf.old names.old count column.now))) }
    ensures err { OnErr result (IsNoStep shelf.old shelf.new names.old names.new) }
{
    if own == head.kind {
        longer_column(column, head, count, 0, shelf, names)
    } else {
        column.converted(head.kind, count, shelf, names)
    }
}

/// A column of the first `len` values of one column and then the first `more` of another one, both of the head's kind. It shares
/// what whole pages it can with both.
pub(crate) fn joined_column(
    first: &Column,
    head: &Head,
    len: u32,
    second: &Column,
    more: u32,
    shelf: &mut Shelf<'_>,
    names: &Names,
) -> Result<Column, AllocError>
    requires first { IsColumnOf shelf.old names.now len (default_of head.now.kind) first.now }
    requires first_held { IsHeld shelf.old first.now }
    requires second { IsColumnOf shelf.old names.now more (default_of head.now.kind) second.now }
    requires second_held { IsHeld shelf.old second.now }
    requires room { HasRoomFor shelf.old (2 ^ 20) }
    requires most { len + more ≤ most_vertices }
    ensures made { IfOk result (IsNewColumn shelf.old shelf.new names.now names.now (len + more) head.now (held shelf.old names.now len first.now ++ held shelf.old names.now more second.now)) }
    ensures err { OnErr result (shelf.new ≡ shelf.old) }
{
    first.appended(len, shelf, second, more)
}

/// Members that hold the same pages.
pub(crate) fn shared_members(
    members: &BitColumn,
    shelf: &mut Shelf<'_>,
) -> Result<BitColumn, AllocError>
    requires bits { AreBits shelf.old members.now }
    requires room { HasRoomFor shelf.old (2 ^ 20) }
    requires few { length members.now ≤ 32 }
    ensures same { IfOk result (λ c. c ≡ members.now) }
    ensures shifts { OnOk result (Shifts shelf.old shelf.new [] (placed members.now)) }
    ensures err { OnErr result (Shifts shelf.old shelf.new [] []) }
{
    let made = members.copy()?;
    made.hold(shelf);
    Ok(made)
}

/// Members as those with these numbers, each below `count`, are.
pub(crate) fn picked_members(
    members: &BitColumn,
    numbers: &[u32],
    shelf: &mut Shelf<'_>,
) -> Result<BitColumn, AllocError>
    requires bits { AreBits shelf.old members.now }
    requires few { length numbers.now ≤ most_vertices }
    ensures made { IfOk result (IsNewMembers shelf.old shelf.new (length numbers.now) (λ i. flag shelf.old members.now (slice_index_or numbers.now i 0))) }
    ensures err { OnErr result (Shifts shelf.old shelf.new [] []) }
{
    members.picked(shelf, numbers)
}
