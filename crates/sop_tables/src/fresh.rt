//! New tables of elements with defaults.
ghost use Rattle.std.specs.Prelude.{◌≡◌, ◌+◌, ◌≤◌, [], length, map, replicate, vec_len, vec_capacity, IfOk, OnOk, OnErr};
ghost use Rattle.sop_model.specs.Geometry.{AreKept, set_bounds};
ghost use Rattle.sop_model.specs.Limits.{most_vertices};
ghost use Rattle.sop_model.specs.Rows.{default_row};
ghost use Rattle.sop_model.specs.Values.{default_of};
ghost use Rattle.sop_tables.specs.Transposed.{filled_each};
ghost use Rattle.sop_tables.specs.Tables.{rows, IsTableMade, IsNoStep};
ghost use Rattle.sop_tables.specs.Fresh.{AreBeside, AreMade};

use crate::lots;
use crate::table::Table;
use sop_cells::Shelf;
use sop_columns::{BitColumn, Column, Names};
use sop_model::{Head, HeadSet};
use std::alloc::{AllocError, Global};

impl Table {
    /// The table of `count` elements with these attributes and groups, within the limits of a class: each element has the
    /// defaults and is in no group. It takes memory from `alloc`. Other tables stay as they are. `Err` for want of memory:
    /// then only names may have come.
    pub fn new(
        alloc: Global,
        set: HeadSet,
        count: u32,
        shelf: &mut Shelf<'_>,
        names: &mut Names,
    ) -> Result<Table, AllocError>
        requires few { AreKept (set_bounds set) }
        requires most { count ≤ most_vertices }
        ensures rows { IfOk result (λ table. rows shelf.new names.new table ≡ replicate count (default_row set)) }
        ensures set { IfOk result (λ table. table.set ≡ set) }
        ensures count { IfOk result (λ table. table.count ≡ count) }
        ensures made { IfOk result (IsTableMade shelf.old shelf.new names.old names.new) }
        ensures err { OnErr result (IsNoStep shelf.old shelf.new names.old names.new) }
    {
        let members = no_members(alloc, set.groups.len())?;
        let columns = fresh_columns(alloc, set.heads.as_slice(), count, shelf, names)?;
        Ok(Table {
            set,
            columns,
            members,
            count,
            alloc,
        })
    }
}

// The members of so many groups, none.
fn no_members(alloc: Global, count: usize) -> Result<Vec<BitColumn>, AllocError>
    ensures { IfOk result (λ made. made.items ≡ replicate count []) }
{
    let mut made = Vec::with_capacity(alloc, count)?;
    for _ in 0..count {
        made.push(BitColumn::empty(alloc))?;
    }
    Ok(made)
}

// A column of `count` defaults for each head.
fn fresh_columns(
    alloc: Global,
    heads: &[Head],
    count: u32,
    shelf: &mut Shelf<'_>,
    names: &mut Names,
) -> Result<Vec<Column>, AllocError>
    ensures made { IfOk result (λ columns. AreMade shelf.old shelf.new names.old names.new count heads.now
        (filled_each count (map (λ head. default_of head.kind) heads.now)) columns.items) }
    ensures err { OnErr result (IsNoStep shelf.old shelf.new names.old names.new) }
{
    let mut columns = Vec::with_capacity(alloc, heads.len())?;
    match push_fresh(&mut columns, alloc, heads, count, shelf, names) {
        Ok(()) => Ok(columns),
        Err(error) => {
            lots::release_columns(columns, shelf);
            Err(error)
        }
    }
}

// Pushes a column of `count` defaults for each head. `Err` leaves the columns that were made before.
fn push_fresh(
    columns: &mut Vec<Column>,
    alloc: Global,
    heads: &[Head],
    count: u32,
    shelf: &mut Shelf<'_>,
    names: &mut Names,
) -> Result<(), AllocError>
    requires bare { columns.old.items ≡ [] }
    requires room { vec_len columns.old + length heads.now ≤ vec_capacity columns.old }
    ensures beside { AreBeside shelf.old shelf.new names.old names.new columns.new.items }
    ensures made { OnOk result (AreMade shelf.old shelf.new names.old names.new count heads.now
        (filled_each count (map (λ head. default_of head.kind) heads.now)) columns.new.items) }
{
    for head in heads {
        let column = Column::new(alloc, head.kind, count, shelf, names)?;
        columns.push_reserved(column);
    }
    Ok(())
}
