//! New tables beside others: with more elements, with some of them, or with those of two tables.
ghost use Rattle.std.specs.Prelude.{◌≡◌, ℕ, ◌+◌, ◌*◌, ◌^◌, ◌<◌, ◌≤◌, [], ◌++◌, length, map, replicate, slice_get, Some, All, IfOk, OnErr};
ghost use Rattle.sop_model.specs.Geometry.{empty_row};
ghost use Rattle.sop_model.specs.Limits.{most_vertices};
ghost use Rattle.sop_model.specs.Rows.{default_row, picked};
ghost use Rattle.sop_cells.specs.Shelves.{Shifts};
ghost use Rattle.sop_columns.specs.Names.{Grows};
ghost use Rattle.sop_tables.specs.Tables.{TableLists, rows, places_in, IsTable, IsHeld, HasRoomFor, table_room, IsTableMade, IsNoStep};
ghost use Rattle.sop_tables.specs.Changes.{IsSource, set_after, count_after, values_after, all_values_after, head_at, group_at, flag_after, all_flags_after, rows_after, rows_changed, IsNewColumn, AreNewColumns, IsNewMembers, AreNewMembers};

use crate::table::Table;
use crate::{beside, lots, sets};
use sop_cells::Shelf;
use sop_columns::{BitColumn, Column, Names};
use sop_model::copies::Copied;
use sop_model::{Head, HeadSet};
use sop_outside::Text;
use std::alloc::AllocError;

/// What a new table has of the elements of another one, the source.
#[derive(Clone, Copy)]
pub enum Change<'a> {
    /// All of them, and behind them so many with defaults, in no group.
    Longer(u32),
    /// Those with these numbers, in this order.
    Picked(&'a [u32]),
    /// All of them, and behind them those of another table. The attributes and groups of both are there: each value is put
    /// under the head of its name, and where an element has none it has the default, and is in no group.
    Appended(&'a Table),
    /// All of them, with the values of another table under its further attributes. Both have one element and no group.
    Widened(&'a Table),
}

impl Table {
    /// A table made of this one's elements, beside it: `change` says of which, and what comes to them. It shares what whole pages it
    /// can with this one, which stays. `Err` for want of memory.
    pub fn changed(
        &self,
        change: Change<'_>,
        shelf: &mut Shelf<'_>,
        names: &mut Names,
    ) -> Result<Table, AllocError>
        requires source { IsSource shelf.old names.old self.now change }
        requires room { HasRoomFor shelf.old table_room }
        ensures set { IfOk result (λ t. t.set ≡ set_after self.now.set change.entry) }
        ensures count { IfOk result (λ t. t.count ≡ count_after self.now.count change.entry) }
        ensures rows { IfOk result (λ t. rows shelf.new names.new t ≡ rows_changed shelf.old names.old self.now change.entry) }
        ensures made { IfOk result (IsTableMade shelf.old shelf.new names.old names.new) }
        ensures err { OnErr result (IsNoStep shelf.old shelf.new names.old names.new) }
    {
        let set = self.set_after(change)?;
        self.changed_under(change, set, shelf, names)
    }

    // The attributes and groups of the new table.
    fn set_after(&self, change: Change<'_>) -> Result<HeadSet, AllocError>
        ensures { IfOk result (λ set. set ≡ set_after self.now.set change.entry) }
    {
        match change {
            Change::Longer(_) | Change::Picked(_) => self.set.copy(self.alloc),
            Change::Appended(other) | Change::Widened(other) => {
                sets::both(self.alloc, &self.set, &other.set)
            }
        }
    }

    // New columns beside the old ones, one for each head of the new table. For want of memory none is left.
    fn new_columns(
        &self,
        change: Change<'_>,
        set: &HeadSet,
        shelf: &mut Shelf<'_>,
        names: &mut Names,
    ) -> Result<Vec<Column>, AllocError>
        requires source { IsSource shelf.old names.old self.now change }
        requires room { HasRoomFor shelf.old table_room }
        requires set { set.now ≡ set_after self.now.set change }
        ensures made { IfOk result (λ made. AreNewColumns shelf.old shelf.new names.old names.new (count_after self.now.count change.entry) set.now.heads (all_values_after shelf.old names.old self.now change.entry set.now.heads (length set.now.heads)) made.items) }
        ensures err { OnErr result (IsNoStep shelf.old shelf.new names.old names.new) }
    {
        let heads = set.heads.as_slice();
        let mut made = Vec::with_capacity(self.alloc, heads.len())?;
        for (k, head) in heads.iter().enumerate() {
            match self.new_column(change, k, head, shelf, names) {
                Ok(column) => made.push_reserved(column),
                Err(error) => {
                    lots::release_columns(made, shelf);
                    return Err(error);
                }
            }
        }
        Ok(made)
    }

    // The new column under the head with the number `k`.
    fn new_column(
        &self,
        change: Change<'_>,
        k: usize,
        head: &Head,
        shelf: &mut Shelf<'_>,
        names: &mut Names,
    ) -> Result<Column, AllocError>
        requires source { IsSource shelf.old names.old self.now change }
        requires room { HasRoomFor shelf.old (2 ^ 31) }
        requires number { k < length (set_after self.now.set change).heads }
        requires head { head.now ≡ head_at (set_after self.now.set change).heads k }
        ensures made { IfOk result (IsNewColumn shelf.old shelf.new names.old names.new (count_after self.now.count change.entry) head.now (values_after shelf.old names.old self.now change.entry k head.now)) }
        ensures err { OnErr result (IsNoStep shelf.old shelf.new names.old names.new) }
    {
        match change {
            Change::Longer(more) => {
                beside::longer_column(self.column(k), head, self.count(), more, shelf, names)
            }
            Change::Picked(numbers) => {
                beside::picked_column(self.column(k), head, self.count(), numbers, shelf, names)
            }
            Change::Appended(other) => self.appended_column(k, head, other, shelf, names),
            Change::Widened(other) => self.widened_column(k, head, other, shelf, names),
        }
    }

    // New members beside the old ones, for each group of the new table. For want of memory none are left.
    fn new_members(
        &self,
        change: Change<'_>,
        set: &HeadSet,
        shelf: &mut Shelf<'_>,
        names: &Names,
    ) -> Result<Vec<BitColumn>, AllocError>
        requires source { IsSource shelf.old names.now self.now change }
        requires room { HasRoomFor shelf.old (2 ^ 31) }
        requires set { set.now ≡ set_after self.now.set change }
        ensures made { IfOk result (λ made. AreNewMembers shelf.old shelf.new (count_after self.now.count change.entry) (length set.now.groups) (all_flags_after shelf.old self.now change.entry set.now.groups (length set.now.groups)) made.items) }
        ensures err { OnErr result (Shifts shelf.old shelf.new [] []) }
    {
        let groups = set.groups.as_slice();
        let mut made = Vec::with_capacity(self.alloc, groups.len())?;
        for (k, group) in groups.iter().enumerate() {
            match self.new_group(change, k, group, shelf, names) {
                Ok(members) => made.push_reserved(members),
                Err(error) => {
                    lots::release_members(made, shelf);
                    return Err(error);
                }
            }
        }
        Ok(made)
    }

    // The new members of the group with the number `k`.
    fn new_group(
        &self,
        change: Change<'_>,
        k: usize,
        group: &Text,
        shelf: &mut Shelf<'_>,
        names: &Names,
    ) -> Result<BitColumn, AllocError>
        requires source { IsSource shelf.old names.now self.now change }
        requires room { HasRoomFor shelf.old (2 ^ 30) }
        requires number { k < length (set_after self.now.set change).groups }
        requires group { group.now ≡ group_at (set_after self.now.set change).groups k }
        ensures made { IfOk result (IsNewMembers shelf.old shelf.new (count_after self.now.count change.entry) (flag_after shelf.old self.now change.entry k group.now)) }
        ensures err { OnErr result (Shifts shelf.old shelf.new [] []) }
    {
        match change {
            Change::Longer(_) => beside::shared_members(self.group(k), shelf),
            Change::Picked(numbers) => beside::picked_members(self.group(k), numbers, shelf),
            Change::Appended(other) => self.appended_members(k, group, other, shelf, names),
            Change::Widened(_) => Ok(BitColumn::empty(self.alloc)),
        }
    }

    /// The column with the number `k`.
    pub(crate) fn column(&self, k: usize) -> &Column
        requires { k < length self.now.columns }
        ensures { slice_get self.now.columns k ≡ Some result.now }
    {
        &self.columns[k]
    }

    /// The members of the group with the number `k`.
    pub(crate) fn group(&self, k: usize) -> &BitColumn
        requires { k < length self.now.members }
        ensures { slice_get self.now.members k ≡ Some result.now }
    {
        &self.members[k]
    }

    // The number of elements of the new table.
    fn count_after(&self, change: Change<'_>) -> u32
        requires { count_after self.now.count change < 2 ^ 32 }
        ensures { result ≡ count_after self.now.count change.entry }
    {
        match change {
            Change::Longer(more) => self.count + more,
            Change::Picked(numbers) => numbers.len() as u32,
            Change::Appended(other) => self.count + other.count,
            Change::Widened(_) => self.count,
        }
    }

    // The new table under these heads and groups, beside the others. For want of memory nothing is left of it.
    fn changed_under(
        &self,
        change: Change<'_>,
        set: HeadSet,
        shelf: &mut Shelf<'_>,
        names: &mut Names,
    ) -> Result<Table, AllocError>
        requires source { IsSource shelf.old names.old self.now change }
        requires room { HasRoomFor shelf.old table_room }
        requires set { set ≡ set_after self.now.set change }
        ensures set { IfOk result (λ t. t.set ≡ set_after self.now.set change.entry) }
        ensures count { IfOk result (λ t. t.count ≡ count_after self.now.count change.entry) }
        ensures made { IfOk result (IsTableMade shelf.old shelf.new names.old names.new) }
        ensures rows { IfOk result (λ t. rows shelf.new names.new t ≡ rows_after shelf.old names.old self.now change.entry) }
        ensures err { OnErr result (IsNoStep shelf.old shelf.new names.old names.new) }
    {
        let count = self.count_after(change);
        let columns = self.new_columns(change, &set, shelf, names)?;
        match self.new_members(change, &set, shelf, names) {
            Ok(members) => Ok(Table {
                set,
                columns,
                members,
                count,
                alloc: self.alloc,
            }),
            Err(error) => {
                lots::release_columns(columns, shelf);
                Err(error)
            }
        }
    }
}
