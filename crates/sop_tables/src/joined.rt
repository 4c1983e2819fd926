//! One column, or the members of one group, made of those of two tables.
ghost use Rattle.std.specs.Prelude.{◌≡◌, ℕ, ◌+◌, ◌^◌, ◌<◌, ◌≤◌, false, [], ◌++◌, length, position, slice_get, unwrap_or, if◌then◌else◌, nat_lt, ◌-◌, IfOk, OnErr};
ghost use Rattle.std.specs.Option.{option_map, option_and_then};
ghost use Rattle.std.specs.Str.{bytes_eq};
ghost use Rattle.sop_model.specs.Limits.{most_groups, most_vertices};
ghost use Rattle.sop_model.specs.Values.{default_of};
ghost use Rattle.sop_cells.specs.Shelves.{Shifts};
ghost use Rattle.sop_tables.specs.Tables.{held, places_in, IsHeld, HasRoomFor, IsColumnOf, IsTable, IsNoStep};
ghost use Rattle.sop_tables.specs.Changes.{head_at, first_flag, first_values, values_or, values_under, flag_named, IsOther, IsNewColumn, IsNewMembers};

use crate::beside;
use crate::table::Table;
use sop_cells::Shelf;
use sop_columns::{BitColumn, Column, Names};
use sop_model::Head;
use sop_outside::Text;
use std::alloc::AllocError;

impl Table {
    /// The new column under the head with the number `k`: the values of this table's column, or defaults, and behind them those
    /// of the other table under that head.
    pub(crate) fn appended_column(
        &self,
        k: usize,
        head: &Head,
        other: &Table,
        shelf: &mut Shelf<'_>,
        names: &mut Names,
    ) -> Result<Column, AllocError>
        requires table { IsTable shelf.old names.old self.now }
        requires held { IsHeld shelf.old (places_in self.now) }
        requires other { IsOther shelf.old names.old other.now }
        requires most { self.now.count + other.now.count ≤ most_vertices }
        requires room { HasRoomFor shelf.old (2 ^ 24) }
        requires head { k < length self.now.columns → head.now ≡ head_at self.now.set.heads k }
        ensures made { IfOk result (IsNewColumn shelf.old shelf.new names.old names.new (self.now.count + other.now.count) head.now (first_values shelf.old names.old self.now k head.now ++ values_under shelf.old names.old other.now head.now)) }
        ensures err { OnErr result (IsNoStep shelf.old shelf.new names.old names.new) }
    {
        let second = other.column_under(head, shelf, names)?;
        let made = self.joined_column(k, head, &second, other.count, shelf, names);
        second.release(shelf);
        made
    }

    // The values of this table's column with the number `k`, or defaults, and behind them the first so many of another column.
    fn joined_column(
        &self,
        k: usize,
        head: &Head,
        second: &Column,
        more: u32,
        shelf: &mut Shelf<'_>,
        names: &mut Names,
    ) -> Result<Column, AllocError>
        requires table { IsTable shelf.old names.old self.now }
        requires held { IsHeld shelf.old (places_in self.now) }
        requires column { IsColumnOf shelf.old names.old more (default_of head.now.kind) second.now }
        requires column_held { IsHeld shelf.old second.now }
        requires most { self.now.count + more ≤ most_vertices }
        requires room { HasRoomFor shelf.old (2 ^ 22) }
        requires head { k < length self.now.columns → head.now ≡ head_at self.now.set.heads k }
        ensures made { IfOk result (IsNewColumn shelf.old shelf.new names.old names.new (self.now.count + more) head.now (first_values shelf.old names.old self.now k head.now ++ held shelf.old names.old more second.now)) }
        ensures err { OnErr result (IsNoStep shelf.old shelf.new names.old names.new) }
    {
        if let Some(column) = self.column_at(k) {
            return beside::joined_column(column, head, self.count, second, more, shelf, names);
        }
        let first = beside::fresh_column(self.alloc, head, self.count, shelf, names)?;
        let made = beside::joined_column(&first, head, self.count, second, more, shelf, names);
        first.release(shelf);
        made
    }

    /// The new column under the head with the number `k`: this table's, or, where it has none, the values of the other table under
    /// that head.
    pub(crate) fn widened_column(
        &self,
        k: usize,
        head: &Head,
        other: &Table,
        shelf: &mut Shelf<'_>,
        names: &mut Names,
    ) -> Result<Column, AllocError>
        requires table { IsTable shelf.old names.old self.now }
        requires held { IsHeld shelf.old (places_in self.now) }
        requires other { IsOther shelf.old names.old other.now }
        requires same { self.now.count ≡ other.now.count }
        requires room { HasRoomFor shelf.old (2 ^ 20) }
        requires head { k < length self.now.columns → head.now ≡ head_at self.now.set.heads k }
        ensures made { IfOk result (IsNewColumn shelf.old shelf.new names.old names.new self.now.count head.now (values_or shelf.old names.old self.now.count (values_under shelf.old names.old other.now head.now) (slice_get self.now.columns k))) }
        ensures err { OnErr result (IsNoStep shelf.old shelf.new names.old names.new) }
    {
        match self.column_at(k) {
            Some(column) => beside::longer_column(column, head, self.count, 0, shelf, names),
            None => other.column_under(head, shelf, names),
        }
    }

    // The values of this table's column of the head's name, put under the head; where there is none, defaults.
    fn column_under(
        &self,
        head: &Head,
        shelf: &mut Shelf<'_>,
        names: &mut Names,
    ) -> Result<Column, AllocError>
        requires other { IsOther shelf.old names.old self.now }
        requires room { HasRoomFor shelf.old (2 ^ 20) }
        ensures made { IfOk result (IsNewColumn shelf.old shelf.new names.old names.new self.now.count head.now (values_under shelf.old names.old self.now head.now)) }
        ensures err { OnErr result (IsNoStep shelf.old shelf.new names.old names.new) }
    {
        let Some(k) = self.find(head.name.as_str()) else {
            return beside::fresh_column(self.alloc, head, self.count, shelf, names);
        };
        let k = k as usize;
        let own = self.heads()[k].kind;
        beside::fitted_column(self.column(k), own, head, self.count, shelf, names)
    }

    /// The new members of the group with the number `k`: those of this table's, if it has so many, and behind them those of the
    /// other table's group of that name.
    pub(crate) fn appended_members(
        &self,
        k: usize,
        group: &Text,
        other: &Table,
        shelf: &mut Shelf<'_>,
        names: &Names,
    ) -> Result<BitColumn, AllocError>
        requires table { IsTable shelf.old names.now self.now }
        requires held { IsHeld shelf.old (places_in self.now) }
        requires other { IsOther shelf.old names.now other.now }
        requires most { self.now.count + other.now.count ≤ most_vertices }
        requires room { HasRoomFor shelf.old (2 ^ 20) }
        ensures made { IfOk result (IsNewMembers shelf.old shelf.new (self.now.count + other.now.count) (λ i. if nat_lt i self.now.count then first_flag shelf.old self.now k i else flag_named shelf.old other.now group.now (i - self.now.count))) }
        ensures err { OnErr result (Shifts shelf.old shelf.new [] []) }
    {
        let none = BitColumn::empty(self.alloc);
        let first = self.group_or(k, &none);
        let second = other.group_under(group.as_str(), &none);
        first.appended(self.count, shelf, second, other.count)
    }

    // The column with the number `k`, if there are so many.
    fn column_at(&self, k: usize) -> Option<&Column>
        ensures { option_map (λ column. column.now) result ≡ slice_get self.now.columns k }
    {
        self.columns.get(k)
    }

    // The members of the group with the number `k`, or none.
    fn group_or<'a>(&'a self, k: usize, none: &'a BitColumn) -> &'a BitColumn
        requires { none.now ≡ [] }
        ensures { result.now ≡ unwrap_or (slice_get self.now.members k) [] }
    {
        match self.members.get(k) {
            Some(members) => members,
            None => none,
        }
    }

    // The members of the group of this name, or none.
    fn group_under<'a>(&'a self, name: &str, none: &'a BitColumn) -> &'a BitColumn
        requires few { length self.now.set.groups ≤ most_groups }
        requires none { none.now ≡ [] }
        ensures { result.now ≡ unwrap_or (option_and_then (slice_get self.now.members) (position (λ g. bytes_eq g name.now) self.now.set.groups)) [] }
    {
        match self.find_group(name) {
            Some(place) => self.group_or(place as usize, none),
            None => none,
        }
    }
}
