//! The table of a class: what it holds, its reads, and copies that hold the same pages.
ghost use Rattle.std.specs.Prelude.{◌≡◌, ◌↔◌, [], ◌<◌, ◌≤◌, length, position, Some, None, slice_get, IsTrue, IfOk, OnOk, OnErr};
ghost use Rattle.std.specs.Option.{option_and_then};
ghost use Rattle.std.specs.Str.{bytes_eq};
ghost use Rattle.sop_model.specs.Limits.{most_heads, most_groups};
ghost use Rattle.sop_pages.specs.Pages.{live_pages};
ghost use Rattle.sop_cells.specs.Shelves.{Shifts};
ghost use Rattle.sop_model.specs.Values.{value_seen};
ghost use Rattle.sop_model.specs.Geometry.{AreKept, set_bounds};
ghost use Rattle.sop_rows.specs.Both.{both_sets};
ghost use Rattle.sop_tables.specs.Tables.{rows, places_in, IsTable, IsHeld, HasRoom};

use crate::{lots, sets};
use sop_cells::Shelf;
use sop_columns::{BitColumn, Column, Names};
use sop_model::copies::Copied;
use sop_model::{Head, HeadSet, ValueRef};
use sop_outside::Text;
use std::alloc::{AllocError, Global};
use std::marker::Model;

/// The attributes and groups of one class, with a column of values for each attribute and the members of each group.
/// Contracts see the places of their pages, and by `rows` what they stand for on a shelf and with its names.
#[derive(Drop)]
pub struct Table {
    pub(crate) set: HeadSet,
    pub(crate) columns: Vec<Column>,
    pub(crate) members: Vec<BitColumn>,
    pub(crate) count: u32,
    pub(crate) alloc: Global,
}

impl Model for Table {
    ghost use Rattle.sop_tables.specs.Tables.{TableLists};

    ghost Value = { TableLists };

    ghost view = { λ t. record { set = t.set; columns = t.columns.items; members = t.members.items; count = t.count } };
}

impl Table {
    /// The attributes, in order.
    pub fn heads(&self) -> &[Head]
        ensures { result.now ≡ self.now.set.heads }
    {
        self.set.heads.as_slice()
    }

    /// The names of the groups, in order.
    pub fn groups(&self) -> &[Text]
        ensures { result.now ≡ self.now.set.groups }
    {
        self.set.groups.as_slice()
    }

    /// The number of elements.
    pub fn count(&self) -> u32
        ensures { result ≡ self.now.count }
    {
        self.count
    }

    /// The number of the attribute of this name; `None` exactly where there is none.
    pub fn find(&self, name: &str) -> Option<u32>
        requires { length self.now.set.heads ≤ most_heads }
        ensures { result ≡ position (λ h. bytes_eq h.name name.now) self.now.set.heads }
    {
        match self
            .heads()
            .iter()
            .position(|head| head.name.as_str() == name)
        {
            Some(place) => Some(place as u32),
            None => None,
        }
    }

    /// The number of the group of this name; `None` exactly where there is none.
    pub fn find_group(&self, name: &str) -> Option<u32>
        requires { length self.now.set.groups ≤ most_groups }
        ensures { result ≡ position (λ g. bytes_eq g name.now) self.now.set.groups }
    {
        match self
            .groups()
            .iter()
            .position(|group| group.as_str() == name)
        {
            Some(place) => Some(place as u32),
            None => None,
        }
    }

    /// Whether a class may have the attributes and groups of both tables. It takes no memory.
    pub fn sets_fit(&self, other: &Table) -> bool
        requires own { AreKept (set_bounds self.now.set) }
        requires other { AreKept (set_bounds other.now.set) }
        ensures { IsTrue result ↔ AreKept (set_bounds (both_sets self.now.set other.now.set)) }
    {
        sets::both_fit(&self.set, &other.set)
    }

    /// The value of an element under the attribute with the number `head`, both from 0. It takes no memory.
    pub fn get<'n>(
        &self,
        shelf: &Shelf<'_>,
        names: &'n Names,
        head: u32,
        element: u32,
    ) -> ValueRef<'n>
        requires table { IsTable shelf.now names.now self.now }
        requires held { IsHeld shelf.now (places_in self.now) }
        requires head { head < length self.now.set.heads }
        requires element { element < self.now.count }
        ensures { option_and_then (λ row. slice_get row.values head) (slice_get (rows shelf.now names.now self.now) element)
            ≡ Some (value_seen result) }
    {
        self.columns[head as usize].get(shelf, names, element)
    }

    /// Whether an element is in the group with the number `group`, both from 0. It takes no memory.
    pub fn member(&self, shelf: &Shelf<'_>, names: &Names, group: u32, element: u32) -> bool
        requires table { IsTable shelf.now names.now self.now }
        requires held { IsHeld shelf.now (places_in self.now) }
        requires group { group < length self.now.set.groups }
        requires element { element < self.now.count }
        ensures { option_and_then (λ row. slice_get row.flags group) (slice_get (rows shelf.now names.now self.now) element) ≡ Some result }
    {
        self.members[group as usize].get(shelf, element)
    }

    /// An equal table. The shelf doesn't count its places before `hold`; `Err` for want of memory.
    pub fn copy(&self) -> Result<Table, AllocError>
        ensures { IfOk result (λ t. t ≡ self.now) }
    {
        Ok(Table {
            set: self.set.copy(self.alloc)?,
            columns: lots::copy_columns(self.alloc, self.columns.as_slice())?,
            members: lots::copy_members(self.alloc, self.members.as_slice())?,
            count: self.count,
            alloc: self.alloc,
        })
    }

    /// Counts the places of a copy. It takes no memory.
    pub fn hold(&self, shelf: &mut Shelf<'_>)
        requires held { IsHeld shelf.old (places_in self.now) }
        requires room { HasRoom shelf.old (places_in self.now) }
        ensures shifts { Shifts shelf.old shelf.new [] (places_in self.now) }
        ensures pages { live_pages shelf.new.own ≡ live_pages shelf.old.own }
    {
        lots::hold_columns(self.columns.as_slice(), shelf);
        lots::hold_members(self.members.as_slice(), shelf);
    }

    /// An equal table that holds the same pages; `Err` for want of memory.
    pub fn copy_beside(&self, shelf: &mut Shelf<'_>) -> Result<Table, AllocError>
        requires held { IsHeld shelf.old (places_in self.now) }
        requires room { HasRoom shelf.old (places_in self.now) }
        ensures same { IfOk result (λ t. t ≡ self.now) }
        ensures shifts { OnOk result (Shifts shelf.old shelf.new [] (places_in self.now)) }
        ensures pages { live_pages shelf.new.own ≡ live_pages shelf.old.own }
        ensures err { OnErr result (shelf.new ≡ shelf.old) }
    {
        let table = self.copy()?;
        table.hold(shelf);
        Ok(table)
    }

    /// Lets all its pages go. It takes no memory.
    pub fn release(self, shelf: &mut Shelf<'_>)
        requires held { IsHeld shelf.old (places_in self) }
        ensures shifts { Shifts shelf.old shelf.new (places_in self) [] }
        ensures pages { live_pages shelf.new.own ≤ live_pages shelf.old.own }
    {
        let Table {
            set: _,
            columns,
            members,
            count: _,
            alloc: _,
        } = self;
        lots::release_columns(columns, shelf);
        lots::release_members(members, shelf);
    }
}
