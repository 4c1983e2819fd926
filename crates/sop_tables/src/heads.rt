//! Attributes and groups that come to a table, and attributes that go.
ghost use Rattle.std.specs.Prelude.{◌≡◌, ◌<◌, ◌≤◌, false, length, map, OnOk, OnErr};
ghost use Rattle.sop_model.specs.Limits.{most_heads, most_groups};
ghost use Rattle.sop_model.specs.Rows.{with_last_value, without_value, with_last_flag, with_last_head, without_head, with_last_group};
ghost use Rattle.sop_model.specs.Values.{default_of};
ghost use Rattle.sop_pages.specs.Pages.{live_pages};
ghost use Rattle.sop_cells.specs.Shelves.{ShelfPages};
ghost use Rattle.sop_columns.specs.Names.{NameTable, Grows};
ghost use Rattle.sop_tables.specs.Tables.{rows, places_in, IsTable, IsHeld, IsTableStep};

use crate::table::Table;
use sop_cells::Shelf;
use sop_columns::{BitColumn, Column, Names};
use sop_model::Head;
use sop_outside::{Items, Text};
use std::alloc::AllocError;
use std::mem;

impl Table {
    /// Adds an attribute behind the others, where there are fewer than a class may have. Each element has its default there.
    /// Other tables stay as they are. `Err` for want of memory: then only names may have come.
    pub fn add_attr(
        &mut self,
        head: Head,
        shelf: &mut Shelf<'_>,
        names: &mut Names,
    ) -> Result<(), AllocError>
        requires table { IsTable shelf.old names.old self.old }
        requires held { IsHeld shelf.old (places_in self.old) }
        requires room { length self.old.set.heads < most_heads }
        ensures rows { OnOk result (rows shelf.new names.new self.new
            ≡ map (with_last_value (default_of head.kind)) (rows shelf.old names.old self.old)) }
        ensures set { OnOk result (self.new.set ≡ with_last_head self.old.set head) }
        ensures count { self.new.count ≡ self.old.count }
        ensures step { OnOk result (IsTableStep shelf.old shelf.new names.old names.new self.old self.new) }
        ensures grows { Grows names.old names.new }
        ensures err { OnErr result ((shelf.new ≡ shelf.old) × (self.new ≡ self.old)) }
    {
        let kind = head.kind;
        self.columns.reserve(1)?;
        self.set.heads.add(head)?;
        match Column::new(self.alloc, kind, self.count, shelf, names) {
            Ok(column) => {
                self.columns.push_reserved(column);
                Ok(())
            }
            Err(error) => {
                self.set.heads.pop();
                Err(error)
            }
        }
    }

    /// Takes the attribute with the number `head`, from 0, away, with its values. Other tables stay as they are. It takes no
    /// memory.
    pub fn del_attr(&mut self, head: u32, shelf: &mut Shelf<'_>, names: &Names)
        requires table { IsTable shelf.old names.now self.old }
        requires held { IsHeld shelf.old (places_in self.old) }
        requires head { head < length self.old.set.heads }
        ensures rows { rows shelf.new names.now self.new ≡ map (without_value head) (rows shelf.old names.now self.old) }
        ensures set { self.new.set ≡ without_head self.old.set head }
        ensures count { self.new.count ≡ self.old.count }
        ensures step { IsTableStep shelf.old shelf.new names.now names.now self.old self.new }
        ensures pages { live_pages shelf.new.own ≤ live_pages shelf.old.own }
    {
        let heads = mem::replace(&mut self.set.heads, Items::new(self.alloc));
        let mut heads = heads.into_vec();
        heads.remove(head as usize);
        self.set.heads = Items::from_vec(heads);
        let column = self.columns.remove(head as usize);
        column.release(shelf);
    }

    /// Adds a group behind the others, where there are fewer than a class may have. It has no member. No page changes. `Err`
    /// for want of memory: then nothing changed.
    pub fn add_group(&mut self, name: Text) -> Result<(), AllocError>
        requires { length self.old.set.groups < most_groups }
        ensures rows { (s : ShelfPages) (n : NameTable) → OnOk result (rows s n self.new ≡ map (with_last_flag false) (rows s n self.old)) }
        ensures set { OnOk result (self.new.set ≡ with_last_group self.old.set name) }
        ensures count { self.new.count ≡ self.old.count }
        ensures step { (s : ShelfPages) (n : NameTable) → IsTable s n self.old → OnOk result (IsTableStep s s n n self.old self.new) }
        ensures err { OnErr result (self.new ≡ self.old) }
    {
        self.members.reserve(1)?;
        self.set.groups.add(name)?;
        self.members.push_reserved(BitColumn::empty(self.alloc));
        Ok(())
    }
}
