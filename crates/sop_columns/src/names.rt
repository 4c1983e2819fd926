//! The numbers of texts and lists.
ghost use Rattle.std.specs.Prelude.{◌≡◌, [], ◌<◌, length, slice_index_or, IsTrue, IsOk, IfOk};
ghost use Rattle.sop_model.specs.Values.{value_seen, kind_of, is_plain, default_of};
ghost use Rattle.sop_model.specs.declared.value.Value.TheVariants as value;
ghost use Rattle.sop_columns.specs.Names.{value_of, IsNumbered, IsThere, Grows};
ghost use Rattle.sop_columns.specs.Fitted.{fitted_to, IsDefault};
ghost use Rattle.sop_columns.specs.Lists.{value_listed};

use indexmap::IndexSet;
use sop_fixed::{Int, Real, Vec3};
use sop_model::copies::copy_items;
use sop_model::{IntList, Kind, RealList, Value, ValueRef, VectorList};
use sop_outside::{Items, Text, TextList};
use sop_pages::Cell;
use std::alloc::{AllocError, Global};
use std::marker::Model;

// A list that has a number.
#[derive(PartialEq, Eq, Hash, Drop)]
pub enum Listed {
    Ints(IntList),
    Reals(RealList),
    Vectors(VectorList),
    Strs(TextList),
}

/// The table of the texts and lists that cells name by their numbers. Each stands in it once, and it only grows, at its ends.
#[derive(Drop)]
pub struct Names {
    texts: IndexSet<Text>,
    lists: IndexSet<Listed>,
    alloc: Global,
}

impl Model for Names {
    ghost use Rattle.std.specs.Prelude.{map};
    ghost use Rattle.sop_columns.specs.Names.{NameTable};
    ghost use Rattle.sop_columns.specs.Lists.{value_listed};

    ghost Value = { NameTable };

    ghost view = { λ n. record { texts = n.texts.keys; lists = map value_listed n.lists.keys } };
}

impl Names {
    /// The table of no text and no list. It takes memory from `alloc` when it grows.
    pub fn new(alloc: Global) -> Names
        ensures { (result.texts ≡ []) × (result.lists ≡ []) }
    {
        Names {
            texts: IndexSet::new(alloc),
            lists: IndexSet::new(alloc),
            alloc,
        }
    }

    /// The value that a cell stands for, where what it names is in the table. It takes no memory.
    pub fn value(&self, cell: Cell) -> ValueRef<'_>
        requires { IsNumbered self.now cell }
        ensures { value_seen result ≡ value_of self.now cell }
    {
        match cell {
            Cell::Int(n) => ValueRef::Int(n),
            Cell::Real(x) => ValueRef::Real(x),
            Cell::Vector(v) => ValueRef::Vector(v),
            Cell::Name(number) => ValueRef::Str(self.text(number)),
            Cell::Many(number) => self.list(number),
        }
    }

    /// The cell that stands for a value. A text or a list that is in the table already keeps its number, and another one
    /// gets the next. `Err` comes for want of memory alone; the table may have grown then too.
    #[tactic(auto, using(crate::proofs::NameLemmas::grows_none))]
    pub fn cell(&mut self, value: &Value) -> Result<Cell, AllocError>
        ensures value { IfOk result (λ cell. value_of self.new cell ≡ value.now) }
        ensures numbered { IfOk result (λ cell. IsNumbered self.new cell) }
        ensures grows { Grows self.old self.new }
        ensures known { IsThere self.old value.now → self.new ≡ self.old }
        ensures plain { IsTrue (is_plain (kind_of value.now)) → IsOk result }
    {
        match value {
            Value::Int(n) => Ok(Cell::Int(*n)),
            Value::Real(x) => Ok(Cell::Real(*x)),
            Value::Vector(v) => Ok(Cell::Vector(*v)),
            Value::Str(text) => self.text_cell(text),
            Value::Ints(list) => self.list_cell(Listed::Ints(copy_of(list, self.alloc)?)),
            Value::Reals(list) => self.list_cell(Listed::Reals(copy_of(list, self.alloc)?)),
            Value::Vectors(list) => self.list_cell(Listed::Vectors(copy_of(list, self.alloc)?)),
            Value::Strs(list) => self.list_cell(Listed::Strs(copy_items(list, self.alloc)?)),
        }
    }

    /// The cell that stands for the default of a kind, as `cell` answers it.
    pub fn default_cell(&mut self, kind: Kind) -> Result<Cell, AllocError>
        ensures value { IfOk result (λ cell. value_of self.new cell ≡ default_of kind) }
        ensures numbered { IfOk result (λ cell. IsNumbered self.new cell) }
        ensures grows { Grows self.old self.new }
        ensures known { IsThere self.old (default_of kind) → self.new ≡ self.old }
    {
        let value = kind.default_value(self.alloc);
        self.cell(&value)
    }

    /// The cell that stands for the value of `cell` under a head of this kind: as the value is put there, else the kind's
    /// default. `Err` comes for want of memory alone; the table may have grown then too.
    #[tactic(auto, using(crate::proofs::NameLemmas::grows_then))]
    pub fn fitted(&mut self, cell: Cell, kind: Kind) -> Result<Cell, AllocError>
        requires { IsNumbered self.old cell }
        ensures value { IfOk result (λ new. value_of self.new new ≡ fitted_to kind (value_of self.old cell)) }
        ensures numbered { IfOk result (λ new. IsNumbered self.new new) }
        ensures grows { Grows self.old self.new }
    {
        let default = self.default_cell(kind)?;
        let new = self.fitted_or(&cell, kind, &default)?;
        Ok(new)
    }

    /// As `fitted`, where `default` stands for the kind's default. A cell of the kind stays, which takes no memory.
    #[tactic(auto, using(crate::proofs::NameLemmas::grows_none))]
    pub(crate) fn fitted_or(
        &mut self,
        cell: &Cell,
        kind: Kind,
        default: &Cell,
    ) -> Result<Cell, AllocError>
        requires cell { IsNumbered self.old cell.now }
        requires default { IsDefault self.old kind default.now }
        ensures value { IfOk result (λ new. value_of self.new new ≡ fitted_to kind (value_of self.old cell.now)) }
        ensures numbered { IfOk result (λ new. IsNumbered self.new new) }
        ensures grows { Grows self.old self.new }
    {
        let value = self.value(*cell);
        if value.kind() == kind {
            return Ok(*cell);
        }
        let Some(value) = value.put(kind) else {
            return Ok(*default);
        };
        let value = value.to_value(self.alloc)?;
        self.cell(&value)
    }

    // The text with a number.
    fn text(&self, number: u128) -> &str
        requires { number < length self.now.texts }
        ensures { result.now ≡ slice_index_or self.now.texts number [] }
    {
        let texts = self.texts.as_slice();
        texts[number as usize].as_str()
    }

    // The list with a number.
    fn list(&self, number: u128) -> ValueRef<'_>
        requires { number < length self.now.lists }
        ensures { value_seen result ≡ slice_index_or self.now.lists number (value_seen result) }
    {
        let lists = self.lists.as_slice();
        match &lists[number as usize] {
            Listed::Ints(list) => ValueRef::Ints(list),
            Listed::Reals(list) => ValueRef::Reals(list),
            Listed::Vectors(list) => ValueRef::Vectors(list),
            Listed::Strs(list) => ValueRef::Strs(list),
        }
    }

    // The cell of a text.
    fn text_cell(&mut self, text: &Text) -> Result<Cell, AllocError>
        ensures value { IfOk result (λ cell. value_of self.new cell ≡ value.Str text.now) }
        ensures numbered { IfOk result (λ cell. IsNumbered self.new cell) }
        ensures grows { Grows self.old self.new }
        ensures known { IsThere self.old (value.Str text.now) → self.new ≡ self.old }
    {
        if let Some(number) = self.texts.get_index_of(text) {
            return Ok(Cell::Name(number as u128));
        }
        let key = Text::from_str(self.alloc, text.as_str())?;
        let (number, _) = self.texts.insert_full(key)?;
        Ok(Cell::Name(number as u128))
    }

    // The cell of a list.
    fn list_cell(&mut self, list: Listed) -> Result<Cell, AllocError>
        ensures value { IfOk result (λ cell. value_of self.new cell ≡ value_listed list) }
        ensures numbered { IfOk result (λ cell. IsNumbered self.new cell) }
        ensures grows { Grows self.old self.new }
        ensures known { IsThere self.old (value_listed list) → self.new ≡ self.old }
    {
        let (number, _) = self.lists.insert_full(list)?;
        Ok(Cell::Many(number as u128))
    }
}

// A copy of the list.
fn copy_of<T: Copy>(list: &Items<T>, alloc: Global) -> Result<Items<T>, AllocError>
    ensures { IfOk result (λ made. made ≡ list.now) }
{
    Ok(Items::from_vec(Vec::from_slice(alloc, list.as_slice())?))
}
