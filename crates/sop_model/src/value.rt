// Kinds of values, values, and values that are looked at.
ghost use Rattle.std.specs.Prelude.{◌≡◌, ◌+◌, ◌*◌, min, sum_by, pos, IsTrue, IsOk, IfOk};
ghost use Rattle.std.specs.List.{list_all};
ghost use Rattle.std.specs.Option.{option_map};
ghost use Rattle.sop_model.specs.Values.{default_of, is_plain, is_text_within, is_value_within, kind_of, kind_seen, put, text_weight, value_seen, weight_of, zero_vector};

use crate::copies::{copy_items, copy_plain};
use crate::limits::{MOST_LIST_ITEMS, MOST_STRING_BYTES};
use sop_fixed::int::Int;
use sop_fixed::real::Real;
use sop_fixed::vec3::Vec3;
use sop_outside::{Items, Text, TextList};
use std::alloc::{AllocError, Global};

/// What an attribute holds: one number, vector or string, or a list of one of these.
#[derive(Clone, Copy, Debug, PartialEq, Eq)]
pub enum Kind {
    Int,
    Real,
    Vector,
    Str,
    Ints,
    Reals,
    Vectors,
    Strs,
}

/// A list of whole numbers.
pub type IntList = Items<Int>;

/// A list of reals.
pub type RealList = Items<Real>;

/// A list of vectors.
pub type VectorList = Items<Vec3>;

/// A value of one of the eight kinds.
#[derive(Debug, Drop)]
pub enum Value {
    Int(Int),
    Real(Real),
    Vector(Vec3),
    Str(Text),
    Ints(IntList),
    Reals(RealList),
    Vectors(VectorList),
    Strs(TextList),
}

/// A value that is looked at: numbers by copy, texts and lists by reference.
#[derive(Clone, Copy)]
pub enum ValueRef<'a> {
    Int(Int),
    Real(Real),
    Vector(Vec3),
    Str(&'a str),
    Ints(&'a IntList),
    Reals(&'a RealList),
    Vectors(&'a VectorList),
    Strs(&'a TextList),
}

impl Kind {
    /// The value that an element has before it is given one: zero, the empty text or the empty list. It takes no memory.
    pub fn default_value(self, alloc: Global) -> Value
        ensures { result ≡ default_of self }
    {
        match self {
            Kind::Int => Value::Int(zero_int()),
            Kind::Real => Value::Real(zero_real()),
            Kind::Vector => Value::Vector(zero_vector()),
            Kind::Str => Value::Str(Text::from_string(String::new(alloc))),
            Kind::Ints => Value::Ints(Items::new(alloc)),
            Kind::Reals => Value::Reals(Items::new(alloc)),
            Kind::Vectors => Value::Vectors(Items::new(alloc)),
            Kind::Strs => Value::Strs(Items::new(alloc)),
        }
    }
}

impl Value {
    /// The kind of this value.
    pub fn kind(&self) -> Kind
        ensures { result ≡ kind_of self.now }
    {
        match self {
            Value::Int(_) => Kind::Int,
            Value::Real(_) => Kind::Real,
            Value::Vector(_) => Kind::Vector,
            Value::Str(_) => Kind::Str,
            Value::Ints(_) => Kind::Ints,
            Value::Reals(_) => Kind::Reals,
            Value::Vectors(_) => Kind::Vectors,
            Value::Strs(_) => Kind::Strs,
        }
    }

    /// This value, looked at.
    pub fn as_ref(&self) -> ValueRef<'_>
        ensures { value_seen result ≡ self.now }
    {
        match self {
            Value::Int(n) => ValueRef::Int(*n),
            Value::Real(x) => ValueRef::Real(*x),
            Value::Vector(v) => ValueRef::Vector(*v),
            Value::Str(text) => ValueRef::Str(text.as_str()),
            Value::Ints(list) => ValueRef::Ints(list),
            Value::Reals(list) => ValueRef::Reals(list),
            Value::Vectors(list) => ValueRef::Vectors(list),
            Value::Strs(list) => ValueRef::Strs(list),
        }
    }

    /// This value where `kind` is wanted; None where it doesn't go there. It takes no memory.
    pub fn put(self, kind: Kind) -> Option<Value>
        ensures { result ≡ put kind self }
    {
        match (kind, self) {
            (Kind::Int, Value::Int(n)) => Some(Value::Int(n)),
            (Kind::Int, Value::Real(x)) => Some(Value::Int(x.to_int())),
            (Kind::Real, Value::Real(x)) => Some(Value::Real(x)),
            (Kind::Real, Value::Int(n)) => n.to_real().ok().map(Value::Real),
            (Kind::Vector, Value::Vector(v)) => Some(Value::Vector(v)),
            (Kind::Str, Value::Str(text)) => Some(Value::Str(text)),
            (Kind::Ints, Value::Ints(list)) => Some(Value::Ints(list)),
            (Kind::Reals, Value::Reals(list)) => Some(Value::Reals(list)),
            (Kind::Vectors, Value::Vectors(list)) => Some(Value::Vectors(list)),
            (Kind::Strs, Value::Strs(list)) => Some(Value::Strs(list)),
            _ => None,
        }
    }
}

impl<'a> ValueRef<'a> {
    /// The kind of this value.
    pub fn kind(&self) -> Kind
        ensures { result ≡ kind_seen self.now }
    {
        match self {
            ValueRef::Int(_) => Kind::Int,
            ValueRef::Real(_) => Kind::Real,
            ValueRef::Vector(_) => Kind::Vector,
            ValueRef::Str(_) => Kind::Str,
            ValueRef::Ints(_) => Kind::Ints,
            ValueRef::Reals(_) => Kind::Reals,
            ValueRef::Vectors(_) => Kind::Vectors,
            ValueRef::Strs(_) => Kind::Strs,
        }
    }

    /// This value where `kind` is wanted; None where it doesn't go there. It takes no memory.
    pub fn put(&self, kind: Kind) -> Option<ValueRef<'a>>
        ensures { option_map value_seen result ≡ put kind (value_seen self.now) }
    {
        match (kind, self) {
            (Kind::Int, ValueRef::Int(n)) => Some(ValueRef::Int(*n)),
            (Kind::Int, ValueRef::Real(x)) => Some(ValueRef::Int(x.to_int())),
            (Kind::Real, ValueRef::Real(x)) => Some(ValueRef::Real(*x)),
            (Kind::Real, ValueRef::Int(n)) => match n.to_real() {
                Ok(x) => Some(ValueRef::Real(x)),
                Err(_) => None,
            },
            (Kind::Vector, ValueRef::Vector(v)) => Some(ValueRef::Vector(*v)),
            (Kind::Str, ValueRef::Str(text)) => Some(ValueRef::Str(text)),
            (Kind::Ints, ValueRef::Ints(list)) => Some(ValueRef::Ints(list)),
            (Kind::Reals, ValueRef::Reals(list)) => Some(ValueRef::Reals(list)),
            (Kind::Vectors, ValueRef::Vectors(list)) => Some(ValueRef::Vectors(list)),
            (Kind::Strs, ValueRef::Strs(list)) => Some(ValueRef::Strs(list)),
            _ => None,
        }
    }

    /// A copy of the value. Err comes for want of memory, and for a number or a vector never.
    pub fn to_value(&self, alloc: Global) -> Result<Value, AllocError>
        ensures value { IfOk result (λ made. made ≡ value_seen self.now) }
        ensures plain { IsTrue (is_plain (kind_seen self.now)) → IsOk result }
    {
        Ok(match self {
            ValueRef::Int(n) => Value::Int(*n),
            ValueRef::Real(x) => Value::Real(*x),
            ValueRef::Vector(v) => Value::Vector(*v),
            ValueRef::Str(text) => Value::Str(Text::from_str(alloc, text)?),
            ValueRef::Ints(list) => Value::Ints(copy_plain(list, alloc)?),
            ValueRef::Reals(list) => Value::Reals(copy_plain(list, alloc)?),
            ValueRef::Vectors(list) => Value::Vectors(copy_plain(list, alloc)?),
            ValueRef::Strs(list) => Value::Strs(copy_items(list, alloc)?),
        })
    }

    /// What the value weighs, or `u64::MAX` where that is less: 1 for a number, 3 for a vector, 1 and one more for each whole
    /// eighth of its bytes for a string, 1 and its items' weights for a list. It takes no memory, and time that grows with
    /// the number of strings of a list of strings alone.
    pub fn weight(&self) -> u64
        ensures weight { result ≡ min (weight_of (value_seen self.now)) u64.MAX }
        ensures exact { IsTrue (is_value_within (value_seen self.now)) → result ≡ weight_of (value_seen self.now) }
    {
        match self {
            ValueRef::Int(_) | ValueRef::Real(_) => 1,
            ValueRef::Vector(_) => 3,
            ValueRef::Str(text) => text_weight(text),
            ValueRef::Ints(list) => items_weight(1, list.len()),
            ValueRef::Reals(list) => items_weight(1, list.len()),
            ValueRef::Vectors(list) => items_weight(3, list.len()),
            ValueRef::Strs(list) => texts_weight(list.as_slice()),
        }
    }

    /// Whether the value is within its limits: a string of at most 4,096 bytes, a list of at most 4,096 items, each string in
    /// it such a string. It takes no memory.
    pub fn is_within(&self) -> bool
        ensures { result ≡ is_value_within (value_seen self.now) }
    {
        match self {
            ValueRef::Int(_) | ValueRef::Real(_) | ValueRef::Vector(_) => true,
            ValueRef::Str(text) => is_text_within(text),
            ValueRef::Ints(list) => list.len() <= MOST_LIST_ITEMS,
            ValueRef::Reals(list) => list.len() <= MOST_LIST_ITEMS,
            ValueRef::Vectors(list) => list.len() <= MOST_LIST_ITEMS,
            ValueRef::Strs(list) => {
                list.len() <= MOST_LIST_ITEMS && are_texts_within(list.as_slice())
            }
        }
    }
}

fn text_weight(text: &str) -> u64
    ensures { result ≡ text_weight text.now }
{
    1 + text.len() as u64 / 8
}

/// The weight of a list of so many items of one weight, or `u64::MAX` where that is less.
fn items_weight(weight: u64, count: usize) -> u64
    ensures { result ≡ min (1 + weight * count) u64.MAX }
{
    (count as u64).saturating_mul(weight).saturating_add(1)
}

/// The weight of a list of these texts, or `u64::MAX` where that is less.
fn texts_weight(texts: &[Text]) -> u64
    ensures { result ≡ min (1 + sum_by text_weight texts.now) u64.MAX }
{
    let mut weight: u64 = 1;
    for text in texts {
        weight = weight.saturating_add(text_weight(text.as_str()));
    }
    weight
}

fn is_text_within(text: &str) -> bool
    ensures { result ≡ is_text_within text.now }
{
    text.len() <= MOST_STRING_BYTES
}

fn are_texts_within(texts: &[Text]) -> bool
    ensures { result ≡ list_all is_text_within texts.now }
{
    texts.iter().all(|text| is_text_within(text.as_str()))
}

fn zero_int() -> Int
    ensures { result ≡ pos 0 }
{
    match Int::of(0) {
        Ok(zero) => zero,
        Err(_) => unreachable!(),
    }
}

fn zero_real() -> Real
    ensures { result ≡ pos 0 }
{
    match Real::of_millionths(0) {
        Ok(zero) => zero,
        Err(_) => unreachable!(),
    }
}

fn zero_vector() -> Vec3
    ensures { result ≡ zero_vector }
{
    let zero = zero_real();
    Vec3 {
        x: zero,
        y: zero,
        z: zero,
    }
}
