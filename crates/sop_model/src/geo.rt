// A geometry as rows of values.
ghost use Rattle.std.specs.Prelude.{◌≡◌, IfOk};
ghost use Rattle.sop_model.specs.Geometry.{empty_row, no_heads, only_position, empty_geo};

use crate::primitives::PrimList;
use crate::value::{Kind, Value};
use sop_outside::{Items, Text, TextList};
use std::alloc::{AllocError, Global};

/// The attributes of a class.
pub type HeadList = Items<Head>;

/// The values of an element, one for each attribute of its class.
pub type ValueList = Items<Value>;

/// Whether an element is a member, for each group of its class.
pub type FlagList = Items<bool>;

/// The vertices of a primitive.
pub type CornerList = Items<Corner>;

/// The rows of points.
pub type RowList = Items<Row>;

/// The field's short name for a primitive.
pub type Prim = Primitive;

/// An attribute's name and kind. A name is a letter or `_`, then letters, digits or `_`, 1 to 64 bytes.
#[derive(Debug, Drop)]
pub struct Head {
    pub name: Text,
    pub kind: Kind,
}

/// The attributes and groups of one class, in order.
#[derive(Debug, Drop)]
pub struct HeadSet {
    pub heads: HeadList,
    pub groups: TextList,
}

/// What one element has: a value for each head of its class, and a flag for each group.
#[derive(Debug, Drop)]
pub struct Row {
    pub values: ValueList,
    pub flags: FlagList,
}

/// A vertex: it belongs to the primitive that it stands in, and refers to one point by its number.
#[derive(Debug, Drop)]
pub struct Corner {
    pub point: u32,
    pub row: Row,
}

/// A primitive with its vertices in order.
#[derive(Debug, Drop)]
pub struct Primitive {
    pub closed: bool,
    pub row: Row,
    pub corners: CornerList,
}

/// A geometry.
#[derive(Debug, Drop)]
pub struct Geo {
    pub detail: HeadSet,
    pub prim: HeadSet,
    pub point: HeadSet,
    pub vertex: HeadSet,
    pub points: RowList,
    pub prims: PrimList,
    pub detail_row: Row,
}

impl Row {
    /// The row without values and flags. It takes no memory.
    pub fn empty(alloc: Global) -> Row
        ensures { result ≡ empty_row }
    {
        Row {
            values: Items::new(alloc),
            flags: Items::new(alloc),
        }
    }
}

impl HeadSet {
    /// No attribute and no group. It takes no memory.
    pub fn empty(alloc: Global) -> HeadSet
        ensures { result ≡ no_heads }
    {
        HeadSet {
            heads: Items::new(alloc),
            groups: Items::new(alloc),
        }
    }

    /// The attribute `P`, a vector, alone.
    pub fn position(alloc: Global) -> Result<HeadSet, AllocError>
        ensures { IfOk result (λ set. set ≡ only_position) }
    {
        let mut heads = HeadList::new(alloc);
        heads.add(Head {
            name: Text::from_str(alloc, "P")?,
            kind: Kind::Vector,
        })?;
        Ok(HeadSet {
            heads,
            groups: Items::new(alloc),
        })
    }
}

impl Geo {
    /// The empty geometry: no element but the detail, and the point attribute `P` alone.
    pub fn empty(alloc: Global) -> Result<Geo, AllocError>
        ensures { IfOk result (λ geo. geo ≡ empty_geo) }
    {
        Geo::plain(alloc, RowList::new(alloc), PrimList::new(alloc))
    }
}
