// Copies of geometries and their parts, into memory of an allocator.
ghost use Rattle.std.specs.Prelude.{◌≡◌, IfOk};

use crate::geo::{Corner, Geo, Head, HeadSet, Primitive, Row};
use crate::value::Value;
use sop_outside::{Items, Text};
use std::alloc::{AllocError, Global};

/// What can be copied.
pub trait Copied: Sized + Drop {
    /// A copy in memory of `alloc`.
    fn copy(&self, alloc: Global) -> Result<Self, AllocError>
        ensures { IfOk result (λ made. made ≡ self.now) };
}

/// Copies of the items, in order.
pub fn copy_slice<T: Copied>(items: &[T], alloc: Global) -> Result<Vec<T>, AllocError>
    ensures { IfOk result (λ made. made.items ≡ items.now) }
{
    let mut made = Vec::with_capacity(alloc, items.len())?;
    for item in items {
        made.push(item.copy(alloc)?)?;
    }
    Ok(made)
}

/// Copies of the items, in order.
pub fn copy_items<T: Copied>(items: &Items<T>, alloc: Global) -> Result<Items<T>, AllocError>
    ensures { IfOk result (λ made. made ≡ items.now) }
{
    Ok(Items::from_vec(copy_slice(items.as_slice(), alloc)?))
}

/// Copies of plain items, in order.
pub(crate) fn copy_plain<T: Copy>(items: &Items<T>, alloc: Global) -> Result<Items<T>, AllocError>
    ensures { IfOk result (λ made. made ≡ items.now) }
{
    Ok(Items::from_vec(Vec::from_slice(alloc, items.as_slice())?))
}

impl Copied for Text {
    fn copy(&self, alloc: Global) -> Result<Text, AllocError> {
        Text::from_str(alloc, self.as_str())
    }
}

impl Copied for Value {
    fn copy(&self, alloc: Global) -> Result<Value, AllocError> {
        self.as_ref().to_value(alloc)
    }
}

impl Copied for Head {
    fn copy(&self, alloc: Global) -> Result<Head, AllocError> {
        Ok(Head {
            name: self.name.copy(alloc)?,
            kind: self.kind,
        })
    }
}

impl Copied for HeadSet {
    fn copy(&self, alloc: Global) -> Result<HeadSet, AllocError> {
        Ok(HeadSet {
            heads: copy_items(&self.heads, alloc)?,
            groups: copy_items(&self.groups, alloc)?,
        })
    }
}

impl Copied for Row {
    fn copy(&self, alloc: Global) -> Result<Row, AllocError> {
        Ok(Row {
            values: copy_items(&self.values, alloc)?,
            flags: copy_plain(&self.flags, alloc)?,
        })
    }
}

impl Copied for Corner {
    fn copy(&self, alloc: Global) -> Result<Corner, AllocError> {
        Ok(Corner {
            point: self.point,
            row: self.row.copy(alloc)?,
        })
    }
}

impl Copied for Primitive {
    fn copy(&self, alloc: Global) -> Result<Primitive, AllocError> {
        Ok(Primitive {
            closed: self.closed,
            row: self.row.copy(alloc)?,
            corners: copy_items(&self.corners, alloc)?,
        })
    }
}

impl Copied for Geo {
    fn copy(&self, alloc: Global) -> Result<Geo, AllocError> {
        Ok(Geo {
            detail: self.detail.copy(alloc)?,
            prim: self.prim.copy(alloc)?,
            point: self.point.copy(alloc)?,
            vertex: self.vertex.copy(alloc)?,
            points: copy_items(&self.points, alloc)?,
            prims: self.prims.copy(alloc)?,
            detail_row: self.detail_row.copy(alloc)?,
        })
    }
}
