//! Geometries of rows that are taken point by point and primitive by primitive.
ghost use Rattle.std.specs.Prelude.{◌≡◌, ◌++◌, map, IfOk, OnOk};
ghost use Rattle.sop_model.specs.Geometry.{empty_geo};
ghost use Rattle.geo_text.specs.ObjTaking.{value_if, made_of, flag_more, point_row, vertex_row, vertex_taken, prim_from};

use crate::frame::{begun, group_named};
use crate::taker::{Attributes, ObjTaker, Room, Vertex};
use crate::zero::zero_vector;
use sop_fixed::Vec3;
use sop_model::{
    Corner, CornerList, FlagList, Geo, PrimList, Primitive, Row, RowList, Value, ValueList,
};
use sop_outside::{Items, Text, TextList};
use std::alloc::{AllocError, Global};

/// A geometry of rows that is taken.
#[derive(Debug, Drop)]
pub struct GeoMaker {
    alloc: Global,
    attributes: Attributes,
    points: RowList,
    groups: TextList,
    prims: Vec<Primitive>,
}

impl GeoMaker {
    /// Nothing was taken, and there are no attributes beside `P`. It takes no memory.
    pub fn new(alloc: Global) -> GeoMaker
        ensures { made_of result.attributes result.points result.groups result.prims.items ≡ empty_geo }
    {
        GeoMaker {
            alloc,
            attributes: Attributes {
                colour: false,
                texture: false,
                normal: false,
            },
            points: RowList::new(alloc),
            groups: TextList::new(alloc),
            prims: Vec::new(alloc),
        }
    }

    /// What was taken.
    pub fn into_geo(self) -> Result<Geo, AllocError>
        ensures { IfOk result (λ geo. geo ≡ made_of self.attributes self.points self.groups self.prims.items) }
    {
        let GeoMaker {
            alloc,
            attributes,
            points,
            groups,
            prims,
        } = self;
        let mut geo = begun(alloc, attributes)?;
        geo.points = points;
        geo.prims = PrimList::from_vec(alloc, prims)?;
        geo.prim.groups = groups;
        Ok(geo)
    }
}

impl ObjTaker for GeoMaker {
    ghost attributes = { λ m. m.attributes };

    ghost taken = { λ m. made_of m.attributes m.points m.groups m.prims.items };

    fn begin(&mut self, has: Attributes, room: Room) -> Result<(), AllocError> {
        self.attributes = has;
        self.points = RowList::with_capacity(self.alloc, room.points)?;
        self.groups = TextList::new(self.alloc);
        self.prims = Vec::with_capacity(self.alloc, room.prims)?;
        Ok(())
    }

    fn take_point(&mut self, place: Vec3, colour: Option<Vec3>) -> Result<(), AllocError> {
        self.points
            .add(point_row(self.alloc, self.attributes, place, colour)?)
    }

    fn groups(&self) -> usize {
        self.groups.len()
    }

    fn find_group(&self, name: &str) -> Option<usize> {
        group_named(&self.groups, name)
    }

    fn take_group(&mut self, name: Text) -> Result<(), AllocError> {
        self.groups.add(name)?;
        add_flags(&mut self.prims)
    }

    fn take_prim(
        &mut self,
        closed: bool,
        vertices: &[Vertex],
        groups: &[bool],
    ) -> Result<(), AllocError> {
        let prim = prim_from(self.alloc, self.attributes, closed, vertices, groups)?;
        self.prims.push(prim)?;
        Ok(())
    }
}

/// A further group without members.
fn add_flags(prims: &mut [Primitive]) -> Result<(), AllocError>
    ensures { OnOk result (prims.new ≡ map flag_more prims.old) }
{
    for prim in prims.iter_mut() {
        prim.row.flags.add(false)?;
    }
    Ok(())
}

fn point_row(
    alloc: Global,
    has: Attributes,
    place: Vec3,
    colour: Option<Vec3>,
) -> Result<Row, AllocError>
    ensures { IfOk result (λ row. row ≡ point_row has place colour) }
{
    let mut values = ValueList::with_capacity(alloc, 1 + usize::from(has.colour))?;
    values.add(Value::Vector(place))?;
    add_value(&mut values, has.colour, colour.unwrap_or(zero_vector()))?;
    Ok(Row {
        values,
        flags: FlagList::new(alloc),
    })
}

/// Puts a vector behind the values, where it is wanted.
fn add_value(values: &mut ValueList, is_wanted: bool, value: Vec3) -> Result<(), AllocError>
    ensures { OnOk result (values.new ≡ values.old ++ value_if is_wanted value) }
{
    if is_wanted {
        values.add(Value::Vector(value))
    } else {
        Ok(())
    }
}

fn vertex_row(alloc: Global, has: Attributes, vertex: &Vertex) -> Result<Row, AllocError>
    ensures { IfOk result (λ row. row ≡ vertex_row has vertex.now) }
{
    let count = usize::from(has.texture) + usize::from(has.normal);
    let mut values = ValueList::with_capacity(alloc, count)?;
    add_value(&mut values, has.texture, vertex.texture)?;
    add_value(&mut values, has.normal, vertex.normal)?;
    Ok(Row {
        values,
        flags: FlagList::new(alloc),
    })
}

fn corners_of(alloc: Global, has: Attributes, vertices: &[Vertex]) -> Result<CornerList, AllocError>
    ensures { IfOk result (λ corners. corners ≡ map (vertex_taken has) vertices.now) }
{
    let mut corners = CornerList::with_capacity(alloc, vertices.len())?;
    for vertex in vertices {
        corners.add(Corner {
            point: vertex.point,
            row: vertex_row(alloc, has, vertex)?,
        })?;
    }
    Ok(corners)
}

fn prim_from(
    alloc: Global,
    has: Attributes,
    closed: bool,
    vertices: &[Vertex],
    groups: &[bool],
) -> Result<Primitive, AllocError>
    ensures { IfOk result (λ prim. prim ≡ prim_from has closed vertices.now groups.now) }
{
    let corners = corners_of(alloc, has, vertices)?;
    let flags = Vec::from_slice(alloc, groups)?;
    Ok(Primitive {
        closed,
        row: Row {
            values: ValueList::new(alloc),
            flags: Items::from_vec(flags),
        },
        corners,
    })
}
