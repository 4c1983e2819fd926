//! Geometries in columns that are taken point by point and primitive by primitive.
ghost use Rattle.std.specs.Prelude.{◌≡◌, ◌++◌, ◌∷◌, [], take, IfOk, OnOk, IsTrue, unwrap_or};
ghost use Rattle.sop_model.specs.Values.{zero_vector};
ghost use Rattle.sop_model.specs.Geometry.{empty_geo};
ghost use Rattle.geo_text.specs.ObjTaking.{begun};
ghost use Rattle.geo_text.specs.ObjColumns.{columns_geo, Fills, last_end};

use crate::frame::{begun, group_named};
use crate::taker::{Attributes, ObjTaker, Room, Vertex};
use crate::vertex_columns::VertexColumns;
use crate::zero::zero_vector;
use sop_fixed::Vec3;
use sop_model::Geo;
use sop_outside::Text;
use std::alloc::{AllocError, Global};
use std::marker::Model;

/// A primitive but for its vertices.
#[derive(Debug, Drop)]
pub(crate) struct Outline {
    pub(crate) closed: bool,
    /// How many groups there were when it was taken.
    pub(crate) known: usize,
    /// Whether it is in each of them.
    pub(crate) flags: Vec<bool>,
}

/// A geometry that is taken in columns, a list of vectors for each attribute, so that its rows are never made. It is read as a
/// view.
#[derive(Debug, Drop)]
pub struct ObjColumns {
    pub(crate) alloc: Global,
    pub(crate) attributes: Attributes,
    /// The geometry without points and primitives.
    pub(crate) frame: Geo,
    pub(crate) places: Vec<Vec3>,
    pub(crate) colours: Vec<Vec3>,
    /// For each primitive the number behind that of its last vertex.
    pub(crate) ends: Vec<u32>,
    pub(crate) outlines: Vec<Outline>,
    /// The values of the vertices.
    pub(crate) vertices: VertexColumns,
}

impl Model for ObjColumns {
    ghost use Rattle.geo_text.specs.ObjColumns.{ColumnLists, columns_with, AreComplete};

    ghost Value = { ColumnLists };

    ghost view = { λ c. columns_with c.attributes c.frame c.places.items c.colours.items c.ends.items c.outlines.items c.vertices.refers.items c.vertices.textures.items c.vertices.normals.items };

    ghost invariant = { λ c. AreComplete (columns_with c.attributes c.frame c.places.items c.colours.items c.ends.items c.outlines.items c.vertices.refers.items c.vertices.textures.items c.vertices.normals.items) };
}

impl ObjColumns {
    /// Nothing was taken, and there is no attribute beside `P`. `Err` for want of memory.
    pub fn new(alloc: Global) -> Result<ObjColumns, AllocError>
        ensures { IfOk result (λ c. columns_geo c ≡ empty_geo) }
    {
        let has = Attributes {
            colour: false,
            texture: false,
            normal: false,
        };
        let room = Room {
            points: 0,
            prims: 0,
            vertices: 0,
        };
        ObjColumns::with_room(alloc, has, room)
    }

    fn with_room(alloc: Global, has: Attributes, room: Room) -> Result<ObjColumns, AllocError>
        ensures attributes { IfOk result (λ c. c.attributes ≡ has) }
        ensures geo { IfOk result (λ c. columns_geo c ≡ begun has) }
    {
        let colours = if has.colour { room.points } else { 0 };
        Ok(ObjColumns {
            alloc,
            attributes: has,
            frame: begun(alloc, has)?,
            places: Vec::with_capacity(alloc, room.points)?,
            colours: Vec::with_capacity(alloc, colours)?,
            ends: Vec::with_capacity(alloc, room.prims)?,
            outlines: Vec::with_capacity(alloc, room.prims)?,
            vertices: VertexColumns::with_room(alloc, has, room.vertices)?,
        })
    }

    /// How many vertices were taken.
    pub(crate) fn vertex_count(&self) -> u32
        ensures { result ≡ last_end 0 self.now.ends }
    {
        self.ends.last().copied().unwrap_or(0)
    }
}

/// Puts the colour of a point behind the first `count`, where there are colours. A point without one has zero.
fn put_colour(
    colours: &mut Vec<Vec3>,
    has_colours: bool,
    count: usize,
    colour: Option<Vec3>,
) -> Result<(), AllocError>
    requires { Fills has_colours count colours.old.items }
    ensures ok { OnOk result (IsTrue has_colours → colours.new.items ≡ take count colours.old.items ++ unwrap_or colour zero_vector ∷ []) }
    ensures stay { Fills has_colours count colours.new.items }
{
    if has_colours {
        colours.truncate(count);
        colours.push(colour.unwrap_or(zero_vector()))?;
    }
    Ok(())
}

impl ObjTaker for ObjColumns {
    ghost use Rattle.geo_text.specs.ObjColumns.{columns_geo};

    ghost attributes = { λ c. c.attributes };

    ghost taken = { λ c. columns_geo c };

    fn begin(&mut self, has: Attributes, room: Room) -> Result<(), AllocError> {
        *self = ObjColumns::with_room(self.alloc, has, room)?;
        Ok(())
    }

    fn take_point(&mut self, place: Vec3, colour: Option<Vec3>) -> Result<(), AllocError> {
        let count = self.places.len();
        put_colour(&mut self.colours, self.attributes.colour, count, colour)?;
        self.places.push(place)?;
        Ok(())
    }

    fn groups(&self) -> usize {
        self.frame.prim.groups.len()
    }

    fn find_group(&self, name: &str) -> Option<usize> {
        group_named(&self.frame.prim.groups, name)
    }

    fn take_group(&mut self, name: Text) -> Result<(), AllocError> {
        self.frame.prim.groups.add(name)
    }

    fn take_prim(
        &mut self,
        closed: bool,
        vertices: &[Vertex],
        groups: &[bool],
    ) -> Result<(), AllocError> {
        let outline = Outline {
            closed,
            known: self.frame.prim.groups.len(),
            flags: Vec::from_slice(self.alloc, groups)?,
        };
        let start = self.vertex_count() as usize;
        self.vertices.put(self.attributes, start, vertices)?;
        let Ok(end) = u32::try_from(start + vertices.len()) else {
            return Err(AllocError);
        };
        self.outlines.truncate(self.ends.len());
        self.outlines.push(outline)?;
        self.ends.push(end)?;
        Ok(())
    }
}
