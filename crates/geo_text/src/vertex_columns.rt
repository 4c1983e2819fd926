// The values of vertices in columns.
ghost use Rattle.std.specs.Prelude.{◌≡◌, ◌≤◌, ◌++◌, [], map, length, take, IfOk, OnOk, IsTrue};
ghost use Rattle.geo_text.specs.ObjColumns.{Fills, vector_at_vertex};

use crate::taker::{Attributes, Vertex};
use sop_fixed::Vec3;
use std::alloc::{AllocError, Global};

/// The points, texture coordinates and normals of vertices. The vectors are there where there is such an attribute.
#[derive(Debug, Drop)]
pub(crate) struct VertexColumns {
    pub(crate) refers: Vec<u32>,
    pub(crate) textures: Vec<Vec3>,
    pub(crate) normals: Vec<Vec3>,
}

/// A vector of a vertex.
#[derive(Clone, Copy)]
pub(crate) enum VertexVector {
    Texture,
    Normal,
}

impl VertexColumns {
    /// Of no vertex, with room for so many.
    pub(crate) fn with_room(
        alloc: Global,
        has: Attributes,
        count: usize,
    ) -> Result<VertexColumns, AllocError>
        ensures { IfOk result (λ v. (v.refers.items ≡ []) × ((v.textures.items ≡ []) × (v.normals.items ≡ []))) }
    {
        let textures = if has.texture { count } else { 0 };
        let normals = if has.normal { count } else { 0 };
        Ok(VertexColumns {
            refers: Vec::with_capacity(alloc, count)?,
            textures: Vec::with_capacity(alloc, textures)?,
            normals: Vec::with_capacity(alloc, normals)?,
        })
    }

    /// Puts vertices behind the first `count`, in place of what stands there. `Err` for want of memory.
    pub(crate) fn put(
        &mut self,
        has: Attributes,
        count: usize,
        vertices: &[Vertex],
    ) -> Result<(), AllocError>
        requires refers { count ≤ length self.old.refers.items }
        requires textures { Fills has.texture count self.old.textures.items }
        requires normals { Fills has.normal count self.old.normals.items }
        ensures refers { OnOk result (self.new.refers.items ≡ take count self.old.refers.items ++ map (λ v. v.point) vertices.now) }
        ensures textures { OnOk result (IsTrue has.texture → self.new.textures.items ≡ take count self.old.textures.items ++ map (vector_at_vertex VertexVector.Texture) vertices.now) }
        ensures normals { OnOk result (IsTrue has.normal → self.new.normals.items ≡ take count self.old.normals.items ++ map (vector_at_vertex VertexVector.Normal) vertices.now) }
        ensures points_stay { count ≤ length self.new.refers.items }
        ensures textures_stay { Fills has.texture count self.new.textures.items }
        ensures normals_stay { Fills has.normal count self.new.normals.items }
    {
        put_points(&mut self.refers, count, vertices)?;
        if has.texture {
            put_vectors(&mut self.textures, count, vertices, VertexVector::Texture)?;
        }
        if has.normal {
            put_vectors(&mut self.normals, count, vertices, VertexVector::Normal)?;
        }
        Ok(())
    }
}

/// Puts the points of vertices behind the first `count` numbers.
fn put_points(points: &mut Vec<u32>, count: usize, vertices: &[Vertex]) -> Result<(), AllocError>
    requires { count ≤ length points.old.items }
    ensures ok { OnOk result (points.new.items ≡ take count points.old.items ++ map (λ v. v.point) vertices.now) }
    ensures stay { count ≤ length points.new.items }
{
    points.truncate(count);
    for vertex in vertices {
        points.push(vertex.point)?;
    }
    Ok(())
}

/// Puts a vector of each vertex behind the first `count` vectors.
fn put_vectors(
    vectors: &mut Vec<Vec3>,
    count: usize,
    vertices: &[Vertex],
    vector: VertexVector,
) -> Result<(), AllocError>
    requires { count ≤ length vectors.old.items }
    ensures ok { OnOk result (vectors.new.items ≡ take count vectors.old.items ++ map (vector_at_vertex vector) vertices.now) }
    ensures stay { count ≤ length vectors.new.items }
{
    vectors.truncate(count);
    for vertex in vertices {
        vectors.push(vector_at_vertex(vertex, vector))?;
    }
    Ok(())
}

fn vector_at_vertex(vertex: &Vertex, vector: VertexVector) -> Vec3
    ensures { result ≡ vector_at_vertex vector vertex.now }
{
    match vector {
        VertexVector::Texture => vertex.texture,
        VertexVector::Normal => vertex.normal,
    }
}
