// The primitives of a geometry, with the number at which the vertices of each end.
ghost use Rattle.std.specs.Prelude.{◌≡◌, ℕ, ◌+◌, ◌<◌, ◌≤◌, ◌^◌, List, [], ◌∷◌, ◌++◌, length, OnOk, IfOk, IfErr, OnErr, IsSomeAnd, slice_get, Some, option_to_list, ◌↔◌, IsNone, take, sum_by, All};
ghost use Rattle.std.specs.Option.{option_map, option_and_then};
ghost use Rattle.sop_model.specs.Rows.{changed_at};
ghost use Rattle.sop_model.specs.Shortening.{shortened};
ghost use Rattle.sop_model.specs.declared.geo.Corner.{Corner};
ghost use Rattle.sop_model.specs.Vertices.{corners_of, ends_of, first_vertex_in, longer_prims, prim_in, size_of, with_corner, with_more, with_row};

use crate::copies::copy_slice;
use crate::geo::{Corner, CornerList, Primitive, Row};
use std::alloc::{AllocError, Global};
use std::marker::Model;
use std::mem;

/// A list of primitives. It keeps the running count of their vertices, so that a vertex is found without a walk.
#[derive(Debug, Drop)]
pub struct PrimList {
    prims: Vec<Primitive>,
    ends: Vec<u64>,
}

impl Model for PrimList {
    ghost use Rattle.std.specs.Prelude.{List, ◌≡◌};
    ghost use Rattle.sop_model.specs.declared.geo.Primitive.{Primitive};
    ghost use Rattle.sop_model.specs.Vertices.{ends_of};

    ghost Value = { List Primitive };

    ghost view = { λ l. l.prims.items };

    ghost invariant = { λ l. l.ends.items ≡ ends_of 0 l.prims.items };
}

impl PrimList {
    /// No primitive. It takes no memory.
    pub fn new(alloc: Global) -> PrimList
        ensures { result ≡ [] }
    {
        PrimList {
            prims: Vec::new(alloc),
            ends: Vec::new(alloc),
        }
    }

    /// The list of these primitives. Its memory is a number for each of them; they are dropped for want of it.
    pub fn from_vec(alloc: Global, prims: Vec<Primitive>) -> Result<PrimList, AllocError>
        ensures { IfOk result (λ made. made ≡ prims.items) }
    {
        let ends = counted_ends(alloc, &prims)?;
        Ok(PrimList { prims, ends })
    }

    /// Puts a primitive at the end, or gives it back.
    pub fn push(&mut self, prim: Primitive) -> Result<(), (Primitive, AllocError)>
        ensures ok { OnOk result (self.new ≡ self.old ++ prim ∷ []) }
        ensures err { OnErr result (self.new ≡ self.old) }
        ensures returned { IfErr result (λ e. e.0 ≡ prim) }
    {
        let first = self.ends.last().copied().unwrap_or(0);
        let Some(end) = first.checked_add(prim.corners.len() as u64) else {
            return Err((prim, AllocError));
        };
        if self.ends.reserve(1).is_err() {
            return Err((prim, AllocError));
        }
        match self.prims.push(prim) {
            Ok(()) => {}
            Err(failed) => return Err((failed.value, AllocError)),
        }
        match self.ends.push(end) {
            Ok(()) => Ok(()),
            Err(_) => unreachable!(),
        }
    }

    /// Takes the last primitive.
    pub fn pop(&mut self) -> Option<Primitive>
        ensures items { self.old ≡ self.new ++ option_to_list result }
        ensures none { IsNone result ↔ (self.old ≡ []) }
    {
        self.ends.pop();
        self.prims.pop()
    }

    /// Gives primitive i another row, and answers the one that it had. It takes no memory.
    pub fn replace_row(&mut self, i: usize, row: Row) -> Row
        requires { i < length self.old }
        ensures prims { self.new ≡ changed_at (with_row row) self.old i }
        ensures taken { option_map (λ p. p.row) (slice_get self.old i) ≡ Some result }
    {
        let prim = &mut self.prims[i];
        mem::replace(&mut prim.row, row)
    }

    /// Puts a vertex in place `place`, from 0, of primitive i, and answers the one that stood there. It takes no memory.
    pub fn replace_corner(&mut self, i: usize, place: usize, corner: Corner) -> Corner
        requires { IsSomeAnd (slice_get self.old i) (λ p. place < size_of p) }
        ensures prims { self.new ≡ changed_at (with_corner place corner) self.old i }
        ensures taken { option_and_then (λ p. slice_get p.corners place) (slice_get self.old i) ≡ Some result }
    {
        let prim = &mut self.prims[i];
        prim.corners.replace(place, corner)
    }

    /// Puts vertices behind those of their primitives, each at the end of the one of its number, in order. For want of memory the
    /// list stays as it was. The time grows with the number of primitives and of vertices that are added.
    pub fn add_corners(&mut self, adds: Vec<(u32, Corner)>) -> Result<(), AllocError>
        requires { All (λ a. a.0 < length self.old) adds.items }
        ensures ok { OnOk result (self.new ≡ longer_prims adds.items self.old) }
        ensures err { OnErr result (self.new ≡ self.old) }
    {
        let Some(_) = self.vertices().checked_add(adds.len() as u64) else {
            return Err(AllocError);
        };
        match push_corners(&mut self.prims, adds) {
            Ok(()) => {
                recount(&self.prims, &mut self.ends);
                Ok(())
            }
            Err(end) => {
                shorten(&mut self.prims, &self.ends);
                Err(end)
            }
        }
    }

    /// How many primitives there are.
    pub fn len(&self) -> usize
        ensures { result ≡ length self.now }
    {
        self.prims.len()
    }

    /// Primitive i.
    pub fn get(&self, i: usize) -> &Primitive
        requires { i < length self.now }
        ensures { slice_get self.now i ≡ Some result.now }
    {
        &self.prims[i]
    }

    /// The primitives in order.
    pub fn as_slice(&self) -> &[Primitive]
        ensures { result.now ≡ self.now }
    {
        self.prims.as_slice()
    }

    /// The primitives as a `Vec`, without taking memory.
    pub fn into_vec(self) -> Vec<Primitive>
        ensures { result.items ≡ self }
    {
        let PrimList { prims, ends: _ } = self;
        prims
    }

    /// How many vertices all primitives have.
    pub fn vertices(&self) -> u64
        ensures { result ≡ length (corners_of self.now) }
    {
        self.first_vertex(self.prims.len())
    }

    /// The number of the first vertex of primitive i, or of all vertices where i is the number of primitives.
    pub fn first_vertex(&self, i: usize) -> u64
        requires { i ≤ length self.now }
        ensures { result ≡ first_vertex_in self.now i }
    {
        if i == 0 { 0 } else { self.ends[i - 1] }
    }

    /// The primitive that has the vertex of this number, or the number of primitives where none has it.
    pub fn prim_of(&self, vertex: u64) -> usize
        ensures { result ≡ prim_in self.now vertex }
    {
        self.ends.partition_point(|end| *end <= vertex)
    }

    /// A copy in memory of `alloc`.
    pub fn copy(&self, alloc: Global) -> Result<PrimList, AllocError>
        ensures { IfOk result (λ made. made ≡ self.now) }
    {
        Ok(PrimList {
            prims: copy_slice(self.prims.as_slice(), alloc)?,
            ends: Vec::from_slice(alloc, self.ends.as_slice())?,
        })
    }
}

/// For each primitive the number of vertices up to its end; also refused where these are more than a number can say.
fn counted_ends(alloc: Global, prims: &[Primitive]) -> Result<Vec<u64>, AllocError>
    ensures { IfOk result (λ ends. ends.items ≡ ends_of 0 prims.now) }
{
    let mut ends = Vec::with_capacity(alloc, prims.len())?;
    let mut end: u64 = 0;
    for prim in prims {
        let Some(next) = end.checked_add(prim.corners.len() as u64) else {
            return Err(AllocError);
        };
        end = next;
        ends.push(end)?;
    }
    Ok(ends)
}

/// Puts vertices behind those of their primitives, in order, or for want of memory some of them.
fn push_corners(prims: &mut [Primitive], adds: Vec<(u32, Corner)>) -> Result<(), AllocError>
    requires { All (λ a. a.0 < length prims.old) adds.items }
    ensures ok { OnOk result (prims.new ≡ longer_prims adds.items prims.old) }
    ensures err { OnErr result ((front : List (ℕ × Corner)) × (prims.new ≡ longer_prims front prims.old)) }
    ensures count { sum_by size_of prims.new ≤ sum_by size_of prims.old + length adds.items }
{
    for (prim, corner) in adds {
        push_corner(prims, prim as usize, corner)?;
    }
    Ok(())
}

fn push_corner(prims: &mut [Primitive], i: usize, corner: Corner) -> Result<(), AllocError>
    requires { i < length prims.old }
    ensures ok { OnOk result (prims.new ≡ changed_at (with_more (corner ∷ [])) prims.old i) }
    ensures err { OnErr result (prims.new ≡ prims.old) }
{
    prims[i].corners.add(corner)?;
    Ok(())
}

/// Puts the number of vertices up to the end of each primitive in its place.
fn recount(prims: &[Primitive], ends: &mut [u64])
    requires places { length ends.old ≡ length prims.now }
    requires few { sum_by size_of prims.now < 2 ^ 64 }
    ensures { ends.new ≡ ends_of 0 prims.now }
{
    let mut end: u64 = 0;
    for (i, prim) in prims.iter().enumerate() {
        end += prim.corners.len() as u64;
        ends[i] = end;
    }
}

/// Takes from each primitive the vertices behind those that its end counts.
fn shorten(prims: &mut [Primitive], ends: &[u64])
    requires { length ends.now ≡ length prims.old }
    ensures { prims.new ≡ shortened 0 ends.now prims.old }
{
    let mut first: u64 = 0;
    for (i, end) in ends.iter().enumerate() {
        let size = end.saturating_sub(first);
        let prim = &mut prims[i];
        shorten_corners(&mut prim.corners, size as usize);
        first = *end;
    }
}

/// Takes the vertices behind the first `size`.
fn shorten_corners(corners: &mut CornerList, size: usize)
    ensures { corners.new ≡ take size corners.old }
{
    while corners.len() > size {
        corners.pop();
    }
}
