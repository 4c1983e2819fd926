//! Primitives added at the end of a shape, and a shape behind another.
ghost use Rattle.std.specs.Prelude.{◌≡◌, ◌+◌, ◌<◌, ◌≤◌, ◌^◌, ◌++◌, ℕ, length, map, All, OnOk, OnErr, vec_len, vec_capacity};
ghost use Rattle.sop_model.specs.declared.class.Class.TheVariants.{Point};
ghost use Rattle.sop_model.specs.declared.geo.Geo.{Geo};
ghost use Rattle.sop_model.specs.Geometry.{count_of, IsSound};
ghost use Rattle.sop_model.specs.Limits.{most_prims, most_vertices};
ghost use Rattle.sop_model.specs.Rows.{prim_added};
ghost use Rattle.sop_model.specs.Appending.{appended};
ghost use Rattle.sop_shape.specs.Shapes.{HasShape};

use crate::shape::Shape;
use std::alloc::AllocError;

impl Shape {
    /// Puts a primitive at the end, with a vertex on each of these points in turn. `Err` for want of memory, and then the shape stays as
    /// it was. Over many calls the time of one grows with its points alone.
    pub fn add_prim(&mut self, closed: bool, points: &[u32]) -> Result<(), AllocError>
        requires prims { length self.old.closed < most_prims }
        requires vertices { length self.old.refers + length points.now ≤ most_vertices }
        ensures ok { OnOk result ((g : Geo) → HasShape g self.old → HasShape (prim_added g closed points.now) self.new) }
        ensures err { OnErr result (self.new ≡ self.old) }
    {
        self.closed.reserve(1)?;
        self.ends.reserve(1)?;
        self.refers.extend_from_slice(points)?;
        self.ends.push_reserved(self.refers.len() as u32);
        self.closed.push_reserved(closed);
        Ok(())
    }

    /// Puts the primitives and vertices of another shape behind its own; `points` is how many points the first geometry has, behind which
    /// those of the second stand. `Err` for want of memory, and then the shape stays as it was. The time grows with the other shape.
    pub fn append(&mut self, other: &Shape, points: u32) -> Result<(), AllocError>
        requires prims { length self.old.closed + length other.now.closed ≤ most_prims }
        requires vertices { length self.old.refers + length other.now.refers ≤ most_vertices }
        requires points { All (λ n. points + n < 2 ^ 32) other.now.refers }
        ensures ok { OnOk result ((a b : Geo) → IsSound a → IsSound b → HasShape a self.old → HasShape b other.now
            → count_of a Point ≡ points → HasShape (appended a b) self.new) }
        ensures err { OnErr result (self.new ≡ self.old) }
    {
        other.known();
        self.ends.reserve(other.ends().len())?;
        self.refers.reserve(other.refers().len())?;
        self.closed.extend_from_slice(other.closed_flags())?;
        push_moved(&mut self.ends, other.ends(), self.refers.len() as u32);
        push_moved(&mut self.refers, other.refers(), points);
        Ok(())
    }
}

/// Puts numbers behind others, each larger by `by`.
fn push_moved(list: &mut Vec<u32>, more: &[u32], by: u32)
    requires room { vec_len list.old + length more.now ≤ vec_capacity list.old }
    requires few { All (λ n. by + n < 2 ^ 32) more.now }
    ensures { list.new.items ≡ list.old.items ++ map (λ n. by + n) more.now }
{
    for number in more {
        list.push_reserved(by + *number);
    }
}
