//! What a page holds.
use sop_fixed::{Int, Real, Vec3};

/// What one place of a page holds, in at most 48 bytes.
#[derive(Clone, Copy, Debug, PartialEq, Eq)]
pub enum Cell {
    /// A whole number.
    Int(Int),
    /// A number in millionths.
    Real(Real),
    /// A vector, in millionths along each axis.
    Vector(Vec3),
    /// The number of a text in a table of texts, which the holder of the page keeps.
    Name(u128),
    /// The number of a list in a table of lists, which the holder of the page keeps.
    Many(u128),
}

const _: () = prove!(size_of::<Cell>() <= 48);
