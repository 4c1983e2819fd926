// What a whole OBJ text has.
use crate::reference::Counts;
use crate::taker::Attributes;
use sop_fixed::Vec3;

/// What the lines of a whole text have.
#[derive(Debug, Drop)]
pub(crate) struct Totals {
    /// How many elements there are.
    pub(crate) counts: Counts,
    /// Which attributes there are.
    pub(crate) attributes: Attributes,
    /// The texture coordinates, in the order of their lines; zero where a word of the line isn't the numeral that is wanted.
    pub(crate) textures: Vec<Vec3>,
    /// The normals in the same way.
    pub(crate) normals: Vec<Vec3>,
}
