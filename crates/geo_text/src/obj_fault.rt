// Why an OBJ text gives no geometry.
ghost use Rattle.std.specs.Prelude.{◌≡◌};

use std::alloc::AllocError;
use thiserror::Error;

/// Why an OBJ text gives no geometry. Lines are counted from 1; a line that a backslash joins with the next has the number of its
/// first part.
#[derive(Clone, Copy, Debug, PartialEq, Eq, Error)]
pub enum ObjFault {
    /// In the line of this number a word isn't the number that is wanted.
    #[error("no number in line {0}")]
    Number(u64),
    /// In the line of this number a reference names no element.
    #[error("no element in line {0}")]
    Index(u64),
    /// There are more than 1,000,000 points, 4,000,000 vertices or 1,000,000 primitives.
    #[error("past a limit")]
    Limit,
    /// There wasn't memory enough.
    #[error("out of memory")]
    Memory,
}

impl From<AllocError> for ObjFault {
    ghost use Rattle.geo_text.specs.declared.obj_fault.ObjFault.TheVariants.{Memory};

    ghost from_gives = { λ _ fault. fault ≡ Memory };

    fn from(_: AllocError) -> Self {
        ObjFault::Memory
    }
}
