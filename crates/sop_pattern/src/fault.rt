// Why a pattern selects nothing.
ghost use Rattle.std.specs.Prelude.{◌≡◌};

use std::alloc::{AllocError, AllocFailed};
use thiserror::Error;

/// Why a pattern isn't read, or selects nothing.
#[derive(Clone, Copy, Debug, PartialEq, Eq, Error)]
pub enum PatternFault {
    /// The word of this number, from 0, is none of a pattern's words.
    #[error("bad word {0}")]
    BadWord(u32),
    /// The class has no group of the name that the word of this number, from 0, is.
    #[error("no group {0}")]
    NoGroup(u32),
    /// There wasn't memory enough.
    #[error("out of memory")]
    Memory,
}

impl From<AllocError> for PatternFault {
    ghost use Rattle.sop_pattern.specs.declared.fault.PatternFault.TheVariants.{Memory};

    ghost from_gives = { λ _ fault. fault ≡ Memory };

    fn from(_: AllocError) -> Self {
        PatternFault::Memory
    }
}

impl<T: Drop> From<AllocFailed<T>> for PatternFault {
    ghost use Rattle.sop_pattern.specs.declared.fault.PatternFault.TheVariants.{Memory};

    ghost from_gives = { λ _ fault. fault ≡ Memory };

    fn from(_: AllocFailed<T>) -> Self {
        PatternFault::Memory
    }
}
