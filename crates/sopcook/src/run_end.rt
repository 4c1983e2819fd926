//! Why a run ends without an answer.
ghost use Rattle.std.specs.Prelude.{◌≡◌};

use std::alloc::AllocError;

/// Why a run ends without an answer.
#[derive(Clone, Copy, Debug, PartialEq, Eq)]
pub enum RunEnd {
    /// A load failed, counted.
    Read,
    /// There wasn't memory enough.
    Memory,
}

impl From<AllocError> for RunEnd {
    ghost use Rattle.sopcook.specs.declared.run_end.RunEnd.TheVariants.{Memory};

    ghost from_gives = { λ _ end. end ≡ Memory };

    fn from(_: AllocError) -> Self {
        RunEnd::Memory
    }
}
