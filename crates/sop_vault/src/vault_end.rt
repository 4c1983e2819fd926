//! Why a call of a vault changes nothing.
use std::alloc::AllocError;
use thiserror::Error;

/// Why a call of a vault left everything as it was, but that names may have come. `Memory` may come from any call that answers a
/// `VaultEnd`, and another one only from those that name it.
#[derive(Clone, Copy, Debug, PartialEq, Eq, Error)]
pub enum VaultEnd {
    /// The class has an attribute, or a group, of this name.
    #[error("it is there")]
    Exists,
    /// The class has no attribute of this name.
    #[error("no such attribute")]
    NoAttr,
    /// A point's number isn't below the number of points, or in `add_vertices` a primitive's below that of primitives.
    #[error("no such point")]
    NoPoint,
    /// The geometry would have more elements, attributes or groups than a geometry may have.
    #[error("too large")]
    Limit,
    /// There is not enough memory.
    #[error("not enough memory")]
    Memory,
}

impl From<AllocError> for VaultEnd {
    ghost use Rattle.std.specs.Prelude.{◌≡◌};
    ghost use Rattle.sop_vault.specs.declared.vault_end.VaultEnd.TheVariants.{Memory};

    ghost from_gives = { λ _ end. end ≡ Memory };

    fn from(_: AllocError) -> VaultEnd {
        VaultEnd::Memory
    }
}
