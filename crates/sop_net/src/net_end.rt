// Why a network stays as it is.
ghost use Rattle.std.specs.Prelude.{◌≡◌};

use std::alloc::AllocError;
use thiserror::Error;

/// Why a network stays as it is.
#[derive(Clone, Copy, Debug, PartialEq, Eq, Error)]
pub enum NetEnd {
    /// The text is no name: a letter or `_`, then letters, digits or `_`, 1 to 64 bytes.
    #[error("bad name")]
    BadName,
    /// A node of this name stands.
    #[error("name taken")]
    NameTaken,
    /// There is no type of this word.
    #[error("no such type")]
    NoType,
    /// 1,024 nodes stand, or 2^64 - 1 were added before.
    #[error("too many nodes")]
    Limit,
    /// No node of this name stands.
    #[error("no such node")]
    NoNode,
    /// The node's type has no such parameter.
    #[error("no such parameter")]
    NoParm,
    /// The parameter doesn't take this text.
    #[error("bad value")]
    BadValue,
    /// The text isn't one or two digits that give a number below the node's inputs.
    #[error("bad input")]
    BadInput,
    /// The source is the node, or the node is upstream of the source.
    #[error("cycle")]
    Cycle,
    /// There wasn't memory enough.
    #[error("out of memory")]
    Memory,
}

impl From<AllocError> for NetEnd {
    ghost use Rattle.sop_net.specs.declared.net_end.NetEnd.TheVariants.{Memory};

    ghost from_gives = { λ _ end. end ≡ Memory };

    fn from(_: AllocError) -> Self {
        NetEnd::Memory
    }
}
