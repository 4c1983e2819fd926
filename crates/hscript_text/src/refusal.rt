//! Why commands and command files are refused.
ghost use Rattle.std.specs.Prelude.{◌≡◌};
ghost use Rattle.hscript_text.specs.RefusalNames.{name_of_refusal};
ghost use Rattle.hscript_text.specs.Parts.{command_end_of, end_of};

use sop_net::NetEnd;
use std::alloc::AllocError;

/// Why a command is refused.
#[derive(Clone, Copy, Debug, PartialEq, Eq)]
pub enum ScriptKind {
    /// The bytes aren't UTF-8.
    BadBytes,
    /// A quote that isn't closed, a byte that can't stand beside a quote, or a wrong escape.
    Quote,
    /// A `$` that no name of a variable follows.
    NoVar,
    /// A word of more than 65,536 bytes.
    LongWord,
    /// No command has this name.
    BadCommand,
    /// The command doesn't take so many words, or `set` has no `=`.
    BadArgs,
    /// A word that should be a name isn't one.
    BadName,
    /// A node of this name stands.
    NameTaken,
    /// No node type has this name.
    NoType,
    /// More nodes or more echoed text than there may be.
    Limit,
    /// No node has this name.
    NoNode,
    /// The node's type has no parameter of this name.
    NoParm,
    /// The parameter doesn't take this value.
    BadValue,
    /// The node's type has no input of this number.
    BadInput,
    /// The wire would close a cycle.
    Cycle,
}

impl ScriptKind {
    /// The name as it is printed.
    pub fn name(self) -> &'static str
        ensures { result.now ≡ name_of_refusal self }
    {
        match self {
            ScriptKind::BadBytes => "BadBytes",
            ScriptKind::Quote => "Quote",
            ScriptKind::NoVar => "NoVar",
            ScriptKind::LongWord => "LongWord",
            ScriptKind::BadCommand => "BadCommand",
            ScriptKind::BadArgs => "BadArgs",
            ScriptKind::BadName => "BadName",
            ScriptKind::NameTaken => "NameTaken",
            ScriptKind::NoType => "NoType",
            ScriptKind::Limit => "Limit",
            ScriptKind::NoNode => "NoNode",
            ScriptKind::NoParm => "NoParm",
            ScriptKind::BadValue => "BadValue",
            ScriptKind::BadInput => "BadInput",
            ScriptKind::Cycle => "Cycle",
        }
    }
}

/// Why a command isn't carried out.
#[derive(Clone, Copy, Debug, PartialEq, Eq)]
pub enum CommandEnd {
    /// It is refused.
    Refused(ScriptKind),
    /// There wasn't memory enough.
    Memory,
}

impl From<AllocError> for CommandEnd {
    ghost use Rattle.hscript_text.specs.declared.refusal.CommandEnd.TheVariants.{Memory};

    ghost from_gives = { λ _ end. end ≡ Memory };

    fn from(_: AllocError) -> Self {
        CommandEnd::Memory
    }
}

/// How a step of the network that fails ends a command.
pub(crate) fn command_end_of(end: NetEnd) -> CommandEnd
    ensures { result ≡ command_end_of end }
{
    match end {
        NetEnd::BadName => CommandEnd::Refused(ScriptKind::BadName),
        NetEnd::NameTaken => CommandEnd::Refused(ScriptKind::NameTaken),
        NetEnd::NoType => CommandEnd::Refused(ScriptKind::NoType),
        NetEnd::Limit => CommandEnd::Refused(ScriptKind::Limit),
        NetEnd::NoNode => CommandEnd::Refused(ScriptKind::NoNode),
        NetEnd::NoParm => CommandEnd::Refused(ScriptKind::NoParm),
        NetEnd::BadValue => CommandEnd::Refused(ScriptKind::BadValue),
        NetEnd::BadInput => CommandEnd::Refused(ScriptKind::BadInput),
        NetEnd::Cycle => CommandEnd::Refused(ScriptKind::Cycle),
        NetEnd::Memory => CommandEnd::Memory,
    }
}

/// Why a command file gives nothing.
#[derive(Clone, Copy, Debug, PartialEq, Eq)]
pub enum ScriptEnd {
    /// The first refused command: the line, counted from 1, where its first word begins, and why it is refused.
    Refused { line: u32, kind: ScriptKind },
    /// There wasn't memory enough.
    Memory,
}

/// How a command that fails in a line ends a command file.
pub(crate) fn end_of(line: u32, end: CommandEnd) -> ScriptEnd
    ensures { result ≡ end_of line end }
{
    match end {
        CommandEnd::Refused(refusal) => ScriptEnd::Refused {
            line,
            kind: refusal,
        },
        CommandEnd::Memory => ScriptEnd::Memory,
    }
}
