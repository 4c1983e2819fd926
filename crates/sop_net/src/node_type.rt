// The types of nodes.
ghost use Rattle.std.specs.Prelude.{◌≡◌};
ghost use Rattle.sop_net.specs.NodeTable.{row_of, type_of_word};
ghost use Rattle.sop_net.specs.Rows.{row_meant};

use crate::table::{self, TypeRow};

/// What a node does.
#[derive(Clone, Copy, Debug, PartialEq, Eq)]
pub enum NodeType {
    File,
    Add,
    Line,
    Grid,
    Box,
    Null,
    Switch,
    Xform,
    AttribCreate,
    AttribDelete,
    Enumerate,
    Merge,
    Blast,
    GroupCreate,
    CopyToPoints,
    Sort,
    Fuse,
    Reverse,
    AttribWrangle,
    BlockBegin,
    BlockEnd,
    CompileBegin,
    CompileEnd,
}

const TYPES: [NodeType; 23] = [
    NodeType::File,
    NodeType::Add,
    NodeType::Line,
    NodeType::Grid,
    NodeType::Box,
    NodeType::Null,
    NodeType::Switch,
    NodeType::Xform,
    NodeType::AttribCreate,
    NodeType::AttribDelete,
    NodeType::Enumerate,
    NodeType::Merge,
    NodeType::Blast,
    NodeType::GroupCreate,
    NodeType::CopyToPoints,
    NodeType::Sort,
    NodeType::Fuse,
    NodeType::Reverse,
    NodeType::AttribWrangle,
    NodeType::BlockBegin,
    NodeType::BlockEnd,
    NodeType::CompileBegin,
    NodeType::CompileEnd,
];

impl NodeType {
    /// The word of the type, as `opadd` takes it.
    pub fn word(self) -> &'static str
        ensures { result.now ≡ (row_of self).word }
    {
        self.row().word
    }

    /// The number of inputs.
    pub fn inputs(self) -> u32
        ensures { result ≡ (row_of self).inputs }
    {
        self.row().inputs
    }

    /// Whether no input need be wired.
    pub fn is_optional(self) -> bool
        ensures { result ≡ (row_of self).is_optional }
    {
        self.row().is_optional
    }

    /// The type of this word.
    pub(crate) fn of_word(word: &str) -> Option<NodeType>
        ensures { result ≡ type_of_word word.now }
    {
        TYPES
            .iter()
            .copied()
            .find(|node_type| node_type.word() == word)
    }

    /// The row of the type in the table.
    pub(crate) fn row(self) -> &'static TypeRow
        ensures { row_meant result.now ≡ row_of self }
    {
        match self {
            NodeType::File => &table::FILE,
            NodeType::Add => &table::ADD,
            NodeType::Line => &table::LINE,
            NodeType::Grid => &table::GRID,
            NodeType::Box => &table::BOX,
            NodeType::Null => &table::NULL,
            NodeType::Switch => &table::SWITCH,
            NodeType::Xform => &table::XFORM,
            NodeType::AttribCreate => &table::ATTRIB_CREATE,
            NodeType::AttribDelete => &table::ATTRIB_DELETE,
            NodeType::Enumerate => &table::ENUMERATE,
            NodeType::Merge => &table::MERGE,
            NodeType::Blast => &table::BLAST,
            NodeType::GroupCreate => &table::GROUP_CREATE,
            NodeType::CopyToPoints => &table::COPY_TO_POINTS,
            NodeType::Sort => &table::SORT,
            NodeType::Fuse => &table::FUSE,
            NodeType::Reverse => &table::REVERSE,
            NodeType::AttribWrangle => &table::ATTRIB_WRANGLE,
            NodeType::BlockBegin => &table::BLOCK_BEGIN,
            NodeType::BlockEnd => &table::BLOCK_END,
            NodeType::CompileBegin => &table::COMPILE_BEGIN,
            NodeType::CompileEnd => &table::COMPILE_END,
        }
    }
}
