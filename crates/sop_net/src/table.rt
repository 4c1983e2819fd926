// The table of nodes: the word of each type, its inputs and its parameters.
use crate::limits::MOST_INPUTS;

/// The values that a parameter takes.
#[derive(Clone, Copy)]
pub enum ParmKind {
    /// A whole number from `low` to `high`.
    Whole { low: i64, high: i64 },
    /// A numeral.
    Numeral,
    /// Three numerals.
    Vector,
    /// Any multiple of three numerals.
    Vectors,
    /// `0` or `1`.
    Flag,
    /// A text of at most 1,024 bytes.
    Text,
    /// A snippet of at most 65,536 bytes.
    Snippet,
    /// One of these words.
    Choice(&'static [&'static str]),
}

/// A parameter of a type of nodes.
#[derive(Clone, Copy)]
pub struct Parm {
    pub name: &'static str,
    pub kind: ParmKind,
    pub default: &'static str,
}

/// A type of nodes.
#[derive(Clone, Copy)]
pub struct TypeRow {
    pub word: &'static str,
    pub inputs: u32,
    /// No input need be wired.
    pub is_optional: bool,
    pub parms: &'static [Parm],
}

/// A class of elements, with `point` at first.
const ANY_CLASS: Parm = Parm {
    name: "class",
    kind: ParmKind::Choice(&["point", "detail", "prim", "vertex"]),
    default: "point",
};

/// A group pattern, which is empty at first.
const PATTERN: Parm = Parm {
    name: "group",
    kind: ParmKind::Text,
    default: "",
};

pub static FILE: TypeRow = TypeRow {
    word: "file",
    inputs: 0,
    is_optional: false,
    parms: &[Parm {
        name: "file",
        kind: ParmKind::Text,
        default: "",
    }],
};

pub static ADD: TypeRow = TypeRow {
    word: "add",
    inputs: 1,
    is_optional: true,
    parms: &[
        Parm {
            name: "points",
            kind: ParmKind::Vectors,
            default: "",
        },
        Parm {
            name: "poly",
            kind: ParmKind::Choice(&["none", "open", "closed"]),
            default: "none",
        },
    ],
};

pub static LINE: TypeRow = TypeRow {
    word: "line",
    inputs: 0,
    is_optional: false,
    parms: &[
        Parm {
            name: "origin",
            kind: ParmKind::Vector,
            default: "0 0 0",
        },
        Parm {
            name: "dir",
            kind: ParmKind::Vector,
            default: "0 1 0",
        },
        Parm {
            name: "dist",
            kind: ParmKind::Numeral,
            default: "1",
        },
        Parm {
            name: "points",
            kind: ParmKind::Whole {
                low: 1,
                high: 1_000_000,
            },
            default: "2",
        },
    ],
};

pub static GRID: TypeRow = TypeRow {
    word: "grid",
    inputs: 0,
    is_optional: false,
    parms: &[
        Parm {
            name: "rows",
            kind: ParmKind::Whole {
                low: 1,
                high: 1_000,
            },
            default: "10",
        },
        Parm {
            name: "cols",
            kind: ParmKind::Whole {
                low: 1,
                high: 1_000,
            },
            default: "10",
        },
        Parm {
            name: "sizex",
            kind: ParmKind::Numeral,
            default: "10",
        },
        Parm {
            name: "sizez",
            kind: ParmKind::Numeral,
            default: "10",
        },
    ],
};

pub static BOX: TypeRow = TypeRow {
    word: "box",
    inputs: 0,
    is_optional: false,
    parms: &[
        Parm {
            name: "size",
            kind: ParmKind::Vector,
            default: "1 1 1",
        },
        Parm {
            name: "center",
            kind: ParmKind::Vector,
            default: "0 0 0",
        },
    ],
};

pub static NULL: TypeRow = TypeRow {
    word: "null",
    inputs: 1,
    is_optional: false,
    parms: &[],
};

pub static SWITCH: TypeRow = TypeRow {
    word: "switch",
    inputs: MOST_INPUTS,
    is_optional: false,
    parms: &[Parm {
        name: "input",
        kind: ParmKind::Whole { low: 0, high: 31 },
        default: "0",
    }],
};

pub static XFORM: TypeRow = TypeRow {
    word: "xform",
    inputs: 1,
    is_optional: false,
    parms: &[
        Parm {
            name: "t",
            kind: ParmKind::Vector,
            default: "0 0 0",
        },
        Parm {
            name: "s",
            kind: ParmKind::Vector,
            default: "1 1 1",
        },
        PATTERN,
    ],
};

pub static ATTRIB_CREATE: TypeRow = TypeRow {
    word: "attribcreate",
    inputs: 1,
    is_optional: false,
    parms: &[
        ANY_CLASS,
        Parm {
            name: "name",
            kind: ParmKind::Text,
            default: "",
        },
        Parm {
            name: "kind",
            kind: ParmKind::Choice(&["float", "int", "vector", "string"]),
            default: "float",
        },
        Parm {
            name: "value",
            kind: ParmKind::Text,
            default: "",
        },
        PATTERN,
    ],
};

pub static ATTRIB_DELETE: TypeRow = TypeRow {
    word: "attribdelete",
    inputs: 1,
    is_optional: false,
    parms: &[
        ANY_CLASS,
        Parm {
            name: "names",
            kind: ParmKind::Text,
            default: "",
        },
    ],
};

pub static ENUMERATE: TypeRow = TypeRow {
    word: "enumerate",
    inputs: 1,
    is_optional: false,
    parms: &[
        ANY_CLASS,
        Parm {
            name: "name",
            kind: ParmKind::Text,
            default: "index",
        },
        PATTERN,
    ],
};

pub static MERGE: TypeRow = TypeRow {
    word: "merge",
    inputs: MOST_INPUTS,
    is_optional: true,
    parms: &[],
};

pub static BLAST: TypeRow = TypeRow {
    word: "blast",
    inputs: 1,
    is_optional: false,
    parms: &[
        Parm {
            name: "class",
            kind: ParmKind::Choice(&["prim", "point", "vertex"]),
            default: "prim",
        },
        PATTERN,
        Parm {
            name: "negate",
            kind: ParmKind::Flag,
            default: "0",
        },
        Parm {
            name: "unused",
            kind: ParmKind::Flag,
            default: "1",
        },
    ],
};

pub static GROUP_CREATE: TypeRow = TypeRow {
    word: "groupcreate",
    inputs: 1,
    is_optional: false,
    parms: &[
        Parm {
            name: "class",
            kind: ParmKind::Choice(&["point", "prim", "vertex"]),
            default: "point",
        },
        Parm {
            name: "name",
            kind: ParmKind::Text,
            default: "",
        },
        PATTERN,
        Parm {
            name: "op",
            kind: ParmKind::Choice(&["replace", "union", "intersect", "subtract"]),
            default: "replace",
        },
    ],
};

pub static COPY_TO_POINTS: TypeRow = TypeRow {
    word: "copytopoints",
    inputs: 2,
    is_optional: false,
    parms: &[PATTERN],
};

pub static SORT: TypeRow = TypeRow {
    word: "sort",
    inputs: 1,
    is_optional: false,
    parms: &[
        Parm {
            name: "class",
            kind: ParmKind::Choice(&["point", "prim"]),
            default: "point",
        },
        Parm {
            name: "by",
            kind: ParmKind::Choice(&["x", "y", "z", "attr", "reverse", "shift"]),
            default: "x",
        },
        Parm {
            name: "attr",
            kind: ParmKind::Text,
            default: "",
        },
        Parm {
            name: "shift",
            kind: ParmKind::Whole {
                low: -1_000_000,
                high: 1_000_000,
            },
            default: "0",
        },
    ],
};

pub static FUSE: TypeRow = TypeRow {
    word: "fuse",
    inputs: 1,
    is_optional: false,
    parms: &[Parm {
        name: "dist",
        kind: ParmKind::Numeral,
        default: "0.001",
    }],
};

pub static REVERSE: TypeRow = TypeRow {
    word: "reverse",
    inputs: 1,
    is_optional: false,
    parms: &[PATTERN],
};

pub static ATTRIB_WRANGLE: TypeRow = TypeRow {
    word: "attribwrangle",
    inputs: 4,
    is_optional: true,
    parms: &[
        Parm {
            name: "class",
            kind: ParmKind::Choice(&["point", "detail", "prim", "vertex", "number"]),
            default: "point",
        },
        PATTERN,
        Parm {
            name: "snippet",
            kind: ParmKind::Snippet,
            default: "",
        },
        Parm {
            name: "count",
            kind: ParmKind::Whole {
                low: 0,
                high: 1_000_000,
            },
            default: "0",
        },
    ],
};

pub static BLOCK_BEGIN: TypeRow = TypeRow {
    word: "block_begin",
    inputs: 1,
    is_optional: false,
    parms: &[
        Parm {
            name: "method",
            kind: ParmKind::Choice(&["piece", "feedback", "input", "metadata"]),
            default: "piece",
        },
        Parm {
            name: "block",
            kind: ParmKind::Text,
            default: "",
        },
    ],
};

pub static BLOCK_END: TypeRow = TypeRow {
    word: "block_end",
    inputs: 1,
    is_optional: false,
    parms: &[
        Parm {
            name: "begin",
            kind: ParmKind::Text,
            default: "",
        },
        Parm {
            name: "gather",
            kind: ParmKind::Choice(&["merge", "feedback"]),
            default: "merge",
        },
        Parm {
            name: "by",
            kind: ParmKind::Choice(&["attr", "count"]),
            default: "attr",
        },
        Parm {
            name: "class",
            kind: ParmKind::Choice(&["point", "prim"]),
            default: "point",
        },
        Parm {
            name: "attr",
            kind: ParmKind::Text,
            default: "name",
        },
        Parm {
            name: "count",
            kind: ParmKind::Whole {
                low: 0,
                high: 10_000,
            },
            default: "1",
        },
    ],
};

pub static COMPILE_BEGIN: TypeRow = TypeRow {
    word: "compile_begin",
    inputs: 1,
    is_optional: false,
    parms: &[Parm {
        name: "block",
        kind: ParmKind::Text,
        default: "",
    }],
};

pub static COMPILE_END: TypeRow = TypeRow {
    word: "compile_end",
    inputs: 1,
    is_optional: false,
    parms: &[],
};
