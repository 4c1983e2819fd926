// Why a node has no geometry.
ghost use Rattle.std.specs.Prelude.{◌≡◌, ◌++◌, length, take, OnOk, OnErr, IsTrue};
ghost use Rattle.sop_model.specs.Faults.{fault_text, has_named_node, is_one_line, with_number, with_node};

use itoa::Buffer;
use sop_outside::Text;
use std::alloc::AllocError;

/// Why a node has no geometry.
#[derive(Debug, Drop)]
pub enum Fault {
    /// A needed input isn't wired.
    NoInput(u32),
    /// The file is missing.
    NoFile,
    /// A line of an OBJ file, from 1, has a word that is no numeral, or one out of range.
    Number(u64),
    /// A line of an OBJ file, from 1, has an index without its element.
    Index(u64),
    /// The file is too long or past the limits of OBJ, the geometry passes a limit, or loops nest deeper than 8.
    Limit,
    /// A parameter doesn't fit.
    BadParm,
    /// A named attribute is missing.
    NoAttr,
    /// A word of a group pattern, from 0, can't be read.
    BadGroup(u32),
    /// A word of a group pattern, from 0, names a missing group.
    NoGroup(u32),
    /// On a line of a snippet, from 1, no token begins.
    Lex(u64),
    /// The item of a snippet that begins on this line, from 1, doesn't derive.
    Syntax(u64),
    /// The item of a snippet that begins on this line, from 1, has no typing.
    Types(u64),
    /// The code of a snippet weighs more than 1,000,000.
    TooLong,
    /// The arithmetic of an element passes the range.
    Range(u32),
    /// The arithmetic of an element divides by zero.
    DivZero(u32),
    /// An element takes more than 100,000 turns.
    Turns(u32),
    /// A string, a list or the edits of an element pass their limit.
    RunLimit(u32),
    /// An edit of an element would pass 4,000,000 edits, or a limit of counts, attributes or groups.
    EditLimit(u32),
    /// A block begin is cooked outside its loop.
    NoLoop,
    /// A block end has no fitting begin.
    BadBlock,
    /// A node of a compiled block can't be compiled.
    NotCompilable(Text),
    /// A node of a compiled block is fed from outside it.
    Leaks(Text),
    /// The node can't be cooked yet.
    NotYet,
}

/// Why a cook of one node gives no geometry.
#[derive(Debug, Drop)]
pub enum CookStop {
    Fault(Fault),
    /// Want of memory.
    Memory,
}

impl From<AllocError> for CookStop {
    ghost use Rattle.sop_model.specs.declared.fault.CookStop.TheVariants.{Memory};

    ghost from_gives = { λ _ stop. stop ≡ Memory };

    fn from(_: AllocError) -> Self {
        CookStop::Memory
    }
}

impl Fault {
    /// Appends the text of the fault: its name, then a blank and its number or node, where it has one. After a refusal for want
    /// of memory the bytes are as before. A text is one line where the node that the fault names has a name.
    pub fn print(&self, to: &mut Vec<u8>) -> Result<(), AllocError>
        ensures ok { OnOk result (to.new.items ≡ to.old.items ++ fault_text self.now) }
        ensures err { OnErr result (to.new.items ≡ to.old.items) }
        ensures one_line { IsTrue (has_named_node self.now) → IsTrue (is_one_line (fault_text self.now)) }
    {
        let start = to.len();
        match self.append(to) {
            Ok(()) => Ok(()),
            Err(end) => {
                to.truncate(start);
                Err(end)
            }
        }
    }

    /// Appends the text of the fault, or for want of memory some bytes.
    fn append(&self, to: &mut Vec<u8>) -> Result<(), AllocError>
        ensures ok { OnOk result (to.new.items ≡ to.old.items ++ fault_text self.now) }
        ensures kept { take (length to.old.items) to.new.items ≡ to.old.items }
    {
        match self {
            Fault::NoInput(input) => append_number("NoInput", u64::from(*input), to),
            Fault::NoFile => to.extend_from_slice(b"NoFile"),
            Fault::Number(line) => append_number("Number", *line, to),
            Fault::Index(line) => append_number("Index", *line, to),
            Fault::Limit => to.extend_from_slice(b"Limit"),
            Fault::BadParm => to.extend_from_slice(b"BadParm"),
            Fault::NoAttr => to.extend_from_slice(b"NoAttr"),
            Fault::BadGroup(word) => append_number("BadGroup", u64::from(*word), to),
            Fault::NoGroup(word) => append_number("NoGroup", u64::from(*word), to),
            Fault::Lex(line) => append_number("Lex", *line, to),
            Fault::Syntax(line) => append_number("Syntax", *line, to),
            Fault::Types(line) => append_number("Types", *line, to),
            Fault::TooLong => to.extend_from_slice(b"TooLong"),
            Fault::Range(element) => append_number("Range", u64::from(*element), to),
            Fault::DivZero(element) => append_number("DivZero", u64::from(*element), to),
            Fault::Turns(element) => append_number("Turns", u64::from(*element), to),
            Fault::RunLimit(element) => append_number("RunLimit", u64::from(*element), to),
            Fault::EditLimit(element) => append_number("EditLimit", u64::from(*element), to),
            Fault::NoLoop => to.extend_from_slice(b"NoLoop"),
            Fault::BadBlock => to.extend_from_slice(b"BadBlock"),
            Fault::NotCompilable(node) => append_node("NotCompilable", node, to),
            Fault::Leaks(node) => append_node("Leaks", node, to),
            Fault::NotYet => to.extend_from_slice(b"NotYet"),
        }
    }
}

/// Appends a name, a blank and a number, or for want of memory some bytes.
fn append_number(name: &str, number: u64, to: &mut Vec<u8>) -> Result<(), AllocError>
    ensures ok { OnOk result (to.new.items ≡ to.old.items ++ with_number name.now number) }
    ensures kept { take (length to.old.items) to.new.items ≡ to.old.items }
{
    to.extend_from_slice(name.as_bytes())?;
    to.push(b' ')?;
    to.extend_from_slice(Buffer::new().format(number).as_bytes())
}

/// Appends a name, a blank and the name of a node, or for want of memory some bytes.
fn append_node(name: &str, node: &Text, to: &mut Vec<u8>) -> Result<(), AllocError>
    ensures ok { OnOk result (to.new.items ≡ to.old.items ++ with_node name.now node.now) }
    ensures kept { take (length to.old.items) to.new.items ≡ to.old.items }
{
    to.extend_from_slice(name.as_bytes())?;
    to.push(b' ')?;
    to.extend_from_slice(node.as_str().as_bytes())
}
