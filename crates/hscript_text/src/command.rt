//! A command, as the reader gives it.
use sop_outside::TextList;

/// A command: the line, counted from 1, where its first word begins, and its words after quotes and variables.
#[derive(Drop)]
pub struct Command {
    pub line: u32,
    pub words: TextList,
}
