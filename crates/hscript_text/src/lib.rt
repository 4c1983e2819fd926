//! Command files: the network that their commands build, and the text that they echo.
#![tactic(auto)]

mod command;
mod commands;
mod cut;
mod echoed;
mod law;
pub mod limits;
mod piece;
mod quotes;
mod reader;
mod refusal;
mod script;
mod start;
mod style;
mod unread;
mod variables;
mod verb;
mod word;
mod words;

pub use command::Command;
pub use commands::carry_out;
pub use law::skipped_is_dropped;
pub use reader::Reader;
pub use refusal::{CommandEnd, ScriptEnd, ScriptKind};
pub use script::{Script, read_script};

#[cfg(test)]
mod tests;
