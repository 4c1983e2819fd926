//! What the program meets of the world outside: texts and lists, named files, sinks of bytes, and gates of workers.
//!
//! Contracts see a text as the list of its bytes and a list as its items. Files and sinks may tell
//! their bytes, as those in memory do, and count what fails.
#![tactic(auto)]

mod blanks;
mod disk_files;
mod failing;
mod files;
mod gate;
mod items;
mod load_counts;
mod mem_files;
mod mem_sink;
mod sink;
mod std_sink;
mod text;

pub use blanks::{Words, is_blank, next_word, words_of};
pub use disk_files::DiskFiles;
pub use files::{Files, LoadEnd};
pub use gate::{Gate, OpenGate};
pub use items::{ByteList, Items};
pub use load_counts::LoadCounts;
pub use mem_files::MemFiles;
pub use mem_sink::MemSink;
pub use sink::{Failed, Sink, put};
pub use std_sink::StdSink;
pub use text::{Text, TextList};

#[cfg(test)]
mod tests;
