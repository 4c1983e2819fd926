//! The echoed text.
ghost use Rattle.std.specs.Prelude.{◌≡◌, ◌≤◌, ◌++◌, [], length};
ghost use Rattle.hscript_text.specs.Script.{line_of_words};
ghost use Rattle.hscript_text.specs.Parts.{Echoes, between};

use crate::limits::MOST_ECHOED_BYTES;
use crate::refusal::{CommandEnd, ScriptKind};
use sop_outside::{ByteList, Text};
use std::alloc::Global;
use std::marker::Model;

/// The echoed text, which contracts see as the list of its bytes, at most 1 MiB.
#[derive(Drop)]
pub struct Echoed {
    bytes: Vec<u8>,
}

impl Model for Echoed {
    ghost use Rattle.std.specs.Prelude.{List, ℕ, ◌≤◌, length};
    ghost use Rattle.hscript_text.specs.Limits.{most_echoed_bytes};

    ghost Value = { List ℕ };

    ghost view = { λ e. e.bytes.items };

    ghost invariant = { λ e. length e.bytes.items ≤ most_echoed_bytes };
}

impl Echoed {
    /// Nothing is echoed yet.
    pub fn new(alloc: Global) -> Echoed
        ensures { result ≡ [] }
    {
        Echoed {
            bytes: Vec::new(alloc),
        }
    }

    /// Adds bytes at the end. `Limit` where there is no room for them.
    fn add(&mut self, bytes: &[u8]) -> Result<(), CommandEnd>
        ensures { Echoes self.old self.new bytes.now result }
    {
        if bytes.len() > MOST_ECHOED_BYTES - self.bytes.len() {
            return Err(CommandEnd::Refused(ScriptKind::Limit));
        }
        self.bytes.extend_from_slice(bytes)?;
        Ok(())
    }

    /// Adds word `i` of a line: behind a blank, if it isn't the first.
    fn add_word(&mut self, i: usize, word: &Text) -> Result<(), CommandEnd>
        ensures { Echoes self.old self.new (between i ++ word.now) result }
    {
        if i > 0 {
            match self.add(b" ") {
                Ok(()) => {}
                Err(end) => return Err(end),
            }
        }
        self.add(word.as_str().as_bytes())
    }

    /// Adds the words with a blank between each two, and LF. `Limit` where there is no room for them.
    pub fn echo(&mut self, words: &[Text]) -> Result<(), CommandEnd>
        ensures { Echoes self.old self.new (line_of_words words.now) result }
    {
        for (i, word) in words.iter().enumerate() {
            match self.add_word(i, word) {
                Ok(()) => {}
                Err(end) => return Err(end),
            }
        }
        self.add(b"\n")
    }

    /// The text as a list, without taking memory.
    pub fn into_list(self) -> ByteList
        ensures { result ≡ self }
    {
        let Echoed { bytes } = self;
        ByteList::from_vec(bytes)
    }
}
