//! The variables of a command file.
ghost use Rattle.std.specs.Prelude.{◌≡◌, OnOk, OnErr};
ghost use Rattle.std.specs.Option.{option_copied};
ghost use Rattle.hscript_text.specs.Pieces.{no_variables, with_variable};
ghost use Rattle.hscript_text.specs.Parts.{variables_of};

use sop_outside::Text;
use std::alloc::{AllocError, Global};
use std::collections::BTreeMap;

/// The text of each variable by its name.
#[derive(Drop)]
pub struct Variables {
    texts: BTreeMap<String, Text>,
    alloc: Global,
}

impl Variables {
    /// No variable is set.
    pub fn new(alloc: Global) -> Variables
        ensures { variables_of result ≡ no_variables }
    {
        Variables {
            texts: BTreeMap::new(alloc),
            alloc,
        }
    }

    /// The text of a variable.
    pub fn get(&self, name: &str) -> Option<&Text>
        ensures { option_copied result ≡ variables_of self.now name.now }
    {
        self.texts.get(name)
    }

    /// Sets a variable, in place of a former text of it.
    pub fn set(&mut self, name: &str, text: Text) -> Result<(), AllocError>
        ensures ok { OnOk result (variables_of self.new ≡ with_variable (variables_of self.old) name.now text) }
        ensures err { OnErr result (variables_of self.new ≡ variables_of self.old) }
    {
        let name = String::from_str(self.alloc, name)?;
        self.texts.insert(name, text)?;
        Ok(())
    }
}
