//! Loads that were kept.
ghost use Rattle.std.specs.Prelude.{◌≡◌, OnOk, OnErr, Some, is_some};
ghost use Rattle.std.specs.Option.{option_copied};
ghost use Rattle.std.specs.FinMap as map;

use sop_outside::ByteList;
use std::alloc::{AllocError, Global};
use std::collections::BTreeMap;
use std::marker::Model;

/// What the load of a file gave.
#[derive(Debug, Drop)]
pub enum LoadedFile {
    /// Its bytes, at most 64 MiB.
    Bytes(ByteList),
    /// There is no such file.
    Missing,
    /// It is longer than 64 MiB.
    TooLong,
}

/// The loads of files by name.
#[derive(Drop)]
pub struct Loaded {
    files: BTreeMap<String, LoadedFile>,
    alloc: Global,
}

impl Model for Loaded {
    ghost use Rattle.sop_outside.specs.TextMaps.{by_bytes};
    ghost use Rattle.sop_basic.specs.Loads.{Loads, loads_code};

    ghost Value = { Loads };

    ghost coded = { loads_code };

    ghost view = { λ l. by_bytes l.files.entries };
}

impl Loaded {
    /// No loads. It takes memory from `alloc` when it grows.
    pub fn new(alloc: Global) -> Loaded
        ensures { result ≡ map.empty }
    {
        Loaded {
            files: BTreeMap::new(alloc),
            alloc,
        }
    }

    /// Adds the load of a name, or replaces the one that is there. A refused call leaves the loads as they were.
    pub fn add(&mut self, name: &str, file: LoadedFile) -> Result<(), AllocError>
        ensures ok { OnOk result (self.new ≡ map.insert self.old name.now file) }
        ensures err { OnErr result (self.new ≡ self.old) }
    {
        let name = String::from_str(self.alloc, name)?;
        match self.files.insert(name, file) {
            Ok(_) => Ok(()),
            Err(_) => Err(AllocError),
        }
    }

    /// Whether there is a load of this name. It takes no memory.
    pub fn has(&self, name: &str) -> bool
        ensures { result ≡ is_some (map.get self.now name.now) }
    {
        self.files.contains_key(name)
    }

    /// The load of a name; None where there is none. It takes no memory.
    pub fn get(&self, name: &str) -> Option<&LoadedFile>
        ensures { option_copied result ≡ map.get self.now name.now }
    {
        self.files.get(name)
    }
}
