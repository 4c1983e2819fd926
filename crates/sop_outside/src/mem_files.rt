//! Files in memory.
ghost use Rattle.std.specs.Prelude.{◌≡◌, ◌≢◌, ◌≤◌, ◌↔◌, [], ◌∷◌, ◌++◌, IfOk, IfSome, OnOk, OnErr, MatchResult, Contains, Some, vec_len};
ghost use Rattle.std.specs.Option.{option_copied};
ghost use Rattle.std.specs.FinMap as map;
ghost use Rattle.sop_outside.specs.Causes.{Counts, raised};
ghost use Rattle.sop_outside.specs.Load.{within, load_of, IsRefusal};
ghost use Rattle.sop_outside.specs.MemFiles.{no_files};

use crate::failing::FailingCalls;
use crate::files::{Files, LoadEnd};
use crate::items::ByteList;
use crate::load_counts::LoadCounts;
use std::alloc::{AllocError, Global};
use std::collections::BTreeMap;
use std::marker::Model;

/// Files in memory, which tell their bytes. Loads fail where their numbers were named.
#[derive(Drop)]
pub struct MemFiles {
    files: BTreeMap<String, ByteList>,
    failing: FailingCalls,
    counts: LoadCounts,
    alloc: Global,
}

impl Model for MemFiles {
    ghost use Rattle.sop_outside.specs.MemFiles.{FilesInMemory, files_code};

    ghost Value = { FilesInMemory };

    ghost coded = { files_code };

    ghost use Rattle.sop_outside.specs.TextMaps.{by_bytes};

    ghost view = { λ f. record {
      names = by_bytes f.files.entries;
      failing = f.failing.named;
      loads = f.failing.calls;
      faults = f.counts.faults;
      misses = f.counts.misses;
      overs = f.counts.overs;
    } };
}

impl MemFiles {
    /// No files.
    pub fn new(alloc: Global) -> MemFiles
        ensures { result ≡ no_files }
    {
        MemFiles {
            files: BTreeMap::new(alloc),
            failing: FailingCalls::new(alloc),
            counts: LoadCounts::ZERO,
            alloc,
        }
    }

    /// Adds a file, or replaces the bytes of the one of that name.
    pub fn add(&mut self, name: &str, bytes: &[u8]) -> Result<(), AllocError>
        ensures ok { OnOk result (self.new ≡ record self.old { names = map.insert self.old.names name.now bytes.now }) }
        ensures err { OnErr result (self.new ≡ self.old) }
    {
        let name = String::from_str(self.alloc, name)?;
        let bytes = Vec::from_slice(self.alloc, bytes)?;
        self.files.insert(name, ByteList::from_vec(bytes))?;
        Ok(())
    }

    /// Names a load that fails, by its number from 1.
    pub fn fail_at(&mut self, call: u64) -> Result<(), AllocError>
        ensures ok { OnOk result (self.new ≡ record self.old { failing = self.old.failing ++ call ∷ [] }) }
        ensures err { OnErr result (self.new ≡ self.old) }
    {
        self.failing.add(call)
    }
}

impl Files for MemFiles {
    ghost told = { λ f. Some f.names };

    ghost faults = { λ f. f.faults };

    ghost misses = { λ f. f.misses };

    ghost overs = { λ f. f.overs };

    fn load(&mut self, alloc: Global, name: &str, limit: u64) -> Result<Vec<u8>, LoadEnd>
        ensures told { Some self.new.names ≡ Some self.old.names }
        ensures short { IfOk result (λ bytes. vec_len bytes ≤ limit) }
        ensures load { MatchResult result
            (λ bytes. load_of self.old.names name.now limit ≡ Ok bytes.items)
            (IsRefusal (load_of self.old.names name.now limit)) }
        ensures faults { Counts self.old.faults self.new.faults (result ≡ Err LoadEnd.Failed) }
        ensures misses { Counts self.old.misses self.new.misses (result ≡ Err LoadEnd.Missing) }
        ensures overs { Counts self.old.overs self.new.overs (result ≡ Err LoadEnd.TooLong) }

        // A load fails exactly where its number was named.
        ensures number { self.new.loads ≡ raised self.old.loads }
        ensures failing { self.new.failing ≡ self.old.failing }
        ensures fails { (result ≡ Err LoadEnd.Failed) ↔ Contains self.old.failing self.new.loads }
    {
        let loaded = if self.failing.next_fails() {
            Err(LoadEnd::Failed)
        } else {
            load_found(alloc, self.find(name), limit)
        };
        self.counts.count(&loaded);
        loaded
    }
}

impl MemFiles {
    /// The bytes of the file of this name, if there is one.
    fn find(&self, name: &str) -> Option<&ByteList>
        ensures { option_copied result ≡ map.get self.now.names name.now }
    {
        self.files.get(name)
    }
}

/// A copy of the bytes that were found, if there are any and they are at most `limit`.
fn load_found(alloc: Global, found: Option<&ByteList>, limit: u64) -> Result<Vec<u8>, LoadEnd>
    ensures load { MatchResult result
        (λ bytes. within limit (option_copied found.entry) ≡ Ok bytes.items)
        (IsRefusal (within limit (option_copied found.entry))) }
    ensures short { IfOk result (λ bytes. vec_len bytes ≤ limit) }
    ensures never_failed { result ≢ Err LoadEnd.Failed }
{
    let Some(bytes) = found else {
        return Err(LoadEnd::Missing);
    };
    if bytes.len() as u64 > limit {
        return Err(LoadEnd::TooLong);
    }
    Vec::from_slice(alloc, bytes.as_slice()).map_err(|_| LoadEnd::Memory)
}
