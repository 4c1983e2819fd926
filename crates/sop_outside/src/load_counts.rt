//! Counts of how loads end.
ghost use Rattle.std.specs.Prelude.{◌≡◌, Err};
ghost use Rattle.sop_outside.specs.Causes.{Counts};

use crate::files::LoadEnd;

/// How many loads failed, found no file, and found a file too long. Each count stops at 2^64 - 1.
#[derive(Clone, Copy, Debug, PartialEq, Eq)]
pub struct LoadCounts {
    pub faults: u64,
    pub misses: u64,
    pub overs: u64,
}

impl LoadCounts {
    /// The counts of a new object.
    pub const ZERO: LoadCounts = LoadCounts {
        faults: 0,
        misses: 0,
        overs: 0,
    };

    /// Counts how a load ended.
    pub(crate) fn count<T>(&mut self, loaded: &Result<T, LoadEnd>)
        ensures faults { Counts self.old.faults self.new.faults (loaded.now ≡ Err LoadEnd.Failed) }
        ensures misses { Counts self.old.misses self.new.misses (loaded.now ≡ Err LoadEnd.Missing) }
        ensures overs { Counts self.old.overs self.new.overs (loaded.now ≡ Err LoadEnd.TooLong) }
    {
        match loaded {
            Err(LoadEnd::Failed) => self.faults = self.faults.saturating_add(1),
            Err(LoadEnd::Missing) => self.misses = self.misses.saturating_add(1),
            Err(LoadEnd::TooLong) => self.overs = self.overs.saturating_add(1),
            Err(LoadEnd::Memory) | Ok(_) => {}
        }
    }
}
