//! Named files.
ghost use Rattle.std.specs.Prelude.{◌≡◌, ◌≤◌, ℕ, IfOk, IfSome, MatchResult, Option, vec_len};
ghost use Rattle.sop_outside.specs.Causes.{Counts};
ghost use Rattle.sop_outside.specs.Load.{Names, load_of, IsRefusal};

use std::alloc::Global;

/// Why a load gave no bytes.
#[derive(Clone, Copy, Debug, PartialEq, Eq)]
pub enum LoadEnd {
    /// There is no file of this name. It comes only where the count of misses rose.
    Missing,
    /// The file could not be read. It comes only where the count of faults rose.
    Failed,
    /// The file has more bytes than the limit. It comes only where the count of overs rose.
    TooLong,
    /// There was not enough memory.
    Memory,
}

/// Files under names.
pub trait Files {
    /// The bytes of each name, where they are told.
    ghost told: { Self → Option Names };

    /// How many loads failed.
    ghost faults: { Self → ℕ };

    /// How many loads found no file of their name.
    ghost misses: { Self → ℕ };

    /// How many loads found a file longer than their limit.
    ghost overs: { Self → ℕ };

    /// The bytes of the file `name`, if they are at most `limit`. The counts never fall; a new object's
    /// are 0, and a count that reached 2^64 - 1 stands there.
    fn load(&mut self, alloc: Global, name: &str, limit: u64) -> Result<Vec<u8>, LoadEnd>
        ensures told { told self.new ≡ told self.old }
        ensures short { IfOk result (λ bytes. vec_len bytes ≤ limit) }
        ensures load { IfSome (told self.old) (λ names. MatchResult result
            (λ bytes. load_of names name.now limit ≡ Ok bytes.items)
            (IsRefusal (load_of names name.now limit))) }
        ensures faults { Counts (faults self.old) (faults self.new) (result ≡ Err LoadEnd.Failed) }
        ensures misses { Counts (misses self.old) (misses self.new) (result ≡ Err LoadEnd.Missing) }
        ensures overs { Counts (overs self.old) (overs self.new) (result ≡ Err LoadEnd.TooLong) };
}
