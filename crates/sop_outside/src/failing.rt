//! Calls that fail, by their numbers.
ghost use Rattle.std.specs.Prelude.{◌≡◌, [], ◌∷◌, ◌++◌, ◌↔◌, IsTrue, Contains, OnOk, OnErr};
ghost use Rattle.sop_outside.specs.Causes.{raised};

use crate::items::Items;
use std::alloc::{AllocError, Global};

/// Calls that fail, by their numbers from 1, and the number of the last call. It stops at 2^64 - 1.
#[derive(Drop)]
pub(crate) struct FailingCalls {
    named: Items<u64>,
    calls: u64,
}

impl FailingCalls {
    pub(crate) fn new(alloc: Global) -> FailingCalls
        ensures named { result.named ≡ [] }
        ensures calls { result.calls ≡ 0 }
    {
        FailingCalls {
            named: Items::new(alloc),
            calls: 0,
        }
    }

    /// Names a call that fails.
    pub(crate) fn add(&mut self, call: u64) -> Result<(), AllocError>
        ensures ok { OnOk result (self.new.named ≡ self.old.named ++ call ∷ []) }
        ensures err { OnErr result (self.new.named ≡ self.old.named) }
        ensures calls { self.new.calls ≡ self.old.calls }
    {
        self.named.add(call)
    }

    /// Counts a call, and says whether it fails.
    pub(crate) fn next_fails(&mut self) -> bool
        ensures calls { self.new.calls ≡ raised self.old.calls }
        ensures named { self.new.named ≡ self.old.named }
        ensures fails { IsTrue result ↔ Contains self.old.named self.new.calls }
    {
        self.calls = self.calls.saturating_add(1);
        self.named.as_slice().contains(&self.calls)
    }
}
