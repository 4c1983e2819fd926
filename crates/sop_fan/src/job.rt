// What workers run, and how it ends.
ghost use Rattle.std.specs.Prelude.{◌≡◌, ℕ, None, IfOk, IfErr};

use std::alloc::{AllocError, AllocFailed};

/// A job is run by at most so many workers.
pub const MOST_WORKERS: u32 = 64;

/// Why a job stops at a ticket.
#[derive(Debug, Drop)]
pub enum Stop<F> {
    /// The ticket has this fault.
    Fault(F),
    /// Memory ran out.
    Memory,
}

impl<F> From<AllocError> for Stop<F> {
    ghost use Rattle.sop_fan.specs.declared.job.Stop.TheVariants.{Memory};

    ghost from_gives = { λ _ stop. stop ≡ Memory };

    fn from(_: AllocError) -> Stop<F> {
        Stop::Memory
    }
}

impl<T: Drop, F> From<AllocFailed<T>> for Stop<F> {
    ghost use Rattle.sop_fan.specs.declared.job.Stop.TheVariants.{Memory};

    ghost from_gives = { λ _ stop. stop ≡ Memory };

    fn from(_: AllocFailed<T>) -> Stop<F> {
        Stop::Memory
    }
}

/// Why `gather` stops.
#[derive(Debug, Drop)]
pub enum FanEnd<F> {
    /// The least ticket that has a fault, and its fault.
    Fault(u32, F),
    /// Memory ran out.
    Memory,
}

impl<F> From<AllocError> for FanEnd<F> {
    ghost use Rattle.sop_fan.specs.declared.job.FanEnd.TheVariants.{Memory};

    ghost from_gives = { λ _ end. end ≡ Memory };

    fn from(_: AllocError) -> FanEnd<F> {
        FanEnd::Memory
    }
}

/// Work that is cut into tickets. What it answers for a ticket depends on no other ticket, nor on
/// the order in which workers run them: each ticket either has a fault, or a test on its results. A job
/// that needs something of what it borrows, as that a view is readable, says so by `ready`.
pub trait Job {
    /// The result of a ticket.
    type Out: Send + Drop;

    /// What can be wrong with a ticket.
    type Fault: Send + Drop;

    ghost use Rattle.std.specs.Prelude.{Option};
    ghost use Rattle.sop_fan.specs.Jobs.{IsStopOf};

    /// What the job needs to run a ticket.
    ghost ready: { Self → ℕ → Type 0 };

    /// The fault of a ticket, or none.
    ghost fault: { Self → ℕ → Option Self.Fault };

    /// The test on the results of a ticket.
    ghost admits: { Self → ℕ → Self.Out → Type 0 };

    /// Runs ticket k: its fault where it has one, and else a result that its test admits.
    fn run(&self, k: u32) -> Result<Self::Out, Stop<Self::Fault>>
        requires { ready self.now k }
        ensures ok { IfOk result (λ out. (fault self.now k ≡ None) × admits self.now k out) }
        ensures err { IfErr result (IsStopOf (fault self.now k)) };
}
