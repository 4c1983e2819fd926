// The answer of all workers.
ghost use Rattle.std.specs.Prelude.{ℕ, ◌<◌, ◌≤◌, ◌^◌, IfOk, IfErr, MatchResult};
ghost use Rattle.sop_fan.specs.Jobs.{AreAnswers, IsFirstFault, IsEndOf};

use crate::job::{FanEnd, Job, MOST_WORKERS};
use crate::placing::in_order;
use crate::worker::{Haul, spread};
use sop_claim::Board;
use sop_outside::Gate;
use std::alloc::{AllocError, Global};
use std::thread::Threads;

// All results, or the least ticket that has a fault, and its fault.
fn outcome<R: Threads + Sync, J: Job + Sync, G: Gate + Sync>(
    rt: &R,
    alloc: Global,
    workers: u32,
    n: u32,
    gate: &G,
    job: &J,
) -> Result<Result<Vec<J::Out>, (u32, J::Fault)>, AllocError>
    requires workers { (1 ≤ workers) × (workers ≤ MOST_WORKERS) }
    requires ready { (k : ℕ) → k < n → J.ready job.now k }
    ensures ok { IfOk result (λ end. IfOk end (λ outs. AreAnswers (J.fault job.now) (J.admits job.now) n outs.items)) }
    ensures fault { IfOk result (λ end. IfErr end (λ found. IsFirstFault (J.fault job.now) n found.0 found.1)) }
{
    let (board, pass) = Board::new(alloc, n)?;
    let Haul { pass, outs, fault } = spread(rt, alloc, workers, &board, pass, gate, job)?;
    board.close(pass)?;
    match fault {
        Some(found) => Ok(Err(found)),
        None => Ok(Ok(in_order(alloc, n, outs)?)),
    }
}

/// Runs the tickets 0 to n-1 of a job by 1 to `MOST_WORKERS` workers, each in a thread of its own where threads
/// can be had. A worker draws a ticket, enters the gate, and then runs the ticket, or skips it where
/// a lesser one has a fault. It ends once all tickets are drawn.
///
/// `Ok` has one result for each ticket, in order. `Fault` comes exactly where a ticket below n has
/// a fault, and tells the least such ticket, whichever worker came first.
pub fn gather<R: Threads + Sync, J: Job + Sync, G: Gate + Sync>(
    rt: &R,
    alloc: Global,
    workers: u32,
    n: u32,
    gate: &G,
    job: &J,
) -> Result<Vec<J::Out>, FanEnd<J::Fault>>
    requires workers { (1 ≤ workers) × (workers ≤ MOST_WORKERS) }
    requires ready { (k : ℕ) → k < n → J.ready job.now k }
    ensures ok { IfOk result (λ outs. AreAnswers (J.fault job.now) (J.admits job.now) n outs.items) }
    ensures err { IfErr result (IsEndOf (J.fault job.now) n) }
{
    match outcome(rt, alloc, workers, n, gate, job)? {
        Ok(outs) => Ok(outs),
        Err((k, fault)) => Err(FanEnd::Fault(k, fault)),
    }
}
