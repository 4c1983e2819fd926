// Workers, each with a pass of one board, and what they bring back.
ghost use Rattle.std.specs.Prelude.{◌≡◌, ℕ, ◌+◌, ◌-◌, ◌<◌, ◌≤◌, ◌++◌, OnOk, IfOk};
ghost use Rattle.std.specs.Thread.{IsSync};
ghost use Rattle.sop_claim.specs.Views.{IsHeld, share, joined};
ghost use Rattle.sop_claim.specs.Passes.{view_of, IsPassOf, tickets};
ghost use Rattle.sop_fan.specs.Hauls.{Carries, SameDraws, SettlesOne, IsBlank, IsHaul, lesser};

use crate::job::{Job, Stop};
use sop_claim::{Board, Pass};
use sop_outside::Gate;
use std::alloc::{AllocError, Global};
use std::thread::{Threads, join};

/// What a worker brings back: its pass, each result beside its ticket, and the fault of the least
/// ticket that it reported.
#[derive(Drop)]
pub struct Haul<O, F> {
    pub pass: Pass,
    pub outs: Vec<(u32, O)>,
    pub fault: Option<(u32, F)>,
}

// Settles a drawn ticket: it is skipped behind a fault, and else run.
fn settle<J: Job>(
    board: &Board,
    job: &J,
    haul: &mut Haul<J::Out, J::Fault>,
    k: u32,
) -> Result<(), AllocError>
    requires ready { J.ready job.now k }
    requires pass { IsPassOf board.now haul.old.pass }
    requires held { IsHeld (view_of haul.old.pass) k }
    requires carries { Carries (J.fault job.now) (J.admits job.now) (view_of haul.old.pass) haul.old.outs.items haul.old.fault }
    ensures pass { OnOk result (IsPassOf board.now haul.new.pass) }
    ensures same { OnOk result (SameDraws (view_of haul.old.pass) (view_of haul.new.pass)) }
    ensures settled { OnOk result (SettlesOne (view_of haul.old.pass) (view_of haul.new.pass) k) }
    ensures carries { OnOk result (Carries (J.fault job.now) (J.admits job.now) (view_of haul.new.pass) haul.new.outs.items haul.new.fault) }
{
    let least = board.least(&mut haul.pass);
    if least < k {
        board.skip(&mut haul.pass, k);
        return Ok(());
    }
    match job.run(k) {
        Ok(out) => {
            haul.outs.push((k, out))?;
            board.done(&mut haul.pass, k);
            Ok(())
        }
        Err(Stop::Fault(fault)) => {
            board.report(&mut haul.pass, k);
            haul.fault = Some((k, fault));
            Ok(())
        }
        Err(Stop::Memory) => Err(AllocError),
    }
}

// One worker: draws and settles tickets until all are drawn.
fn work<J: Job, G: Gate>(
    alloc: Global,
    board: &Board,
    pass: Pass,
    gate: &G,
    job: &J,
) -> Result<Haul<J::Out, J::Fault>, AllocError>
    requires ready { (k : ℕ) → k < tickets board.now → J.ready job.now k }
    requires pass { IsPassOf board.now pass }
    requires room { 1 ≤ (view_of pass).room }
    requires blank { IsBlank (view_of pass) }
    ensures { IfOk result (λ haul. IsHaul (J.fault job.now) (J.admits job.now) board.now (share (view_of pass)) haul.pass haul.outs.items haul.fault) }
{
    let mut haul = Haul {
        pass,
        outs: Vec::new(alloc),
        fault: None,
    };
    while let Some(k) = board.draw(&mut haul.pass) {
        gate.enter(k);
        settle(board, job, &mut haul, k)?;
    }
    Ok(haul)
}

// Two hauls as one.
fn merged<O: Drop, F: Drop>(
    board: &Board,
    mut haul: Haul<O, F>,
    other: Haul<O, F>,
) -> Result<Haul<O, F>, AllocError>
    requires pass { IsPassOf board.now haul.pass }
    requires other { IsPassOf board.now other.pass }
    ensures pass { IfOk result (λ both. IsPassOf board.now both.pass) }
    ensures view { IfOk result (λ both. view_of both.pass ≡ joined (view_of haul.pass) (view_of other.pass)) }
    ensures outs { IfOk result (λ both. both.outs.items ≡ haul.outs.items ++ other.outs.items) }
    ensures fault { IfOk result (λ both. both.fault ≡ lesser haul.fault other.fault) }
{
    let Haul {
        pass,
        mut outs,
        fault,
    } = other;
    board.join(&mut haul.pass, pass);
    haul.outs.append(&mut outs)?;
    haul.fault = match (haul.fault, fault) {
        (Some(one), Some(two)) => Some(if two.0 < one.0 { two } else { one }),
        (Some(one), None) => Some(one),
        (None, two) => two,
    };
    Ok(haul)
}

/// The haul of so many workers, each in a thread of its own, where threads can be had.
pub fn spread<R: Threads + Sync, J: Job + Sync, G: Gate + Sync>(
    rt: &R,
    alloc: Global,
    workers: u32,
    board: &Board,
    mut pass: Pass,
    gate: &G,
    job: &J,
) -> Result<Haul<J::Out, J::Fault>, AllocError>
    requires some { 1 ≤ workers }
    requires ready { (k : ℕ) → k < tickets board.now → J.ready job.now k }
    requires pass { IsPassOf board.now pass }
    requires room { workers ≤ (view_of pass).room }
    requires blank { IsBlank (view_of pass) }
    ensures { IfOk result (λ haul. IsHaul (J.fault job.now) (J.admits job.now) board.now (share (view_of pass)) haul.pass haul.outs.items haul.fault) }
{
    if workers == 1 {
        return work(alloc, board, pass, gate, job);
    }
    let other = board.split(&mut pass)?;
    let (one, others) = join(
        rt,
        move || -> Result<Haul<J::Out, J::Fault>, AllocError>
            requires { ((k : ℕ) → k < tickets board.now → J.ready job.now k) × IsPassOf board.now other × (1 ≤ (view_of other).room) × IsBlank (view_of other) }
            ensures { IfOk result (λ haul. IsHaul (J.fault job.entry.now) (J.admits job.entry.now) board.entry.now (share (view_of other)) haul.pass haul.outs.items haul.fault) }
        { work(alloc, board, other, gate, job) },
        move || -> Result<Haul<J::Out, J::Fault>, AllocError>
            requires { IsSync R.row × IsSync J.row × IsSync G.row × (2 ≤ workers) × ((k : ℕ) → k < tickets board.now → J.ready job.now k) × IsPassOf board.now pass × (workers - 1 ≤ (view_of pass).room) × IsBlank (view_of pass) }
            ensures { IfOk result (λ haul. IsHaul (J.fault job.entry.now) (J.admits job.entry.now) board.entry.now (share (view_of pass)) haul.pass haul.outs.items haul.fault) }
        { spread(rt, alloc, workers - 1, board, pass, gate, job) },
    );
    merged(board, others?, one?)
}
