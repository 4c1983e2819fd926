//! The machine of claims, one event at a time.
ghost use Rattle.std.specs.Prelude.{◌≡◌, ℕ, ◌<◌, ◌↔◌, List, Some, None, IfOk, IsErr, OnOk, OnErr};
ghost use Rattle.sop_claim.specs.Claims.{Claims, start, step, after, AtRest, EndsWell};

use std::alloc::{AllocError, Global};
use std::marker::Model;

/// One atomic action of a worker. Workers and tickets are named by their numbers, from 0.
#[derive(Clone, Copy, Debug, PartialEq, Eq)]
pub enum Event {
    /// The worker draws the next ticket.
    Draw(u32),
    /// The worker has done the ticket.
    Done(u32, u32),
    /// The worker found a fault at the ticket.
    Fault(u32, u32),
    /// The worker skips the ticket, since it saw a fault at the lesser ticket that comes last.
    Skip(u32, u32, u32),
}

/// How a drawn ticket stands.
#[derive(Clone, Copy, Debug, PartialEq, Eq)]
pub enum Standing {
    /// This worker drew it, and has not settled it.
    Held(u32),
    Done,
    Faulty,
    Skipped,
}

/// The event is not allowed now.
#[derive(Clone, Copy, Debug, PartialEq, Eq)]
pub struct NotNow;

/// How many workers and tickets there are, the least faulty ticket, and how each drawn ticket
/// stands. Contracts see it as `Claims`.
#[derive(Drop)]
pub struct Core {
    workers: u32,
    n: u32,
    least: u32,
    tickets: Vec<Standing>,
}

impl Model for Core {
    ghost use Rattle.std.specs.Prelude.{◌≤◌, vec_len, vec_capacity};
    ghost use Rattle.sop_claim.specs.Claims.{Claims};

    ghost Value = { Claims };

    ghost view = { λ c. record {
      workers = c.workers;
      n = c.n;
      least = c.least;
      tickets = c.tickets.items;
    } };

    // A draw takes no memory.
    ghost invariant = { λ c. (c.n ≤ vec_capacity c.tickets) × (vec_len c.tickets ≤ c.n) };
}

impl Core {
    ghost use Rattle.std.specs.Prelude.{slice_get};
    ghost use Rattle.sop_claim.specs.Claims.{holds, is_faulty};

    fn holds(&self, worker: u32, ticket: u32) -> bool
        ensures { result ≡ holds self.now worker ticket }
    {
        match self.tickets.get(ticket as usize) {
            Some(Standing::Held(holder)) => *holder == worker,
            _ => false,
        }
    }

    fn is_faulty(&self, ticket: u32) -> bool
        ensures { result ≡ is_faulty (slice_get self.now.tickets ticket) }
    {
        match self.tickets.get(ticket as usize) {
            Some(Standing::Faulty) => true,
            _ => false,
        }
    }
}

/// The claims of so many workers on the tickets below n, of which none is drawn.
pub fn core_new(alloc: Global, workers: u32, n: u32) -> Result<Core, AllocError>
    ensures { IfOk result (λ core. core ≡ start workers n) }
{
    let tickets = Vec::with_capacity(alloc, n as usize)?;
    Ok(Core {
        workers,
        n,
        least: n,
        tickets,
    })
}

/// Takes the event where it is allowed, and else changes nothing. It takes no memory.
///
/// A draw is allowed to a worker below the number of workers, while a ticket is left. Only the
/// worker that holds a ticket settles it, and it skips one only if it saw a fault at a lesser one.
pub fn core_step(core: &mut Core, event: Event) -> Result<(), NotNow>
    ensures ok { OnOk result (step core.old event ≡ Some core.new) }
    ensures not_now { IsErr result ↔ (step core.old event ≡ None) }
    ensures err { OnErr result (core.new ≡ core.old) }
{
    match event {
        Event::Draw(worker) => {
            if worker >= core.workers || core.tickets.len() >= core.n as usize {
                return Err(NotNow);
            }
            core.tickets.push_reserved(Standing::Held(worker));
        }
        Event::Done(worker, ticket) => {
            if !core.holds(worker, ticket) {
                return Err(NotNow);
            }
            core.tickets[ticket as usize] = Standing::Done;
        }
        Event::Fault(worker, ticket) => {
            if !core.holds(worker, ticket) {
                return Err(NotNow);
            }
            core.tickets[ticket as usize] = Standing::Faulty;
            core.least = core.least.min(ticket);
        }
        Event::Skip(worker, ticket, seen) => {
            if !core.holds(worker, ticket) || seen >= ticket || !core.is_faulty(seen) {
                return Err(NotNow);
            }
            core.tickets[ticket as usize] = Standing::Skipped;
        }
    }
    Ok(())
}

/// A law of every list of events that comes to rest. Where no ticket was faulty, each is done.
/// Else each ticket below the least is done, and the least is faulty.
pub fn claims_end_well()
    ensures { (workers n : ℕ) (events : List Event) (end : Claims) → after (start workers n) events ≡ Some end → AtRest end → EndsWell end }
{}
