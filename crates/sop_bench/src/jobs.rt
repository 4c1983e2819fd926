// Jobs of equal weight for the workers.
use sop_fan::{Job, MOST_WORKERS, Stop, gather};
use sop_outside::OpenGate;
use std::alloc::Global;
use std::thread::Threads;

/// The jobs of a run.
const JOBS: u32 = 1000;

/// How often a job mixes its bits.
const ROUNDS: u32 = 300_000;

/// The sum of all results, the same for each number of workers; none where memory runs out.
pub fn sum_of_jobs<R: Threads + Sync>(rt: &R, alloc: Global, workers: u32) -> Option<u64> {
    let outs = gather(
        rt,
        alloc,
        workers.clamp(1, MOST_WORKERS),
        JOBS,
        &OpenGate,
        &Mixing,
    )
    .ok()?;
    Some(outs.iter().fold(0u64, |sum, out| sum.wrapping_add(*out)))
}

/// Mixes the bits of a ticket's number again and again. Its results are tested for nothing.
#[derive(Drop)]
struct Mixing;

impl Job for Mixing {
    type Out = u64;

    type Fault = u32;

    ghost use Rattle.std.specs.Prelude.{None};

    ghost ready = { λ job k. Unit {0} };

    ghost fault = { λ job k. None };

    ghost admits = { λ job k out. Unit {0} };

    fn run(&self, k: u32) -> Result<u64, Stop<u32>> {
        let mut bits = u64::from(k) + 1;
        for _ in 0..ROUNDS {
            bits ^= bits << 13;
            bits ^= bits >> 7;
            bits ^= bits << 17;
        }
        Ok(bits)
    }
}
