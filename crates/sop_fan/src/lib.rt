//! Workers that share the tickets of a job, and answer as one worker would.
#![tactic(auto)]

mod fan;
mod job;
mod placing;
mod worker;

pub use fan::gather;
pub use job::{FanEnd, Job, MOST_WORKERS, Stop};

#[cfg(test)]
mod tests;
