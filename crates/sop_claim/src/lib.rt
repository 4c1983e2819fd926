//! Workers claim the tickets below n without waiting for one another.
//!
//! `Core` is the machine of claims: which events are allowed, and what a list of them leads to.
//! `Board` is what threads share: two words, from which passes draw tickets and to which they
//! report faults. A call on it is one or two atomic steps, and waits for nobody.
#![tactic(auto)]

mod board;
mod law;
mod machine;
mod rule;

pub use board::{Board, BoardEnd, Pass};
pub use law::steps_are_events;
pub use machine::{Core, Event, NotNow, Standing, claims_end_well, core_new, core_step};
pub use rule::{View, WHOLE_SHARE};

#[cfg(test)]
mod tests;
