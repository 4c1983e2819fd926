//! The serial cook of a network: each needed node once, inputs before the node.
#![tactic(auto)]

mod cook_end;
mod kept;
mod law;
mod make;
mod serial;
mod uses;

pub use cook_end::CookEnd;
pub use law::cook_runs_visits;
pub use serial::cook;
pub use sop_basic::{Loaded, LoadedFile};

#[cfg(test)]
mod tests;
