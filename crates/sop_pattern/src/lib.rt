//! Group patterns: texts that select elements of a class.
#![tactic(auto)]

mod fault;
mod law;
mod marks;
mod named;
mod numbers;
mod pattern;
mod read;
mod wildcard;
mod word;

pub use fault::PatternFault;
pub use law::atoms_are_spelled;
pub use pattern::Pattern;
pub use wildcard::matches;
pub use word::{Atom, Effect, Word};

#[cfg(test)]
mod tests;
