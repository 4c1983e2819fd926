//! Marks on elements that are to go, and laws of what calls do to a geometry: what they leave is well made and within the limits exactly
//! where there is room, merges go in turn, and sweeps keep what stays. The definitions of the calls are those of `sop_model`.
#![tactic(auto)]

pub mod laws;
mod marks;

pub use marks::Marks;

#[cfg(test)]
mod tests;
