//! Points near a place: those within a radius, by distance and then by number.
#![tactic(auto)]

mod cells;
mod hits;
mod near;
mod places;

pub use near::Near;

#[cfg(test)]
mod tests;
