//! Geometries under keys, as columns over counted pages.
//!
//! A vault keeps each geometry as columns of values, whose pages it counts: a geometry that is shared costs a count for each page, and
//! one that is changed gets pages of its own for what changes. Contracts see a map from keys to geometries.
#![tactic(auto)]

mod adding;
mod appending;
mod columns;
mod elements;
mod heads;
mod loading;
mod vault;
mod vault_end;
mod weight;

pub use vault::{GeoKey, Vault};
pub use vault_end::VaultEnd;

#[cfg(test)]
mod tests;
