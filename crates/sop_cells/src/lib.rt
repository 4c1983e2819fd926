//! Columns of cells in counted pages: of a store of its own, and of a base that others keep.
#![tactic(auto)]

mod cells;
mod packer;
mod place;
mod shelf;

pub use cells::Cells;
pub use place::{Place, PlaceList};
pub use shelf::Shelf;

#[cfg(test)]
mod tests;
