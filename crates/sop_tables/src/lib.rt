//! The attributes and groups of one class of elements, with a column of values for each attribute and the members of each group.
#![tactic(auto)]

mod beside;
mod cells;
mod changed;
mod fresh;
mod heads;
mod joined;
mod loaded;
mod lots;
mod sets;
mod spare;
mod table;

pub use changed::Change;
pub use table::Table;

#[cfg(test)]
mod tests;
