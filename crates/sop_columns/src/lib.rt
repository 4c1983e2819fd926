//! Columns of values and of flags over counted pages, and the numbers of the texts and lists that their cells name.
#![tactic(auto)]

mod bit_column;
mod column;
mod names;

pub use bit_column::BitColumn;
pub use column::Column;
pub use names::Names;

#[cfg(test)]
mod tests;
