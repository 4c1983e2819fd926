//! Pages of cells that several holders share: each page is counted, and copied only when one of many holders changes it.
//!
//! A holder keeps the ids of its pages. Contracts see a page as the list of its cells, an id as a number,
//! and a store as the cells and the count at each id.
#![tactic(auto)]

mod cell;
mod page;
mod store;

pub use cell::Cell;
pub use page::{MOST_CELLS, Page, PageList};
pub use store::{PageId, PageIdList, PageStore};

#[cfg(test)]
mod tests;
