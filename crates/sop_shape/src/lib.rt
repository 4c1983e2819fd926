//! The shape of a geometry: which primitives are closed, where their vertices end, and the point of each vertex, without any row.
//! A contract speaks of every geometry that has the shape: what a read answers of it, and which shape it has after a call.
#![tactic(auto)]

mod adding;
mod grouping;
mod growing;
mod keeping;
mod lists;
mod making;
mod ordering;
mod shape;
mod staying;

pub use keeping::Left;
pub use shape::Shape;

#[cfg(test)]
mod tests;
