//! The combining nodes: geometries merged, and elements that go and groups that are made by group patterns.
#![tactic(auto)]

mod blast;
mod cook;
mod group_create;
mod marking;
mod members;
mod merge;

pub use cook::{cook_combine, is_combining};
