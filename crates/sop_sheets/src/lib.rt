//! A geometry as columns: a table for each class of elements, and the shape of its primitives.
#![tactic(auto)]

mod adding;
mod appending;
mod cells;
mod columns;
mod growing;
mod heads;
mod keeping;
mod loaded;
mod made;
mod ordering;
mod remade;
mod sheet;
mod topology;
mod view;

pub use sheet::Sheet;
pub use topology::Topology;
pub use view::GeoRef;
