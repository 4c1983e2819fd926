//! Texts of geometries: OBJ, read and written, and the listing.
#![tactic(auto)]

mod columns;
mod columns_view;
mod frame;
mod geo_maker;
mod group_name;
mod groups;
mod leading;
mod listing;
mod obj;
mod obj_fault;
mod obj_lines;
mod obj_writer;
mod reader;
mod reference;
mod scan;
mod survey;
mod taker;
mod totals;
mod value_text;
mod vectors;
mod vertex_columns;
mod zero;

pub use columns::ObjColumns;
pub use geo_maker::GeoMaker;
pub use listing::write_list;
pub use obj::{read_obj, take_obj};
pub use obj_fault::ObjFault;
pub use obj_writer::write_obj;
pub use taker::{Attributes, ObjTaker, Room, Vertex};

#[cfg(test)]
mod listing_tests;
#[cfg(test)]
mod tests;
