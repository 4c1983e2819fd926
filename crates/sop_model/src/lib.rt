//! Values, geometries as rows, and the view through which every geometry is read.
#![tactic(auto)]

pub mod class;
pub mod copies;
pub mod fault;
pub mod geo;
mod geo_view;
pub mod limits;
mod name;
mod places;
mod plain;
pub mod primitives;
pub mod samples;
pub mod value;
pub mod view;

pub use class::Class;
pub use copies::Copied;
pub use fault::{CookStop, Fault};
pub use geo::{
    Corner, CornerList, FlagList, Geo, Head, HeadList, HeadSet, Prim, Primitive, Row, RowList,
    ValueList,
};
pub use name::{continues_name, is_name, starts_name};
pub use places::place_of;
pub use primitives::PrimList;
pub use value::{IntList, Kind, RealList, Value, ValueRef, VectorList};
pub use view::{GeoView, Inputs};

#[cfg(test)]
mod tests;
