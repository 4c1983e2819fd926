//! The basic nodes: a file that is read, points, lines, grids and boxes that are made, inputs that are handed on, places that are
//! moved, and attributes that come, go and count. And what a group pattern selects.
#![tactic(auto)]

mod add;
mod attrib_create;
mod attrib_delete;
mod box_node;
mod cook;
mod enumerate;
mod file;
mod filling;
mod grid;
mod heads;
mod line;
mod loaded;
mod making;
mod movement;
mod numbers;
mod parm_texts;
mod parts;
mod quads;
mod selecting;
mod xform;

pub use cook::{cook_basic, is_basic};
pub use loaded::{Loaded, LoadedFile};
pub use making::{finish, stop_of};
pub use parm_texts::class_in;
pub use selecting::selected;
