//! The network: nodes with their parameters and wires, which never go in a circle.
#![tactic(auto)]

mod input;
mod law;
pub mod limits;
mod needs;
mod net;
mod net_end;
mod node;
mod node_type;
mod order;
mod place;
mod staged;
mod table;
mod value;

pub use law::{each_type_is_found, no_step_wants_memory};
pub use net::Net;
pub use net_end::NetEnd;
pub use node::{Node, NodeId, Parms, Sockets, WireList};
pub use node_type::NodeType;

#[cfg(test)]
mod tests;
