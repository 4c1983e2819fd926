//! Why a cook gives no geometry.
use sop_model::Fault;
use sop_net::NodeId;

/// Why a cook gives no geometry.
#[derive(Debug, Drop)]
pub enum CookEnd {
    /// A fault, and the node that it is of.
    Fault { node: NodeId, fault: Fault },
    /// There wasn't memory enough.
    Memory,
}
