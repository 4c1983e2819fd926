// Laws of the definitions.
ghost use Rattle.std.specs.Prelude.{◌≡◌, ℕ, List, Some, Err};
ghost use Rattle.sop_net.specs.declared.node_type.NodeType.{NodeType};
ghost use Rattle.sop_net.specs.declared.net_end.NetEnd.TheVariants as end;
ghost use Rattle.sop_net.specs.NodeTable.{row_of, type_of_word, default_parms, parms_of};
ghost use Rattle.sop_net.specs.Network.{Network, AreValues};
ghost use Rattle.sop_net.specs.Steps.{added_node, set_node, wired_node, removed_node};

/// The law of the node table: each type's word finds that type, and its parameters take their first texts. So a type that the table or the
/// list of types lacks is refused. The call does nothing.
pub fn each_type_is_found()
    ensures word { (t : NodeType) → type_of_word (row_of t).word ≡ Some t }
    ensures defaults { (t : NodeType) → AreValues (parms_of t) (default_parms t) }
{}

/// The law that no step of a network is refused for want of memory. The call does nothing.
pub fn no_step_wants_memory()
    ensures added { (net : Network) (word name : List ℕ) → added_node net word name ≡ Err end.Memory → ⊥ }
    ensures set { (net : Network) (name : List ℕ) (pairs : List (List ℕ)) → set_node net name pairs ≡ Err end.Memory → ⊥ }
    ensures wired { (net : Network) (name index source : List ℕ) → wired_node net name index source ≡ Err end.Memory → ⊥ }
    ensures removed { (net : Network) (name : List ℕ) → removed_node net name ≡ Err end.Memory → ⊥ }
{}
