// The limits of networks.
ghost use Rattle.std.specs.Prelude.{◌≡◌};
ghost use Rattle.sop_net.specs.Limits.{most_nodes, most_added, most_inputs, most_input_digits, most_whole_digits, most_vectors_bytes};

/// The nodes of a network.
pub const MOST_NODES: usize = 1_024;

/// How many nodes are ever added to a network.
pub const MOST_ADDED: u64 = u64::MAX;

/// The inputs of a node.
pub const MOST_INPUTS: u32 = 32;

/// The digits of the text that names an input.
pub const MOST_INPUT_DIGITS: usize = 2;

/// The digits of a whole number that a parameter takes.
pub const MOST_WHOLE_DIGITS: usize = 10;

/// The bytes of a list of vectors.
pub const MOST_VECTORS_BYTES: usize = 65_536;

/// A law: these are the limits that the definitions say.
pub fn limits_are_as_defined()
    ensures nodes { MOST_NODES ≡ most_nodes }
    ensures added { MOST_ADDED ≡ most_added }
    ensures inputs { MOST_INPUTS ≡ most_inputs }
    ensures input_digits { MOST_INPUT_DIGITS ≡ most_input_digits }
    ensures whole_digits { MOST_WHOLE_DIGITS ≡ most_whole_digits }
    ensures vectors_bytes { MOST_VECTORS_BYTES ≡ most_vectors_bytes }
{}
