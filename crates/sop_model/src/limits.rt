// The limits of geometries, of their values and of the texts of parameters.
ghost use Rattle.std.specs.Prelude.{◌≡◌};
ghost use Rattle.sop_model.specs.Limits.{most_points, most_prims, most_vertices, most_heads, most_groups, most_weight, most_string_bytes, most_list_items, most_name_bytes, most_snippet_bytes, most_pattern_bytes, most_text_bytes};

/// The points of a geometry.
pub const MOST_POINTS: usize = 1_000_000;

/// The primitives of a geometry.
pub const MOST_PRIMS: usize = 1_000_000;

/// The vertices of a geometry.
pub const MOST_VERTICES: usize = 4_000_000;

/// The attributes of one class.
pub const MOST_HEADS: usize = 64;

/// The groups of one class.
pub const MOST_GROUPS: usize = 256;

/// The weight of a geometry.
pub const MOST_WEIGHT: u64 = 40_000_000;

/// The bytes of a string, also of one that stands in a list.
pub const MOST_STRING_BYTES: usize = 4_096;

/// The items of a list.
pub const MOST_LIST_ITEMS: usize = 4_096;

/// The bytes of a name of a node, an attribute, a group or a variable.
pub const MOST_NAME_BYTES: usize = 64;

/// The bytes of a snippet.
pub const MOST_SNIPPET_BYTES: usize = 65_536;

/// The bytes of a group pattern.
pub const MOST_PATTERN_BYTES: usize = 1_024;

/// The bytes of every other text of a parameter.
pub const MOST_TEXT_BYTES: usize = 1_024;

/// A law: these are the limits that the definitions say.
pub fn limits_are_as_defined()
    ensures points { MOST_POINTS ≡ most_points }
    ensures prims { MOST_PRIMS ≡ most_prims }
    ensures vertices { MOST_VERTICES ≡ most_vertices }
    ensures heads { MOST_HEADS ≡ most_heads }
    ensures groups { MOST_GROUPS ≡ most_groups }
    ensures weight { MOST_WEIGHT ≡ most_weight }
    ensures string_bytes { MOST_STRING_BYTES ≡ most_string_bytes }
    ensures list_items { MOST_LIST_ITEMS ≡ most_list_items }
    ensures name_bytes { MOST_NAME_BYTES ≡ most_name_bytes }
    ensures snippet_bytes { MOST_SNIPPET_BYTES ≡ most_snippet_bytes }
    ensures pattern_bytes { MOST_PATTERN_BYTES ≡ most_pattern_bytes }
    ensures text_bytes { MOST_TEXT_BYTES ≡ most_text_bytes }
{}
