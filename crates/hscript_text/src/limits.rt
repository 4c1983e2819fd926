//! The limits of command files.
ghost use Rattle.std.specs.Prelude.{◌≡◌};
ghost use Rattle.hscript_text.specs.Limits.{most_script_bytes, most_word_bytes, most_echoed_bytes};

/// The bytes of a command file.
pub const MOST_SCRIPT_BYTES: usize = 4_194_304;

/// The bytes of a word, after quotes and variables.
pub const MOST_WORD_BYTES: usize = 65_536;

/// The bytes of the echoed text.
pub const MOST_ECHOED_BYTES: usize = 1_048_576;

/// A law: these are the limits that the definitions say.
pub fn limits_are_as_defined()
    ensures script_bytes { MOST_SCRIPT_BYTES ≡ most_script_bytes }
    ensures word_bytes { MOST_WORD_BYTES ≡ most_word_bytes }
    ensures echoed_bytes { MOST_ECHOED_BYTES ≡ most_echoed_bytes }
{}
