//! Laws of the definitions.
ghost use Rattle.std.specs.Prelude.{◌≡◌, ℕ, ◌+◌, List, take, drop};
ghost use Rattle.hscript_text.specs.declared.style.Style.{Style};
ghost use Rattle.hscript_text.specs.Pieces.{Variables, word_within};
ghost use Rattle.hscript_text.specs.Words.{command_from};
ghost use Rattle.hscript_text.specs.Reading.{line_ends, reading_from};

/// The law that what is skipped in a word, a command or a script counts for nothing but its lines. The call does nothing.
pub fn skipped_is_dropped()
    ensures word { (style : Style) (variables : Variables) (room k : ℕ) (text : List ℕ)
        → word_within style variables room k text ≡ word_within style variables room 0 (drop k text) }
    ensures command { (variables : Variables) (k : ℕ) (text : List ℕ) → command_from variables k text ≡ command_from variables 0 (drop k text) }
    ensures reading { (line : ℕ) (variables : Variables) (k : ℕ) (text : List ℕ)
        → reading_from line variables k text ≡ reading_from (line + line_ends (take k text)) variables 0 (drop k text) }
{}
