//! What the commands of a network are called.
ghost use Rattle.std.specs.Prelude.{◌≡◌};
ghost use Rattle.hscript_text.specs.Commands.{verb_of};

/// A command of a network by the word that names it.
#[derive(Clone, Copy)]
pub enum Verb {
    OpAdd,
    OpParm,
    OpWire,
    OpRm,
}

/// The command that this word names.
pub fn verb_of(word: &str) -> Option<Verb>
    ensures { result ≡ verb_of word.now }
{
    match word {
        "opadd" => Some(Verb::OpAdd),
        "opparm" => Some(Verb::OpParm),
        "opwire" => Some(Verb::OpWire),
        "oprm" => Some(Verb::OpRm),
        _ => None,
    }
}
