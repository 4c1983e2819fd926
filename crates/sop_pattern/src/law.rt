// What a text must look like to be read as an atom.
ghost use Rattle.std.specs.Prelude.{◌≡◌, ◌↔◌, Some};
ghost use Rattle.sop_pattern.specs.declared.word.Atom.{Atom};
ghost use Rattle.sop_pattern.specs.Words.{atom_of};
ghost use Rattle.sop_pattern.specs.Spelling.{IsAtom};

/// The law that a text is read as an atom exactly where it is spelled as one of the forms. The call does nothing.
pub fn atoms_are_spelled(word: &[u8])
    ensures { (atom : Atom) → (atom_of word.now ≡ Some atom) ↔ IsAtom word.now atom }
{}
