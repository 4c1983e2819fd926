// Patterns: read once, and used on any geometry.
ghost use Rattle.std.specs.Prelude.{◌≡◌, ◌≤◌, IfOk, IfErr, Ok, length};
ghost use Rattle.sop_model.specs.Geometry.{IsReadable};
ghost use Rattle.sop_model.specs.Limits.{most_pattern_bytes};
ghost use Rattle.sop_pattern.specs.Words.{pattern_of};
ghost use Rattle.sop_pattern.specs.Selection.{selection, IsReadFault, IsSelectFault};

use crate::fault::PatternFault;
use crate::marks::{first_missing, flags_of};
use crate::read::read_words;
use crate::word::Word;
use sop_model::{Class, GeoView};
use std::alloc::Global;
use std::marker::Model;

/// A pattern, which contracts see as the list of its words.
#[derive(Debug, Drop)]
pub struct Pattern {
    words: Vec<Word>,
}

impl Model for Pattern {
    ghost use Rattle.std.specs.Prelude.{◌≡◌, ◌<◌, ◌^◌, List, length, true};
    ghost use Rattle.std.specs.List.{list_all};
    ghost use Rattle.sop_pattern.specs.declared.word.Word.{Word};
    ghost use Rattle.sop_pattern.specs.Marks.{has_period};

    ghost Value = { List Word };

    ghost view = { λ p. p.words.items };

    ghost invariant = { λ p. (list_all (λ w. has_period w.atom) p.words.items ≡ true) × (length p.words.items < 2 ^ 32) };
}

impl Pattern {
    /// The pattern of a text of at most 1,024 bytes: words between blanks, which are space, tab, CR and LF. `BadWord` has
    /// the number of the first bad word, from 0. `Memory` may come at any text; `NoGroup` never does.
    pub fn read(alloc: Global, text: &str) -> Result<Pattern, PatternFault>
        requires { length text.now ≤ most_pattern_bytes }
        ensures ok { IfOk result (λ pattern. pattern_of text.now ≡ Ok pattern) }
        ensures err { IfErr result (IsReadFault (pattern_of text.now)) }
    {
        let words = read_words(alloc, text.as_bytes())?;
        Ok(Pattern { words })
    }

    /// What the pattern selects of a class of a geometry: a flag for each element, in order. `NoGroup` has the number of
    /// the first word, from 0, that is a name which no group of the class has. `Memory` may come at any pattern;
    /// `BadWord` never does.
    pub fn select<V: GeoView>(
        &self,
        alloc: Global,
        view: &V,
        class: Class,
    ) -> Result<Vec<bool>, PatternFault>
        requires { IsReadable (V.geo view.now) }
        ensures ok { IfOk result (λ flags. selection (V.geo view.now) class self.now ≡ Ok flags.items) }
        ensures err { IfErr result (IsSelectFault (selection (V.geo view.now) class self.now)) }
    {
        if let Some(place) = first_missing(&self.words, view, class) {
            return Err(PatternFault::NoGroup(place as u32));
        }
        Ok(flags_of(alloc, &self.words, view, class)?)
    }
}
