//! Laws of tokens.
ghost use Rattle.std.specs.Prelude.{◌≡◌, ℕ, List, Some};
ghost use Rattle.vex_lexer.specs.declared.keyword.Keyword.{Keyword};
ghost use Rattle.vex_lexer.specs.declared.operator.Operator.{Operator};
ghost use Rattle.vex_lexer.specs.declared.token_kind.TokenKind.TheVariants as kind;
ghost use Rattle.vex_lexer.specs.declared.token.Token.{Token};
ghost use Rattle.vex_lexer.specs.Keywords.{word_of};
ghost use Rattle.vex_lexer.specs.Operators.{text_of};
ghost use Rattle.vex_lexer.specs.TokenKinds.{kind_of};
ghost use Rattle.vex_lexer.specs.Spelling.{Spells, LacksToken};

/// The law that a text spells its tokens in one way at most, that a text with a line of no token spells none, and that
/// it has one such line at most. The call does nothing.
pub fn one_spelling(text: &[u8])
    ensures equal { (tokens others : List Token) → Spells text.now tokens → Spells text.now others → tokens ≡ others }
    ensures none { (line : ℕ) (tokens : List Token) → LacksToken text.now line → Spells text.now tokens → ⊥ }
    ensures line { (line other : ℕ) → LacksToken text.now line → LacksToken text.now other → line ≡ other }
{}

/// The law of the tables: the word of each keyword is that keyword, and so no name, and the text of each operator is that
/// operator. So one that a table lacks is refused. The call does nothing.
pub fn each_word_is_found()
    ensures keyword { (k : Keyword) → kind_of (word_of k) ≡ Some (kind.Keyword k) }
    ensures operator { (o : Operator) → kind_of (text_of o) ≡ Some (kind.Operator o) }
{}
