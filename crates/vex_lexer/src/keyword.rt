//! Keywords.
ghost use Rattle.std.specs.Prelude.{◌≡◌};
ghost use Rattle.vex_lexer.specs.Keywords.{word_of, keyword_of};

/// A word that is no name, since it has a meaning of its own.
#[derive(Clone, Copy, Debug, PartialEq, Eq)]
pub enum Keyword {
    Int,
    Float,
    Vector,
    String,
    Void,
    If,
    Else,
    For,
    While,
    Foreach,
    Break,
    Continue,
    Return,
    Function,
}

const KEYWORDS: [Keyword; 14] = [
    Keyword::Int,
    Keyword::Float,
    Keyword::Vector,
    Keyword::String,
    Keyword::Void,
    Keyword::If,
    Keyword::Else,
    Keyword::For,
    Keyword::While,
    Keyword::Foreach,
    Keyword::Break,
    Keyword::Continue,
    Keyword::Return,
    Keyword::Function,
];

impl Keyword {
    /// Its word.
    pub fn word(self) -> &'static str
        ensures { result.now ≡ word_of self }
    {
        match self {
            Keyword::Int => "int",
            Keyword::Float => "float",
            Keyword::Vector => "vector",
            Keyword::String => "string",
            Keyword::Void => "void",
            Keyword::If => "if",
            Keyword::Else => "else",
            Keyword::For => "for",
            Keyword::While => "while",
            Keyword::Foreach => "foreach",
            Keyword::Break => "break",
            Keyword::Continue => "continue",
            Keyword::Return => "return",
            Keyword::Function => "function",
        }
    }

    /// The keyword of this word, or None where it is none.
    pub fn of_word(word: &str) -> Option<Keyword>
        ensures { result ≡ keyword_of word.now }
    {
        KEYWORDS
            .iter()
            .copied()
            .find(|keyword| keyword.word() == word)
    }
}
