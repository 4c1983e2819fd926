//! Operators, brackets and other marks.
ghost use Rattle.std.specs.Prelude.{◌≡◌, bytes_eq};
ghost use Rattle.std.specs.List.{list_any};
ghost use Rattle.vex_lexer.specs.Longest.{IsLongest};
ghost use Rattle.vex_lexer.specs.Operators.{text_of, operator_of};
ghost use Rattle.vex_lexer.specs.Words.{is_operator};

/// An operator, a bracket or another mark.
#[derive(Clone, Copy, Debug, PartialEq, Eq)]
pub enum Operator {
    /// `+`
    Plus,
    /// `-`
    Minus,
    /// `*`
    Times,
    /// `/`
    Over,
    /// `%`
    Modulo,
    /// `==`
    Equal,
    /// `!=`
    Unequal,
    /// `<`
    Less,
    /// `<=`
    AtMost,
    /// `>`
    Greater,
    /// `>=`
    AtLeast,
    /// `&&`
    And,
    /// `||`
    Or,
    /// `!`
    Not,
    /// `?`
    Question,
    /// `:`
    Colon,
    /// `=`
    Assign,
    /// `+=`
    AssignSum,
    /// `-=`
    AssignDifference,
    /// `*=`
    AssignProduct,
    /// `/=`
    AssignQuotient,
    /// `++`
    Increment,
    /// `--`
    Decrement,
    /// `(`
    OpenParenthesis,
    /// `)`
    CloseParenthesis,
    /// `{`
    OpenBrace,
    /// `}`
    CloseBrace,
    /// `[`
    OpenBracket,
    /// `]`
    CloseBracket,
    /// `;`
    Semicolon,
    /// `,`
    Comma,
    /// `.`
    Point,
}

const OPERATORS: [Operator; 32] = [
    Operator::Plus,
    Operator::Minus,
    Operator::Times,
    Operator::Over,
    Operator::Modulo,
    Operator::Equal,
    Operator::Unequal,
    Operator::Less,
    Operator::AtMost,
    Operator::Greater,
    Operator::AtLeast,
    Operator::And,
    Operator::Or,
    Operator::Not,
    Operator::Question,
    Operator::Colon,
    Operator::Assign,
    Operator::AssignSum,
    Operator::AssignDifference,
    Operator::AssignProduct,
    Operator::AssignQuotient,
    Operator::Increment,
    Operator::Decrement,
    Operator::OpenParenthesis,
    Operator::CloseParenthesis,
    Operator::OpenBrace,
    Operator::CloseBrace,
    Operator::OpenBracket,
    Operator::CloseBracket,
    Operator::Semicolon,
    Operator::Comma,
    Operator::Point,
];

impl Operator {
    /// Its text.
    pub fn text(self) -> &'static str
        ensures { result.now ≡ text_of self }
    {
        match self {
            Operator::Plus => "+",
            Operator::Minus => "-",
            Operator::Times => "*",
            Operator::Over => "/",
            Operator::Modulo => "%",
            Operator::Equal => "==",
            Operator::Unequal => "!=",
            Operator::Less => "<",
            Operator::AtMost => "<=",
            Operator::Greater => ">",
            Operator::AtLeast => ">=",
            Operator::And => "&&",
            Operator::Or => "||",
            Operator::Not => "!",
            Operator::Question => "?",
            Operator::Colon => ":",
            Operator::Assign => "=",
            Operator::AssignSum => "+=",
            Operator::AssignDifference => "-=",
            Operator::AssignProduct => "*=",
            Operator::AssignQuotient => "/=",
            Operator::Increment => "++",
            Operator::Decrement => "--",
            Operator::OpenParenthesis => "(",
            Operator::CloseParenthesis => ")",
            Operator::OpenBrace => "{",
            Operator::CloseBrace => "}",
            Operator::OpenBracket => "[",
            Operator::CloseBracket => "]",
            Operator::Semicolon => ";",
            Operator::Comma => ",",
            Operator::Point => ".",
        }
    }

    /// The operator of this text, or None where it is none.
    pub fn of_text(text: &str) -> Option<Operator>
        ensures { result ≡ operator_of text.now }
    {
        OPERATORS
            .iter()
            .copied()
            .find(|operator| operator.text() == text)
    }
}

/// The length of the longest operator that begins here, or 0 where none does.
pub fn operator_len(rest: &[u8]) -> usize
    ensures { IsLongest is_operator rest.now result }
{
    longest_operator_len(&OPERATORS, rest)
}

fn longest_operator_len(operators: &[Operator], rest: &[u8]) -> usize
    ensures { IsLongest (λ word. list_any (λ operator. bytes_eq (text_of operator) word) operators.now) rest.now result }
{
    let mut longest = 0;
    for operator in operators {
        longest = longest.max(one_operator_len(operator.text().as_bytes(), rest));
    }
    longest
}

/// The length of the operator where it stands here, else 0.
fn one_operator_len(operator: &[u8], rest: &[u8]) -> usize
    ensures { IsLongest (bytes_eq operator.now) rest.now result }
{
    if rest.starts_with(operator) {
        operator.len()
    } else {
        0
    }
}
