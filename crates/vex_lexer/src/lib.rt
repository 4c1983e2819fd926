//! Tokens of the snippet language: how a text spells them, and the scanner that reads them.
#![tactic(auto)]

mod fault;
mod gap;
mod keyword;
mod law;
mod lengths;
mod name;
mod number;
mod opening;
mod operator;
mod quoted;
mod scan;
mod token;
mod token_kind;

pub use fault::LexFault;
pub use keyword::Keyword;
pub use law::{each_word_is_found, one_spelling};
pub use operator::Operator;
pub use quoted::string_value;
pub use scan::tokens;
pub use token::Token;
pub use token_kind::{TokenKind, kind_of};

#[cfg(test)]
mod tests;
