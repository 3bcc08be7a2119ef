//! The lexer: a module's source as tokens.
#![tactic(auto)]

mod keyword;
mod lexer;
mod mark;
mod number;
mod piece;
mod position;
mod token;
mod verdict;

pub use keyword::is_keyword;
pub use lexer::{LexRefusal, lex};
pub use number::{Number, NumberType, number_of};
pub use token::{Kind, Span, Token, Tokens, text_at};

#[cfg(test)]
mod tests;
