//! A line of a problem file as tokens: names, numbers and signs.
//!
//! It promises the longest token at each place from left to right, or the first offence with its place, and gives a
//! line of tokens as a list of lexemes, which is what they say. Only the list type (`cgs_list`) stands below it. Read
//! first: `tokens_of`, `token_at` (specs/Tokens), `lexemes_of` (specs/Lexemes).
#![tactic(auto)]

mod lexeme;
mod line;
mod scan;
mod token;

pub use lexeme::Lexeme;
pub use line::Line;
pub use scan::{TokenList, tokens};
pub use token::{Format, Token, TokenFault, TokenKind};

#[cfg(test)]
mod tests;
