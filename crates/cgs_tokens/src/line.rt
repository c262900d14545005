//! A line of tokens.

ghost use Rattle.std.specs.Prelude.{◌≡◌, ◌==◌, length};
ghost use Rattle.cgs_tokens.specs.Tokens.{tokens_of};
ghost use Rattle.cgs_tokens.specs.Lexemes.{lexemes_of, IsSplit};

use crate::lexeme::{Lexeme, said};
use crate::token::{Format, Token};
use std::marker::Model;

/// What is left of a line: its bytes with the tokens that were not read yet. Contracts see it as what these say.
#[derive(Drop)]
pub struct Line<'a> {
    bytes: &'a [u8],
    tokens: &'a [Token],
}

impl<'a> Model for Line<'a> {
    ghost use Rattle.std.specs.Prelude.{List};
    ghost use Rattle.cgs_tokens.specs.Lexemes.{Lexeme, lexemes_of, AreTokens};

    ghost Value = { List Lexeme };

    ghost view = { λ line. lexemes_of line.bytes.now line.tokens.now };

    ghost invariant = { λ line. AreTokens line.bytes.now line.tokens.now };
}

impl<'a> Line<'a> {
    /// The line with these bytes, of which these are the tokens in that format.
    pub fn new(bytes: &'a [u8], tokens: &'a [Token], format: Format) -> Line<'a>
        requires { tokens_of format bytes.now ≡ Ok tokens.now }
        ensures { result ≡ lexemes_of bytes.now tokens.now }
    {
        Line { bytes, tokens }
    }

    /// Whether nothing is left.
    pub fn is_empty(&self) -> bool
        ensures { result ≡ (length self.now == 0) }
    {
        self.tokens.is_empty()
    }

    /// The first lexeme and what is left after it.
    pub fn split_first(&self) -> Option<(Lexeme<'a>, Line<'a>)>
        ensures { IsSplit self.now result }
    {
        let (first, tokens) = self.tokens.split_first()?;
        let rest = Line {
            bytes: self.bytes,
            tokens,
        };
        Some((said(self.bytes, *first), rest))
    }
}
