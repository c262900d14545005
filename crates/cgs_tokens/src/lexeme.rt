//! What a token says.

ghost use Rattle.std.specs.Prelude.{◌≡◌, ◌≤◌, length};
ghost use Rattle.std.specs.Str.Parse.{digits_value, AllDigits};
ghost use Rattle.cgs_tokens.specs.Lexemes as lexemes;

use crate::token::{Token, TokenKind};

/// What a token says: a name with its bytes, a number, or a sign.
#[derive(Clone, Copy, Debug, Drop, PartialEq, Eq)]
pub enum Lexeme<'a> {
    Name(&'a [u8]),
    Number(u64),
    Plus,
    Minus,
    Times,
    Power,
    Open,
    Close,
    Equal,
}

/// What a token of the line says.
pub(crate) fn said<'a>(line: &'a [u8], token: Token) -> Lexeme<'a>
    requires { lexemes.IsToken line.now token }
    ensures { lexemes.seen result ≡ lexemes.said line.now token }
{
    let text = &line[token.start as usize..token.end as usize];
    match token.kind {
        TokenKind::Name => Lexeme::Name(text),
        TokenKind::Number => Lexeme::Number(digits_value(text)),
        TokenKind::Plus => Lexeme::Plus,
        TokenKind::Minus => Lexeme::Minus,
        TokenKind::Times => Lexeme::Times,
        TokenKind::Power => Lexeme::Power,
        TokenKind::Open => Lexeme::Open,
        TokenKind::Close => Lexeme::Close,
        TokenKind::Equal => Lexeme::Equal,
    }
}

// The number that digits write.
fn digits_value(digits: &[u8]) -> u64
    requires digits { AllDigits 10 digits.now }
    requires short { length digits.now ≤ 18 }
    ensures { result ≡ digits_value 10 digits.now }
{
    let mut value: u64 = 0;
    for digit in digits {
        value = value * 10 + (*digit - b'0') as u64;
    }
    value
}
