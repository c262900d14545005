//! A line is cut into tokens.

ghost use Rattle.std.specs.Prelude.{◌≡◌, ◌<◌, ◌≤◌, ◌+◌, ◌^◌, length, drop, IfOk};
ghost use Rattle.std.specs.List.{prefix_len};
ghost use Rattle.std.specs.Char.{is_ascii_digit};
ghost use Rattle.cgs_list.specs.Results.{Answers};
ghost use Rattle.cgs_tokens.specs.Tokens.{tokens_of, offence_of, token_at, sign_in, spanned, is_blank, is_word};

use crate::token::{Format, Token, TokenFault, TokenKind};
use cgs_list::ItemList;
use std::alloc::Global;

const LONGEST_NAME: usize = 32;

const LONGEST_NUMBER: usize = 18;

/// The tokens of a line, in order; no two of them share a byte.
pub type TokenList = ItemList<Token>;

/// The tokens that a line has in a format; the line stands without its line end. Blanks and tabs end a token and belong to
/// none. It errs at the first offence, or where memory is short.
pub fn tokens(alloc: Global, line: &[u8], format: Format) -> Result<TokenList, TokenFault>
    requires { length line.now ≤ 67108864 }
    ensures { Answers (λ list. list) offence_of result (tokens_of format line.now) }
{
    let mut list = ItemList::new(alloc);
    let mut at: u32 = 0;
    while (at as usize) < line.len() {
        if is_blank(line[at as usize]) {
            at += 1;
        } else {
            let token = token_at(line, at, format)?;
            list.push(token)?;
            at = token.end;
        }
    }
    Ok(list)
}

fn is_blank(byte: u8) -> bool
    ensures { result ≡ is_blank byte }
{
    byte == b' ' || byte == b'\t'
}

fn is_word(byte: u8) -> bool
    ensures { result ≡ is_word byte }
{
    byte.is_ascii_alphanumeric() || byte == b'_'
}

// The token that begins at a place of the line.
#[tactic(auto, unfolding(crate::specs::Tokens::token_at, crate::specs::Tokens::name_at, crate::specs::Tokens::number_at))]
fn token_at(line: &[u8], at: u32, format: Format) -> Result<Token, TokenFault>
    requires place { at < length line.now }
    requires short { length line.now ≤ 67108864 }
    ensures token { result ≡ token_at format at (drop at line.now) }
    ensures within { IfOk result (λ token. (at < token.end) × (token.end ≤ length line.now)) }
{
    token_of(&line[at as usize..], at, format)
}

// The token that these bytes, the line from that place on, begin with.
#[tactic(auto, unfolding(crate::specs::Tokens::token_at, crate::specs::Tokens::name_at, crate::specs::Tokens::number_at))]
fn token_of(bytes: &[u8], at: u32, format: Format) -> Result<Token, TokenFault>
    requires { at + length bytes.now ≤ 67108864 }
    ensures token { result ≡ token_at format at bytes.now }
    ensures within { IfOk result (λ token. (at < token.end) × (token.end ≤ at + length bytes.now)) }
{
    let [byte, ..] = bytes else {
        return Err(TokenFault::Byte(at));
    };
    if byte.is_ascii_alphabetic() {
        let len = name_len(bytes);
        if len > LONGEST_NAME {
            return Err(TokenFault::LongName(at));
        }
        return Ok(token(TokenKind::Name, at, len as u32));
    }
    if byte.is_ascii_digit() {
        let len = number_len(bytes);
        if len > LONGEST_NUMBER {
            return Err(TokenFault::Literal(at));
        }
        return Ok(token(TokenKind::Number, at, len as u32));
    }
    match sign(*byte, format) {
        Some(kind) => Ok(token(kind, at, 1)),
        None => Err(TokenFault::Byte(at)),
    }
}

// The sign that a byte is in a format.
#[tactic(auto, unfolding(crate::specs::Tokens::sign_in))]
fn sign(byte: u8, format: Format) -> Option<TokenKind>
    ensures { result ≡ sign_in format byte }
{
    match byte {
        b'+' => Some(TokenKind::Plus),
        b'-' => Some(TokenKind::Minus),
        b'*' => Some(TokenKind::Times),
        b'^' => Some(TokenKind::Power),
        _ if format == Format::One => None,
        b'(' => Some(TokenKind::Open),
        b')' => Some(TokenKind::Close),
        b'=' => Some(TokenKind::Equal),
        _ => None,
    }
}

fn token(kind: TokenKind, start: u32, len: u32) -> Token
    requires { start + len < 2 ^ 32 }
    ensures { result ≡ spanned kind start len }
{
    Token {
        kind,
        start,
        end: start + len,
    }
}

// How many bytes of a name come first.
fn name_len(bytes: &[u8]) -> usize
    ensures len { result ≡ prefix_len is_word bytes.now }
    ensures within { result ≤ length bytes.now }
{
    bytes.iter().take_while(|byte| is_word(**byte)).count()
}

// How many digits come first.
fn number_len(bytes: &[u8]) -> usize
    ensures len { result ≡ prefix_len is_ascii_digit bytes.now }
    ensures within { result ≤ length bytes.now }
{
    bytes
        .iter()
        .take_while(|byte| byte.is_ascii_digit())
        .count()
}
