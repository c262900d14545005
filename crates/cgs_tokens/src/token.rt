//! What a line is made of.

ghost use Rattle.std.specs.Prelude.{◌≡◌};

use std::alloc::AllocError;

/// What a token is.
#[derive(Clone, Copy, Debug, Drop, PartialEq, Eq)]
pub enum TokenKind {
    /// A letter, and the letters, digits and underscores after it: a keyword, a variable or a parameter.
    Name,
    /// Digits. Zeros may come first.
    Number,
    /// `+`
    Plus,
    /// `-`
    Minus,
    /// `*`
    Times,
    /// `^`
    Power,
    /// `(`
    Open,
    /// `)`
    Close,
    /// `=`
    Equal,
}

/// Which signs a line may have: `(`, `)` and `=` are tokens of the second format alone.
#[derive(Clone, Copy, Debug, Drop, PartialEq, Eq)]
pub enum Format {
    One,
    Two,
}

/// A token by its place: its text is the slice of the line from `start` up to `end`.
#[derive(Clone, Copy, Debug, Drop, PartialEq, Eq)]
pub struct Token {
    pub kind: TokenKind,
    pub start: u32,
    pub end: u32,
}

/// Why a line has no tokens. A place is that of the first byte of what offends, counted from 0.
#[derive(Clone, Copy, Debug, Drop, PartialEq, Eq)]
pub enum TokenFault {
    /// A byte that no token begins with.
    Byte(u32),
    /// A number of more than 18 digits.
    Literal(u32),
    /// A name of more than 32 bytes.
    LongName(u32),
    /// Memory was short.
    OutOfMemory,
}

impl From<AllocError> for TokenFault {
    ghost use Rattle.cgs_tokens.specs.declared.token.TokenFault.TheVariants.{OutOfMemory};

    ghost from_gives = { λ _ e. e ≡ OutOfMemory };

    fn from(_: AllocError) -> Self {
        TokenFault::OutOfMemory
    }
}
