//! What may be wrong with a text.

ghost use Rattle.std.specs.Prelude.{◌≡◌};
ghost use Rattle.cgs_problem.specs.Faults.{word_of};

/// The kind of a fault of a text. Where several stand on one line, the tests are made in the order in which a reader meets
/// them.
#[derive(Clone, Copy, Debug, PartialEq, Eq)]
pub enum TextKind {
    /// A line after `end` that is not passed over.
    After,
    /// A byte that begins no token.
    Byte,
    /// A number of more than 18 digits.
    Literal,
    /// A name of more than 32 bytes, or one that was given before.
    Name,
    /// A line that may not stand here.
    Place,
    /// A token that cannot stand in its place, or the end of a line that comes too early.
    Syntax,
    /// A modulus outside the table.
    Field,
    /// A number of names or of numbers that is out of range.
    Count,
    /// No kind of term order.
    Order,
    /// A second thesis.
    Thesis,
    /// A name that is neither a parameter nor a variable.
    Unknown,
    /// A variable in a condition.
    Variable,
    /// An exponent above the limit.
    Exponent,
    /// A product whose degree passes the limit.
    Degree,
    /// The text has no line `end`.
    End,
    /// A format other than the first and the second.
    Format,
    /// More work than the limit, to multiply out what a text of the second format says.
    Large,
    /// Parentheses within more than 64 others.
    Nested,
}

impl TextKind {
    /// The word that stands for the kind in a printed fault.
    pub fn word(self) -> &'static [u8]
        ensures { result.now ≡ word_of self }
    {
        match self {
            TextKind::After => b"after",
            TextKind::Byte => b"byte",
            TextKind::Literal => b"literal",
            TextKind::Name => b"name",
            TextKind::Place => b"place",
            TextKind::Syntax => b"syntax",
            TextKind::Field => b"field",
            TextKind::Count => b"count",
            TextKind::Order => b"order",
            TextKind::Thesis => b"thesis",
            TextKind::Unknown => b"unknown",
            TextKind::Variable => b"variable",
            TextKind::Exponent => b"exponent",
            TextKind::Degree => b"degree",
            TextKind::End => b"end",
            TextKind::Format => b"format",
            TextKind::Large => b"large",
            TextKind::Nested => b"nested",
        }
    }
}

/// The first fault of a text, with the number of its line, counted from 1. Line 0 is the text as a whole.
#[derive(Clone, Copy, Debug, PartialEq, Eq)]
pub struct TextFault {
    pub line: u32,
    pub kind: TextKind,
}
