//! A number below a modulus.

ghost use Rattle.std.specs.Prelude.{◌≡◌};

use std::marker::Model;

/// A number below a modulus, which contracts see as that number. Which modulus is the caller's to know.
#[derive(Clone, Copy, Debug, PartialEq, Eq)]
pub struct Elem {
    number: u16,
}

impl Model for Elem {
    ghost use Rattle.std.specs.Prelude.{ℕ};

    ghost Value = { ℕ };

    ghost view = { λ elem. elem.number };

    ghost inverse = { λ n. record { number = n } };
}

impl Elem {
    pub(crate) fn new(number: u16) -> Elem
        ensures { result ≡ number }
    {
        Elem { number }
    }

    /// The number.
    pub fn number(self) -> u16
        ensures { result ≡ self }
    {
        self.number
    }
}
