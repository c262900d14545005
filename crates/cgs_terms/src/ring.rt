//! The ring that polynomials are of.

ghost use Rattle.std.specs.Prelude.{◌≡◌};
ghost use Rattle.cgs_terms.specs.Polynomial.{IsRing, places, order_of, variables_ring};

use cgs_field::Modulus;
use cgs_order::{BlockOrder, Kind};

/// Polynomials modulo a prime in so many variables and parameters, under a term order of one kind for both blocks.
#[derive(Clone, Copy, Debug, PartialEq, Eq)]
pub struct Ring {
    pub modulus: Modulus,
    pub variables: u32,
    pub parameters: u32,
    pub kind: Kind,
}

impl Ring {
    /// The number of exponents of a monomial.
    pub fn places(&self) -> usize
        ensures { result ≡ places self.now }
    {
        self.variables as usize + self.parameters as usize
    }

    /// The order of the monomials: the variables decide before the parameters.
    pub fn order(&self) -> BlockOrder
        ensures { result ≡ order_of self.now }
    {
        BlockOrder {
            kind: self.kind,
            head: self.variables,
            tail: self.parameters,
        }
    }

    /// The ring of the variables alone.
    pub fn variables_ring(&self) -> Ring
        ensures ring { result ≡ variables_ring self.now }
        ensures valid { IsRing self.now → IsRing result }
    {
        Ring {
            parameters: 0,
            ..*self
        }
    }
}
