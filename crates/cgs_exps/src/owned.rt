//! Monomials that own their exponents, and lists of exponents.

ghost use Rattle.std.specs.Prelude.{◌≡◌, ◌<◌, ◌≤◌, ◌↔◌, IfOk, length};
ghost use Rattle.cgs_exps.specs.Monomial as monomial;

use crate::places::{MAX_DEGREE, MAX_PLACES, degree};
use cgs_list::ItemList;
use std::alloc::Global;
use std::marker::Model;

/// A list of exponents of any length.
pub type Powers = ItemList<u16>;

/// A monomial that owns its exponents, the variables' before the parameters'.
#[derive(Debug, Drop)]
pub struct Exps {
    exponents: Vec<u16>,
}

impl Model for Exps {
    ghost use Rattle.std.specs.Prelude.{List, ℕ};

    ghost Value = { List ℕ };

    ghost view = { λ m. m.exponents.items };

    ghost use Rattle.cgs_exps.specs.Bounds.{IsBounded};

    ghost invariant = { λ m. IsBounded m.exponents.items };
}

/// Why a monomial could not be made.
#[derive(Clone, Copy, Debug, PartialEq, Eq, thiserror::Error)]
pub enum ExpsFault {
    /// The degree exceeds `MAX_DEGREE`.
    #[error("the degree of a monomial is above 32767")]
    Degree,
    /// No memory is left.
    #[error("out of memory")]
    OutOfMemory,
}

impl Exps {
    /// A monomial with these exponents. It errs where their sum exceeds `MAX_DEGREE`, before memory is taken.
    pub fn from_slice(alloc: Global, a: &[u16]) -> Result<Exps, ExpsFault>
        requires { length a.now ≤ MAX_PLACES }
        ensures ok { IfOk result (λ m. m ≡ a.now) }
        ensures too_great { (result ≡ Err ExpsFault.Degree) ↔ (MAX_DEGREE < monomial.degree a.now) }
    {
        if degree(a) > MAX_DEGREE {
            return Err(ExpsFault::Degree);
        }
        let Ok(exponents) = a.to_vec(alloc) else {
            return Err(ExpsFault::OutOfMemory);
        };
        Ok(Exps { exponents })
    }

    /// The exponents in order.
    pub fn as_slice(&self) -> &[u16]
        ensures value { result.now ≡ self.now }
        ensures places { length self.now ≤ MAX_PLACES }
        ensures degree { monomial.degree self.now ≤ MAX_DEGREE }
    {
        self.exponents.as_slice()
    }
}
