//! A polynomial as one in the variables whose coefficients are polynomials in the parameters: the leading part.

ghost use Rattle.std.specs.Prelude.{ℕ, List, [], ◌≡◌, ◌↔◌, ◌++◌, length, replicate, IsTrue, IsNone, IfSome, IfOk};
ghost use Rattle.cgs_poly.specs.Polynomial.{IsRing, IsPoly, coefficient};
ghost use Rattle.cgs_poly.specs.Parameters.{lead_x, lc_x, HasNoVariables, has_no_variables};

use crate::poly::Poly;
use cgs_exps::MAX_PLACES;
use cgs_terms::{Draft, Ring};
use std::alloc::{AllocError, Global};

impl Poly {
    /// Whether no variable stands in any term.
    pub fn has_no_variables(&self, ring: &Ring) -> bool
        requires { IsPoly ring.now self.now }
        ensures test { result ≡ has_no_variables ring.now self.now }
        ensures exact { IsTrue result ↔ HasNoVariables ring.now self.now }
    {
        let variables = ring.variables as usize;
        for i in 0..self.len() {
            if !are_zero(&self.term(i).exponents[..variables]) {
                return false;
            }
        }
        true
    }

    /// The variables' exponents of the leading monomial.
    pub fn lead_x(&self, ring: &Ring) -> Option<&[u16]>
        requires ring { IsRing ring.now }
        requires poly { IsPoly ring.now self.now }
        ensures none { IsNone result ↔ (self.now ≡ []) }
        ensures exponents { IfSome result (λ x. x.now ≡ lead_x ring.now self.now) }
    {
        if self.len() == 0 {
            return None;
        }
        Some(&self.term(0).exponents[..ring.variables as usize])
    }

    /// The polynomial in the parameters that multiplies the variables' part of the leading monomial.
    pub fn lc_x(alloc: Global, ring: &Ring, f: &Poly) -> Result<Poly, AllocError>
        requires ring { IsRing ring.now }
        requires poly { IsPoly ring.now f.now }
        requires nonzero { ¬ (f.now ≡ []) }
        ensures part { IfOk result (λ h. h ≡ lc_x ring.now f.now) }
        ensures poly { IfOk result (λ h. IsPoly ring.now h) }
        ensures free { IfOk result (λ h. HasNoVariables ring.now h) }
        ensures coefficients { IfOk result (λ h. (u : List ℕ) → length u ≡ ring.now.parameters → coefficient ring.now.modulus h (replicate ring.now.variables 0 ++ u) ≡ coefficient ring.now.modulus f.now (lead_x ring.now f.now ++ u)) }
    {
        let variables = ring.variables as usize;
        let zeros = [0; MAX_PLACES];
        let (x, _) = f.term(0).exponents.split_at(variables);
        let mut part = Draft::with_room(alloc, ring.places(), 0, 0)?;
        for i in 0..f.len() {
            let term = f.term(i);
            let (own, rest) = term.exponents.split_at(variables);
            if own == x {
                part.push_parts(term.coefficient, &zeros[..variables], rest)?;
            }
        }
        Ok(Poly {
            terms: part.finish(),
        })
    }
}

fn are_zero(exponents: &[u16]) -> bool
    ensures { IsTrue result ↔ (exponents.now ≡ replicate (length exponents.now) 0) }
{
    exponents.iter().all(|e| *e == 0)
}
