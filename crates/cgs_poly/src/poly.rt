//! A polynomial, kept in two flat vectors.

ghost use Rattle.std.specs.Prelude.{◌≡◌, ◌<◌, ◌≤◌, ◌↔◌, [], ◌∷◌, ◌++◌, length, take, slice_get, IsTrue, IsNone, IfSome, IfOk, OnOk, OnErr, IsErrOf};
ghost use Rattle.cgs_exps.specs.Monomial.{degree};
ghost use Rattle.cgs_poly.specs.Polynomial.{IsRing, IsPoly, places, term, one, canonical, greatest_degree};
ghost use Rattle.cgs_poly.specs.Draft.{HaveLength};
ghost use Rattle.cgs_poly.specs.Flat.{coefficients_of, exponents_of};

use crate::fault::PolyFault;
use cgs_exps::{MAX_DEGREE, MAX_PLACES, degree as monomial_degree};
use cgs_field::Elem;
use cgs_list::Duplicate;
use cgs_terms::{Draft, Ring, Term, TermList};
use std::alloc::{AllocError, Global};
use std::marker::Model;

/// A polynomial, which contracts see as its list of terms, the greatest monomial first.
#[derive(Debug, Drop)]
pub struct Poly {
    pub(crate) terms: TermList,
}

impl Model for Poly {
    ghost use Rattle.std.specs.Prelude.{List};
    ghost use Rattle.cgs_poly.specs.Polynomial.{Term};

    ghost Value = { List Term };

    ghost view = { λ f. f.terms };
}

impl Poly {
    /// The polynomial 0.
    pub fn zero(alloc: Global) -> Poly
        ensures { result ≡ [] }
    {
        Poly {
            terms: TermList::new(alloc),
        }
    }

    /// The polynomial 1.
    pub fn one(alloc: Global, ring: &Ring) -> Result<Poly, AllocError>
        requires { IsRing ring.now }
        ensures one { IfOk result (λ f. f ≡ one ring.now) }
        ensures poly { IfOk result (λ f. IsPoly ring.now f) }
    {
        let zeros = [0; MAX_PLACES];
        let places = ring.places();
        let mut draft = Draft::with_room(alloc, places, 1, places)?;
        draft.push(ring.modulus.of_u64(1), &zeros[..places]);
        Ok(Poly {
            terms: draft.finish(),
        })
    }

    /// The polynomial c times m; 0 where c is 0. It errs where the degree of m is above 32767, before memory is taken.
    pub fn of_term(alloc: Global, ring: &Ring, c: Elem, m: &[u16]) -> Result<Poly, PolyFault>
        requires ring { IsRing ring.now }
        requires coefficient { c < ring.now.modulus }
        requires places { length m.now ≡ places ring.now }
        ensures ok { IfOk result (λ f. f ≡ canonical ring.now (term c m.now ∷ [])) }
        ensures poly { IfOk result (λ f. IsPoly ring.now f) }
        ensures degree { IsErrOf result PolyFault.Degree ↔ (greatest_degree < degree m.now) }
    {
        if monomial_degree(m) > MAX_DEGREE {
            return Err(PolyFault::Degree);
        }
        let term = single(alloc, ring, c, m)?;
        Ok(term)
    }

    /// The sum of the first so many terms of a polynomial.
    pub fn first_terms(alloc: Global, f: &Poly, count: usize) -> Result<Poly, AllocError>
        requires { count ≤ length f.now }
        ensures { IfOk result (λ first. first ≡ take count f.now) }
    {
        let first = f.terms.flat().between(0, count);
        let terms = TermList::copied(alloc, &first)?;
        Ok(Poly { terms })
    }

    /// The number of terms.
    pub fn len(&self) -> usize
        ensures { result ≡ length self.now }
    {
        self.terms.len()
    }

    /// The term at a place, counted from 0: the greatest monomial stands first.
    pub fn term(&self, i: usize) -> Term<'_>
        requires { i < length self.now }
        ensures { slice_get self.now i ≡ Some (record { coefficient = result.coefficient; exponents = result.exponents.now }) }
    {
        self.terms.term(i)
    }

    /// The term with the greatest monomial.
    pub fn lead(&self) -> Option<Term<'_>>
        ensures none { IsNone result ↔ (self.now ≡ []) }
        ensures first { IfSome result (λ x. slice_get self.now 0 ≡ Some (term x.coefficient x.exponents.now)) }
    {
        if self.len() == 0 {
            return None;
        }
        Some(self.term(0))
    }

    /// The coefficients of all terms.
    pub fn coefficients(&self) -> &[Elem]
        ensures { result.now ≡ coefficients_of self.now }
    {
        self.terms.coefficients()
    }

    /// The exponents of all terms, one monomial after the other.
    pub fn exponents(&self) -> &[u16]
        ensures { result.now ≡ exponents_of self.now }
    {
        self.terms.exponents()
    }

    /// Puts a term at the end. An error leaves the polynomial as it was. The caller keeps the order of the terms.
    pub fn push(&mut self, c: Elem, m: &[u16]) -> Result<(), AllocError>
        requires places { HaveLength (length m.now) self.old }
        ensures ok { OnOk result (self.new ≡ self.old ++ term c m.now ∷ []) }
        ensures err { OnErr result (self.new ≡ self.old) }
    {
        self.terms.push(c, m)
    }

    /// Whether two polynomials are equal.
    pub fn same(&self, other: &Poly) -> bool
        ensures { IsTrue result ↔ (self.now ≡ other.now) }
    {
        self.terms.same(&other.terms)
    }
}

impl Duplicate for Poly {
    fn copy(&self) -> Result<Poly, AllocError> {
        Ok(Poly {
            terms: self.terms.copy()?,
        })
    }
}

// The polynomial c times m.
pub(crate) fn single(alloc: Global, ring: &Ring, c: Elem, m: &[u16]) -> Result<Poly, AllocError>
    requires ring { IsRing ring.now }
    requires coefficient { c < ring.now.modulus }
    requires places { length m.now ≡ places ring.now }
    requires low { degree m.now ≤ greatest_degree }
    ensures sum { IfOk result (λ f. f ≡ canonical ring.now (term c m.now ∷ [])) }
    ensures poly { IfOk result (λ f. IsPoly ring.now f) }
{
    if c.number() == 0 {
        return Ok(Poly::zero(alloc));
    }
    let mut draft = Draft::with_room(alloc, m.len(), 1, m.len())?;
    draft.push(c, m);
    Ok(Poly {
        terms: draft.finish(),
    })
}
