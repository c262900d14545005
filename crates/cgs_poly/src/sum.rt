//! The sum of terms that come in any order.

ghost use Rattle.std.specs.Prelude.{ℕ, List, ◌≡◌, ◌-◌, ◌<◌, ◌≤◌, ◌↔◌, length, take, drop, IsTrue, IfOk};
ghost use Rattle.std.specs.List.{AllByRecursion};
ghost use Rattle.cgs_poly.specs.Polynomial.{IsRing, IsPoly, IsTerm, IsCanonical, places, canonical, coefficient};
ghost use Rattle.cgs_poly.specs.Draft.{HaveLength};
ghost use Rattle.cgs_poly.specs.Sum.{FallsAfter};

use crate::poly::{Poly, single};
use cgs_order::compare;
use cgs_terms::{Flat, Ring, TermList};
use std::alloc::{AllocError, Global};

impl Poly {
    /// The sum of terms in any order.
    pub fn of_terms(alloc: Global, ring: &Ring, terms: &TermList) -> Result<Poly, AllocError>
        requires ring { IsRing ring.now }
        requires terms { AllByRecursion (IsTerm ring.now) terms.now }
        ensures sum { IfOk result (λ f. f ≡ canonical ring.now terms.now) }
        ensures poly { IfOk result (λ f. IsPoly ring.now f) }
        ensures coefficients { IfOk result (λ f. (m : List ℕ) → coefficient ring.now.modulus f m ≡ coefficient ring.now.modulus terms.now m) }
    {
        let sum = sum_of(alloc, ring, terms, 0, terms.len())?;
        Ok(sum)
    }
}

// The sum of some terms, from one place up to another: themselves, where they are canonical, and else the sum of the sums
// of both halves.
fn sum_of(
    alloc: Global,
    ring: &Ring,
    terms: &TermList,
    from: usize,
    to: usize,
) -> Result<Poly, AllocError>
    requires ring { IsRing ring.now }
    requires terms { AllByRecursion (IsTerm ring.now) terms.now }
    requires rising { from ≤ to }
    requires within { to ≤ length terms.now }
    ensures sum { IfOk result (λ f. f ≡ canonical ring.now (take (to - from) (drop from terms.now))) }
    ensures poly { IfOk result (λ f. IsPoly ring.now f) }
{
    if from == to {
        return Ok(Poly::zero(alloc));
    }
    if to - from == 1 {
        let term = terms.term(from);
        let sum = single(alloc, ring, term.coefficient, term.exponents)?;
        return Ok(sum);
    }
    let part = terms.flat().between(from, to);
    if are_canonical(ring, &part) {
        let terms = TermList::copied(alloc, &part)?;
        return Ok(Poly { terms });
    }
    let half = from + (to - from) / 2;
    let first = sum_of(alloc, ring, terms, from, half)?;
    let second = sum_of(alloc, ring, terms, half, to)?;
    let sum = Poly::add(alloc, ring, &first, &second)?;
    Ok(sum)
}

// Whether terms are a canonical list: no coefficient is 0, and the monomials strictly fall.
fn are_canonical(ring: &Ring, terms: &Flat<'_>) -> bool
    requires terms { AllByRecursion (IsTerm ring.now) terms.now }
    ensures { IsTrue result ↔ IsCanonical ring.now terms.now }
{
    for i in (0..terms.len()).rev() {
        if terms.term(i).coefficient.number() == 0 {
            return false;
        }
        if !falls_after(ring, terms, i) {
            return false;
        }
    }
    true
}

// Whether the monomial behind a place, if there is one, is below the one at it.
fn falls_after(ring: &Ring, terms: &Flat<'_>, i: usize) -> bool
    requires places { HaveLength (places ring.now) terms.now }
    requires within { i < length terms.now }
    ensures { IsTrue result ↔ FallsAfter ring.now i terms.now }
{
    if terms.len() - i == 1 {
        return true;
    }
    let order = ring.order();
    compare(&order, terms.term(i + 1).exponents, terms.term(i).exponents).is_lt()
}
