//! The product of polynomials.

ghost use Rattle.std.specs.Prelude.{ℕ, List, ◌≡◌, ◌+◌, ◌-◌, ◌<◌, ◌≤◌, ◌↔◌, length, take, drop, IsTrue, IfOk, OnOk, IsErrOf};
ghost use Rattle.cgs_poly.specs.Polynomial.{IsRing, IsPoly, HasLowDegrees, canonical, coefficient, greatest_degree};
ghost use Rattle.cgs_poly.specs.Product.{all_products, top_degree};
ghost use Rattle.cgs_poly.specs.Merge.{EachTerm};

use crate::cells::product_on;
use crate::fault::PolyFault;
use crate::grid::Grid;
use crate::merge::multiplied;
use crate::poly::Poly;
use cgs_terms::{Factor, Ring};
use std::alloc::{AllocError, Global};

impl Poly {
    /// The product. It errs where two monomials that are multiplied have degrees above 32767 together, before memory is
    /// taken.
    pub fn product(alloc: Global, ring: &Ring, f: &Poly, g: &Poly) -> Result<Poly, PolyFault>
        requires ring { IsRing ring.now }
        requires first { IsPoly ring.now f.now }
        requires second { IsPoly ring.now g.now }
        ensures product { IfOk result (λ h. h ≡ canonical ring.now (all_products f.now g.now)) }
        ensures poly { IfOk result (λ h. IsPoly ring.now h) }
        ensures degree { IsErrOf result PolyFault.Degree ↔ (¬ HasLowDegrees (all_products f.now g.now)) }
        ensures low { OnOk result (HasLowDegrees (all_products f.now g.now)) }
        ensures coefficients { IfOk result (λ h. (n : List ℕ) → coefficient ring.now.modulus h n ≡ coefficient ring.now.modulus (all_products f.now g.now) n) }
    {
        if f.len() == 0 {
            return Ok(Poly::zero(alloc));
        }
        if g.exceeds(f.top_degree()) {
            return Err(PolyFault::Degree);
        }
        let product = low_product(alloc, ring, f, g)?;
        Ok(product)
    }

    /// Whether there are terms, and some monomial has a degree above 32767 together with a further degree.
    pub fn exceeds(&self, further: u32) -> bool
        requires { EachTerm (λ c m. length m ≤ 17) self.now }
        ensures { IsTrue result ↔ ((0 < length self.now) × (greatest_degree < further + top_degree self.now)) }
    {
        self.terms.flat().exceeds(further)
    }

    // The greatest degree of a monomial.
    pub(crate) fn top_degree(&self) -> u32
        requires { EachTerm (λ c m. length m ≤ 17) self.now }
        ensures { result ≡ top_degree self.now }
    {
        self.terms.flat().top_degree()
    }
}

// The product on a grid, where that serves, and else by halves.
fn low_product(alloc: Global, ring: &Ring, f: &Poly, g: &Poly) -> Result<Poly, AllocError>
    requires ring { IsRing ring.now }
    requires first { IsPoly ring.now f.now }
    requires second { IsPoly ring.now g.now }
    requires some { 0 < length f.now }
    requires low { top_degree f.now + top_degree g.now ≤ greatest_degree }
    ensures product { IfOk result (λ h. h ≡ canonical ring.now (all_products f.now g.now)) }
    ensures poly { IfOk result (λ h. IsPoly ring.now h) }
{
    if let Some(grid) = Grid::for_product(alloc, ring.places(), f, g)? {
        if let Some(product) = product_on(alloc, ring, &grid, f, g)? {
            return Ok(product);
        }
    }
    product_of(alloc, ring, f, 0, f.len(), g)
}

// The product of some terms of f, from one place up to another, and g: the sum of the products of both halves.
fn product_of(
    alloc: Global,
    ring: &Ring,
    f: &Poly,
    from: usize,
    to: usize,
    g: &Poly,
) -> Result<Poly, AllocError>
    requires ring { IsRing ring.now }
    requires first { IsPoly ring.now f.now }
    requires second { IsPoly ring.now g.now }
    requires some { from < to }
    requires within { to ≤ length f.now }
    requires low { top_degree f.now + top_degree g.now ≤ greatest_degree }
    ensures product { IfOk result (λ h. h ≡ canonical ring.now (all_products (take (to - from) (drop from f.now)) g.now)) }
    ensures poly { IfOk result (λ h. IsPoly ring.now h) }
{
    if to - from == 1 {
        let term = f.term(from);
        let factor = Factor {
            coefficient: term.coefficient,
            exponents: term.exponents,
        };
        let part = multiplied(alloc, ring, g, &factor)?;
        return Ok(part);
    }
    let half = from + (to - from) / 2;
    let first = product_of(alloc, ring, f, from, half, g)?;
    let second = product_of(alloc, ring, f, half, to, g)?;
    let sum = Poly::add(alloc, ring, &first, &second)?;
    Ok(sum)
}
