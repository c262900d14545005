//! Whether terms make a polynomial of a ring, a condition or a thesis.

ghost use Rattle.std.specs.Prelude.{◌↔◌, IsTrue};
ghost use Rattle.std.specs.List.{AllByRecursion};
ghost use Rattle.cgs_exps.specs.Monomial.{degree};
ghost use Rattle.cgs_poly.specs.Polynomial.{IsRing, IsPoly, places, term};
ghost use Rattle.cgs_poly.specs.Parameters.{IsCondition};
ghost use Rattle.cgs_problem.specs.Problems.{IsThesis};
ghost use Rattle.cgs_problem.specs.Terms.{IsTermOf, Falls, HasRoom};

use cgs_exps::{MAX_DEGREE, degree};
use cgs_field::Elem;
use cgs_order::compare;
use cgs_poly::{Poly, Ring};
use std::cmp::Ordering;

/// The greatest degree of a term of a thesis: it leaves room for one more variable.
pub const MAX_THESIS_DEGREE: u32 = 32766;

pub(crate) fn is_poly(ring: &Ring, f: &Poly) -> bool
    requires { IsRing ring.now }
    ensures { IsTrue result ↔ IsPoly ring.now f.now }
{
    has_terms_of(ring, f) && falls(ring, f)
}

/// Whether it is a polynomial in the parameters alone.
pub(crate) fn is_condition(ring: &Ring, f: &Poly) -> bool
    requires { IsRing ring.now }
    ensures { IsTrue result ↔ IsCondition ring.now f.now }
{
    is_poly(ring, f) && f.has_no_variables(ring)
}

/// Whether it is a polynomial that may be multiplied by one more variable.
pub(crate) fn is_thesis(ring: &Ring, f: &Poly) -> bool
    requires { IsRing ring.now }
    ensures { IsTrue result ↔ IsThesis ring.now f.now }
{
    is_poly(ring, f) && has_room(ring, f)
}

fn has_terms_of(ring: &Ring, f: &Poly) -> bool
    requires { IsRing ring.now }
    ensures { IsTrue result ↔ AllByRecursion (IsTermOf ring.now) f.now }
{
    for i in 0..f.len() {
        let term = f.term(i);
        if !is_term(ring, term.coefficient, term.exponents) {
            return false;
        }
    }
    true
}

fn is_term(ring: &Ring, c: Elem, m: &[u16]) -> bool
    requires { IsRing ring.now }
    ensures { IsTrue result ↔ IsTermOf ring.now (term c m.now) }
{
    let c = c.number() as u32;
    c != 0 && c < ring.modulus.value() && m.len() == ring.places() && degree(m) <= MAX_DEGREE
}

fn falls(ring: &Ring, f: &Poly) -> bool
    requires { AllByRecursion (IsTermOf ring.now) f.now }
    ensures { IsTrue result ↔ Falls ring.now f.now }
{
    let order = ring.order();
    for i in 1..f.len() {
        let before = f.term(i - 1);
        let term = f.term(i);
        let Ordering::Less = compare(&order, term.exponents, before.exponents) else {
            return false;
        };
    }
    true
}

// Whether each degree is below the greatest one.
fn has_room(ring: &Ring, f: &Poly) -> bool
    requires ring { IsRing ring.now }
    requires poly { IsPoly ring.now f.now }
    ensures { IsTrue result ↔ HasRoom f.now }
{
    for i in 0..f.len() {
        if degree(f.term(i).exponents) > MAX_THESIS_DEGREE {
            return false;
        }
    }
    true
}
