//! Terms that are read from two slices: the coefficients, and all exponents, one monomial after the other.

ghost use Rattle.std.specs.Prelude.{◌≡◌, ◌≤◌, ◌<◌, ◌*◌, ◌-◌, ◌+◌, ◌↔◌, IsTrue, Some, length, take, drop, slice_get};
ghost use Rattle.cgs_terms.specs.Polynomial.{term, greatest_degree};
ghost use Rattle.cgs_terms.specs.Product.{top_degree};
ghost use Rattle.cgs_terms.specs.Flat.{terms_of};
ghost use Rattle.cgs_terms.specs.Draft.{HaveLength};
ghost use Rattle.cgs_terms.specs.Merge.{EachTerm};

use cgs_exps::{MAX_DEGREE, degree};
use cgs_field::Elem;
use std::marker::Model;

/// A term: its coefficient, and the exponents of its monomial, the variables' before the parameters'.
#[derive(Clone, Copy, Debug)]
pub struct Term<'a> {
    pub coefficient: Elem,
    pub exponents: &'a [u16],
}

/// Terms of one length in two slices, which contracts see as their list.
#[derive(Debug, Drop)]
pub struct Flat<'a> {
    pub(crate) coefficients: &'a [Elem],
    pub(crate) exponents: &'a [u16],
    pub(crate) places: usize,
}

impl<'a> Model for Flat<'a> {
    ghost use Rattle.std.specs.Prelude.{◌≡◌, ◌*◌, List, length};
    ghost use Rattle.cgs_terms.specs.Polynomial.{Term};
    ghost use Rattle.cgs_terms.specs.Flat.{terms_of};

    ghost Value = { List Term };

    ghost view = { λ f. terms_of f.places f.coefficients.now f.exponents.now };

    ghost invariant = { λ f. length f.exponents.now ≡ length f.coefficients.now * f.places };
}

impl<'a> Flat<'a> {
    /// The terms with these coefficients, each with so many exponents.
    pub fn new(coefficients: &'a [Elem], exponents: &'a [u16], places: usize) -> Flat<'a>
        requires flat { length exponents.now ≡ length coefficients.now * places }
        ensures { result ≡ terms_of places coefficients.now exponents.now }
    {
        Flat {
            coefficients,
            exponents,
            places,
        }
    }

    /// The same terms, each with so many exponents. Told so where the number is a constant, a compiler unrolls the loops over them.
    #[inline(always)]
    pub(crate) fn with_places(&self, places: usize) -> Flat<'a>
        requires { HaveLength places self.now }
        ensures { result ≡ self.now }
    {
        Flat {
            coefficients: self.coefficients,
            exponents: self.exponents,
            places,
        }
    }

    /// The number of terms.
    #[inline(always)]
    pub fn len(&self) -> usize
        ensures { result ≡ length self.now }
    {
        self.coefficients.len()
    }

    /// The term at a place, counted from 0.
    #[inline(always)]
    pub fn term(&self, i: usize) -> Term<'a>
        requires { i < length self.now }
        ensures { slice_get self.now i ≡ Some (term result.coefficient result.exponents.now) }
    {
        term_at(self.coefficients, self.exponents, self.places, i)
    }

    /// The terms from one place up to another.
    pub fn between(&self, from: usize, to: usize) -> Flat<'a>
        requires rising { from ≤ to }
        requires within { to ≤ length self.now }
        ensures { result ≡ take (to - from) (drop from self.now) }
    {
        Flat {
            coefficients: coefficients_part(self.coefficients, from, to),
            exponents: part(self.exponents, self.places, from, to),
            places: self.places,
        }
    }

    /// Whether there are terms, and some monomial has a degree above 32767 together with a further degree.
    pub fn exceeds(&self, further: u32) -> bool
        requires { EachTerm (λ c m. length m ≤ 17) self.now }
        ensures { IsTrue result ↔ ((0 < length self.now) × (greatest_degree < further + top_degree self.now)) }
    {
        if self.len() == 0 {
            return false;
        }
        u64::from(further) + u64::from(self.top_degree()) > u64::from(MAX_DEGREE)
    }

    /// The greatest degree of a monomial.
    pub fn top_degree(&self) -> u32
        requires { EachTerm (λ c m. length m ≤ 17) self.now }
        ensures { result ≡ top_degree self.now }
    {
        let mut top = 0;
        for i in 0..self.len() {
            top = top.max(degree(self.term(i).exponents));
        }
        top
    }
}

// The term at a place of two lists.
#[inline(always)]
fn term_at<'a>(coefficients: &'a [Elem], exponents: &'a [u16], places: usize, i: usize) -> Term<'a>
    requires flat { length exponents.now ≡ length coefficients.now * places }
    requires within { i < length coefficients.now }
    ensures { slice_get (terms_of places coefficients.now exponents.now) i ≡ Some (term result.coefficient result.exponents.now) }
{
    Term {
        coefficient: coefficients[i],
        exponents: part(exponents, places, i, i + 1),
    }
}

// The coefficients from one place up to another.
pub(crate) fn coefficients_part(coefficients: &[Elem], from: usize, to: usize) -> &[Elem]
    requires rising { from ≤ to }
    requires within { to ≤ length coefficients.now }
    ensures { result.now ≡ take (to - from) (drop from coefficients.now) }
{
    &coefficients[from..to]
}

// The exponents of the monomials from one place up to another.
#[inline(always)]
pub(crate) fn part(exponents: &[u16], places: usize, from: usize, to: usize) -> &[u16]
    requires rising { from ≤ to }
    requires within { to * places ≤ length exponents.now }
    ensures { result.now ≡ take ((to - from) * places) (drop (from * places) exponents.now) }
{
    &exponents[from * places..to * places]
}
