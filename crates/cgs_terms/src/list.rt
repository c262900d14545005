//! A list of terms, kept in two flat vectors.

ghost use Rattle.std.specs.Prelude.{◌≡◌, ◌<◌, ◌≤◌, ◌+◌, ◌↔◌, [], ◌∷◌, ◌++◌, Some, length, slice_get, vec_len, vec_capacity, IsTrue, IfOk, OnOk, OnErr};
ghost use Rattle.cgs_terms.specs.Polynomial.{term};
ghost use Rattle.cgs_terms.specs.Draft.{HaveLength};
ghost use Rattle.cgs_terms.specs.Flat.{with_coefficient, coefficients_of, exponents_of};

use crate::draft::push_row;
use crate::flat::{Flat, Term};
use cgs_field::Elem;
use cgs_list::Duplicate;
use std::alloc::{AllocError, Global};
use std::marker::Model;

// For how many terms a list takes room at its first one.
const FIRST_ROOM: usize = 16;

/// Terms in any order, also several of one monomial, which contracts see as their list.
#[derive(Debug, Drop)]
pub struct TermList {
    pub(crate) coefficients: Vec<Elem>,
    pub(crate) exponents: Vec<u16>,
    pub(crate) places: usize,
}

impl Model for TermList {
    ghost use Rattle.std.specs.Prelude.{◌≡◌, ◌*◌, List, length};
    ghost use Rattle.cgs_terms.specs.Polynomial.{Term};
    ghost use Rattle.cgs_terms.specs.Flat.{terms_of};

    ghost Value = { List Term };

    ghost view = { λ f. terms_of f.places f.coefficients.items f.exponents.items };

    ghost invariant = { λ f. length f.exponents.items ≡ length f.coefficients.items * f.places };
}

impl TermList {
    /// No terms.
    pub fn new(alloc: Global) -> TermList
        ensures { result ≡ [] }
    {
        TermList {
            coefficients: Vec::new(alloc),
            exponents: Vec::new(alloc),
            places: 0,
        }
    }

    /// The same terms, with room for no others.
    pub fn copied(alloc: Global, terms: &Flat<'_>) -> Result<TermList, AllocError>
        ensures { IfOk result (λ list. list ≡ terms.now) }
    {
        let mut coefficients = Vec::with_capacity(alloc, terms.coefficients.len())?;
        coefficients.extend_from_slice(terms.coefficients)?;
        let mut exponents = Vec::with_capacity(alloc, terms.exponents.len())?;
        exponents.extend_from_slice(terms.exponents)?;
        Ok(TermList {
            coefficients,
            exponents,
            places: terms.places,
        })
    }

    /// The number of terms.
    pub fn len(&self) -> usize
        ensures { result ≡ length self.now }
    {
        self.flat().len()
    }

    /// The term at a place, counted from 0.
    pub fn term(&self, i: usize) -> Term<'_>
        requires { i < length self.now }
        ensures { slice_get self.now i ≡ Some (term result.coefficient result.exponents.now) }
    {
        self.flat().term(i)
    }

    /// All terms, to be read.
    pub fn flat(&self) -> Flat<'_>
        ensures { result ≡ self.now }
    {
        Flat {
            coefficients: &self.coefficients,
            exponents: &self.exponents,
            places: self.places,
        }
    }

    /// The coefficients of all terms.
    pub fn coefficients(&self) -> &[Elem]
        ensures { result.now ≡ coefficients_of self.now }
    {
        self.coefficients.as_slice()
    }

    /// The exponents of all terms, one monomial after the other.
    pub fn exponents(&self) -> &[u16]
        ensures { result.now ≡ exponents_of self.now }
    {
        self.exponents.as_slice()
    }

    /// Puts a term at the end. An error leaves the terms as they were.
    pub fn push(&mut self, c: Elem, m: &[u16]) -> Result<(), AllocError>
        requires places { HaveLength (length m.now) self.old }
        ensures ok { OnOk result (self.new ≡ self.old ++ term c m.now ∷ []) }
        ensures err { OnErr result (self.new ≡ self.old) }
    {
        reserve_term(&mut self.coefficients, &mut self.exponents, m.len())?;
        self.coefficients.push_reserved(c);
        push_row(&mut self.exponents, m);
        self.places = m.len();
        Ok(())
    }

    /// Gives the term at a place another coefficient.
    pub fn set_coefficient(&mut self, i: usize, c: Elem)
        requires { i < length self.old }
        ensures { self.new ≡ with_coefficient i c self.old }
    {
        self.coefficients[i] = c;
    }

    /// Whether two lists are equal. Exponents are compared first: different members of a list mostly differ in the lead.
    pub fn same(&self, other: &TermList) -> bool
        ensures { IsTrue result ↔ (self.now ≡ other.now) }
    {
        self.exponents == other.exponents && self.coefficients == other.coefficients
    }
}

// Takes room for a term with so many exponents, and for `FIRST_ROOM` of them where there is none yet.
#[inline(always)]
fn reserve_term(
    coefficients: &mut Vec<Elem>,
    exponents: &mut Vec<u16>,
    places: usize,
) -> Result<(), AllocError>
    ensures coefficients { coefficients.new.items ≡ coefficients.old.items }
    ensures exponents { exponents.new.items ≡ exponents.old.items }
    ensures first { OnOk result (vec_len coefficients.new < vec_capacity coefficients.new) }
    ensures second { OnOk result (vec_len exponents.new + places ≤ vec_capacity exponents.new) }
{
    if coefficients.is_empty() {
        coefficients.reserve(FIRST_ROOM)?;
        exponents.reserve(places.saturating_mul(FIRST_ROOM))?;
    }
    coefficients.reserve(1)?;
    exponents.reserve(places)?;
    Ok(())
}

impl Duplicate for TermList {
    fn copy(&self) -> Result<TermList, AllocError> {
        let coefficients = self.coefficients.clone()?;
        let exponents = self.exponents.clone()?;
        Ok(TermList {
            coefficients,
            exponents,
            places: self.places,
        })
    }
}
