//! One list of terms of a sum, from which leading terms are taken.

ghost use Rattle.std.specs.Prelude.{◌≡◌, ◌<◌, Some, length, drop, slice_get};
ghost use Rattle.cgs_terms.specs.Polynomial.{term};
ghost use Rattle.cgs_terms.specs.Flat.{with_coefficient};

use cgs_field::Elem;
use cgs_terms::{Flat, Term, TermList};
use std::marker::Model;
use std::mem;

/// The leading term of a sum: its coefficient, and the exponents of its monomial.
#[derive(Clone, Copy, Debug)]
pub struct Lead<'a> {
    pub coefficient: &'a Elem,
    pub exponents: &'a [u16],
}

/// Terms, of which the last so many are left.
#[derive(Drop)]
pub(crate) struct Level {
    terms: TermList,
    left: usize,
}

impl Model for Level {
    ghost use Rattle.std.specs.Prelude.{◌≤◌, ◌-◌, List, length, drop};
    ghost use Rattle.cgs_terms.specs.Polynomial.{Term};

    ghost Value = { List Term };

    ghost view = { λ l. drop (length l.terms - l.left) l.terms };

    ghost invariant = { λ l. l.left ≤ length l.terms };
}

impl Level {
    // All terms of a list.
    pub(crate) fn new(terms: TermList) -> Level
        ensures { result ≡ terms }
    {
        let left = terms.len();
        Level { terms, left }
    }

    // The number of terms.
    pub(crate) fn len(&self) -> usize
        ensures { result ≡ length self.now }
    {
        self.left
    }

    // The terms, to be read.
    pub(crate) fn flat(&self) -> Flat<'_>
        ensures { result ≡ self.now }
    {
        let all = self.terms.len();
        self.terms.flat().between(all - self.left, all)
    }

    // The first term.
    pub(crate) fn first(&self) -> Term<'_>
        requires { 0 < length self.now }
        ensures { slice_get self.now 0 ≡ Some (term result.coefficient result.exponents.now) }
    {
        self.terms.term(self.terms.len() - self.left)
    }

    // The first term, to be lent.
    pub(crate) fn lead(&self) -> Lead<'_>
        requires { 0 < length self.now }
        ensures { slice_get self.now 0 ≡ Some (term result.coefficient.now result.exponents.now) }
    {
        let at = self.terms.len() - self.left;
        let coefficients = self.terms.coefficients();
        Lead {
            coefficient: &coefficients[at],
            exponents: self.terms.term(at).exponents,
        }
    }

    // Takes the first term away.
    pub(crate) fn drop_first(&mut self)
        requires { 0 < length self.old }
        ensures { self.new ≡ drop 1 self.old }
    {
        self.left -= 1;
    }

    // Gives the first term another coefficient.
    pub(crate) fn set_first(&mut self, c: Elem)
        requires { 0 < length self.old }
        ensures { self.new ≡ with_coefficient 0 c self.old }
    {
        let at = self.terms.len() - self.left;
        self.terms.set_coefficient(at, c);
    }

    // Takes over other terms, and gives its list back for its memory.
    pub(crate) fn renew(&mut self, terms: TermList) -> TermList
        ensures { self.new ≡ terms }
    {
        self.left = terms.len();
        mem::replace(&mut self.terms, terms)
    }
}
