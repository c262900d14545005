//! A product as it is read, factor by factor.

ghost use Rattle.std.specs.Prelude.{◌≡◌, ◌<◌, ◌≤◌, length, replicate, OnOk, IfOk};
ghost use Rattle.cgs_list.specs.Results.{Answers};
ghost use Rattle.cgs_poly.specs.Polynomial.{term, places};
ghost use Rattle.cgs_problem.specs.Sums as sums;
ghost use Rattle.cgs_text.specs.Factors.{factor, powered};
ghost use Rattle.cgs_text.specs.Refusals.{kind_told};
ghost use Rattle.cgs_text.specs.Scopes.{reader_in, IsReader, IsProduct};

use crate::refusal::LineRefused;
use crate::scope::Scope;
use cgs_exps::{MAX_DEGREE, degree};
use cgs_field::Elem;
use cgs_poly::Ring;
use cgs_problem::TextKind;
use cgs_tokens::{Lexeme, Line};
use std::alloc::{AllocError, Global};
use std::marker::Model;

/// A product, which contracts see as a term. Its exponents are changed in place.
#[derive(Drop)]
pub(crate) struct Product {
    coefficient: Elem,
    exponents: Vec<u16>,
}

impl Model for Product {
    ghost use Rattle.cgs_poly.specs.Polynomial.{Term, term};

    ghost Value = { Term };

    ghost view = { λ product. term product.coefficient product.exponents.items };
}

impl Product {
    /// A number times the monomial 1.
    pub(crate) fn of(alloc: Global, ring: &Ring, c: Elem) -> Result<Product, AllocError>
        ensures { IfOk result (λ product. product ≡ term c (replicate (places ring.now) 0)) }
    {
        Ok(Product {
            coefficient: c,
            exponents: vec![in alloc; 0; ring.places()]?,
        })
    }

    /// Begins again with a number times the monomial 1.
    pub(crate) fn restart(&mut self, c: Elem)
        ensures { self.new ≡ term c (replicate (length self.old.exponents) 0) }
    {
        self.coefficient = c;
        self.exponents.as_mut_slice().fill(0);
    }

    /// The coefficient.
    pub(crate) fn coefficient(&self) -> Elem
        ensures { result ≡ self.now.coefficient }
    {
        self.coefficient
    }

    /// The exponents.
    pub(crate) fn exponents(&self) -> &[u16]
        ensures { result.now ≡ self.now.exponents }
    {
        self.exponents.as_slice()
    }

    fn times_number(&mut self, scope: &Scope, number: u64)
        requires reader { IsReader (reader_in scope.now) }
        requires product { IsProduct (reader_in scope.now) self.old }
        ensures said { self.new ≡ sums.times_number (reader_in scope.now) number self.old }
        ensures product { IsProduct (reader_in scope.now) self.new }
    {
        let modulus = scope.ring.modulus;
        self.coefficient = modulus.mul(self.coefficient, modulus.of_u64(number));
    }

    fn times_power(&mut self, scope: &Scope, place: usize, exponent: u16) -> Result<(), LineRefused>
        requires reader { IsReader (reader_in scope.now) }
        requires product { IsProduct (reader_in scope.now) self.old }
        requires place { place < places scope.now.ring.now }
        requires allowed { scope.now.barred ≤ place }
        ensures said { Answers (λ _. self.new) kind_told result (sums.times_power (reader_in scope.now) place exponent self.old) }
        ensures product { OnOk result (IsProduct (reader_in scope.now) self.new) }
    {
        if degree(&self.exponents) + exponent as u32 > scope.most {
            return Err(LineRefused::Kind(TextKind::Degree));
        }
        self.exponents[place] += exponent;
        Ok(())
    }
}

/// Multiplies a product by the factor that comes first. The answer is what is left of the line.
pub(crate) fn times_factor<'a>(
    scope: &Scope,
    line: &Line<'a>,
    product: &mut Product,
) -> Result<Line<'a>, LineRefused>
    requires reader { IsReader (reader_in scope.now) }
    requires product { IsProduct (reader_in scope.now) product.old }
    ensures said { Answers (λ rest. (product.new, rest)) kind_told result (factor (reader_in scope.now) product.old line.now) }
    ensures product { OnOk result (IsProduct (reader_in scope.now) product.new) }
    ensures fewer { IfOk result (λ rest. length rest < length line.now) }
{
    match line.split_first() {
        Some((Lexeme::Number(number), rest)) => {
            product.times_number(scope, number);
            Ok(rest)
        }
        Some((Lexeme::Name(name), rest)) => {
            let place = scope.place_of(name)?;
            times_power(scope, rest, place, product)
        }
        _ => Err(LineRefused::Kind(TextKind::Syntax)),
    }
}

/// Multiplies a product by the power of the name at a place. The answer is what is left of the line.
fn times_power<'a>(
    scope: &Scope,
    line: Line<'a>,
    place: usize,
    product: &mut Product,
) -> Result<Line<'a>, LineRefused>
    requires reader { IsReader (reader_in scope.now) }
    requires product { IsProduct (reader_in scope.now) product.old }
    requires place { place < places scope.now.ring.now }
    requires allowed { scope.now.barred ≤ place }
    ensures said { Answers (λ rest. (product.new, rest)) kind_told result (powered (reader_in scope.now) product.old place line.entry) }
    ensures product { OnOk result (IsProduct (reader_in scope.now) product.new) }
    ensures fewer { IfOk result (λ rest. length rest ≤ length line.entry) }
{
    let Some((Lexeme::Power, after)) = line.split_first() else {
        product.times_power(scope, place, 1)?;
        return Ok(line);
    };
    let Some((Lexeme::Number(number), rest)) = after.split_first() else {
        return Err(LineRefused::Kind(TextKind::Syntax));
    };
    let exponent = exponent_of(number)?;
    product.times_power(scope, place, exponent)?;
    Ok(rest)
}

fn exponent_of(number: u64) -> Result<u16, LineRefused>
    ensures { Answers (λ exponent. exponent) kind_told result (sums.exponent_of number) }
{
    if number > MAX_DEGREE as u64 {
        return Err(LineRefused::Kind(TextKind::Exponent));
    }
    Ok(number as u16)
}
