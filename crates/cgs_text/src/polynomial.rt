//! A polynomial as it is written: a sum of products.

ghost use Rattle.std.specs.Prelude.{◌≡◌, ◌<◌, replicate, IfOk};
ghost use Rattle.std.specs.List.{AllByRecursion};
ghost use Rattle.cgs_list.specs.Results.{Answers};
ghost use Rattle.cgs_poly.specs.Polynomial.{IsRing, IsPoly, places, term};
ghost use Rattle.cgs_problem.specs.Sums as sums;
ghost use Rattle.cgs_tokens.specs.Lexemes.{seen};
ghost use Rattle.cgs_text.specs.Refusals.{kind_told};
ghost use Rattle.cgs_text.specs.Scopes.{reader_in, IsReader, IsProduct, HasTermsFor, signed_one};

use crate::product::{Product, times_factor};
use crate::refusal::LineRefused;
use crate::scope::Scope;
use cgs_field::Elem;
use cgs_poly::{Poly, Ring, TermList};
use cgs_problem::TextKind;
use cgs_tokens::{Lexeme, Line};
use std::alloc::Global;

/// The polynomial that the line writes.
pub(crate) fn read_polynomial(alloc: Global, scope: &Scope, line: Line) -> Result<Poly, LineRefused>
    requires { IsReader (reader_in scope.now) }
    ensures said { Answers (λ f. f) kind_told result (sums.polynomial_said (reader_in scope.now) line.entry) }
    ensures poly { IfOk result (IsPoly scope.now.ring.now) }
    ensures monomials { IfOk result (HasTermsFor (reader_in scope.now)) }
{
    let terms = read_terms(alloc, scope, line)?;
    let sum = Poly::of_terms(alloc, scope.ring, &terms)?;
    Ok(sum)
}

/// The terms that the line writes, one for each product.
fn read_terms(alloc: Global, scope: &Scope, line: Line) -> Result<TermList, LineRefused>
    requires { IsReader (reader_in scope.now) }
    ensures said { Answers (λ terms. terms) kind_told result (sums.terms_said (reader_in scope.now) line.entry) }
    ensures terms { IfOk result (AllByRecursion (IsProduct (reader_in scope.now))) }
{
    let Some((first, rest)) = line.split_first() else {
        return Err(LineRefused::Kind(TextKind::Syntax));
    };
    match signed_one(scope.ring, first) {
        Some(c) => products(alloc, scope, c, rest),
        None => products(alloc, scope, scope.ring.modulus.of_u64(1), line),
    }
}

/// What a sign stands for: 1 or -1.
fn signed_one(ring: &Ring, sign: Lexeme) -> Option<Elem>
    requires { IsRing ring.now }
    ensures { result ≡ signed_one ring.now.modulus (seen sign.entry) }
{
    let one = ring.modulus.of_u64(1);
    match sign {
        Lexeme::Plus => Some(one),
        Lexeme::Minus => Some(ring.modulus.neg(one)),
        _ => None,
    }
}

/// The terms of these products, of which the first begins with a number.
fn products(alloc: Global, scope: &Scope, c: Elem, line: Line) -> Result<TermList, LineRefused>
    requires reader { IsReader (reader_in scope.now) }
    requires below { c < scope.now.ring.now.modulus }
    ensures said { Answers (λ terms. terms) kind_told result (sums.product (reader_in scope.now) (term c (replicate (places scope.now.ring.now) 0)) line.entry) }
    ensures terms { IfOk result (AllByRecursion (IsProduct (reader_in scope.now))) }
{
    let mut terms = TermList::new(alloc);
    let mut product = Product::of(alloc, scope.ring, c)?;
    let mut rest = line;
    loop {
        let after = times_factor(scope, &rest, &mut product)?;
        let Some((sign, others)) = after.split_first() else {
            terms.push(product.coefficient(), product.exponents())?;
            return Ok(terms);
        };
        match sign {
            Lexeme::Times => {}
            sign => {
                let Some(next) = signed_one(scope.ring, sign) else {
                    return Err(LineRefused::Kind(TextKind::Syntax));
                };
                terms.push(product.coefficient(), product.exponents())?;
                product.restart(next);
            }
        }
        rest = others;
    }
}
