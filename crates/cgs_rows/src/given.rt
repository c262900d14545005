//! Problems from texts, what stands in them, and the texts of what is found.

ghost use Rattle.std.specs.Prelude.{IfOk, IfSome};
ghost use Rattle.cgs_poly.specs.Polynomial.{IsRing, IsPoly};
ghost use Rattle.cgs_poly.specs.Parameters.{IsCondition};
ghost use Rattle.cgs_point.specs.Points.{IsPoint};
ghost use Rattle.cgs_problem.specs.Problems.{IsProblem};

use cgs_canonical::poly_text;
use cgs_point::Point;
use cgs_poly::{Poly, Ring};
use cgs_problem::{NameList, Problem, Text};
use cgs_text::{TextRefused, read_problem};
use std::alloc::Global;
use std::test::Fail;

/// Modulo 7 in x with the parameter a.
pub(crate) const LINE: &str = "field 7\nparameters a\nvariables x\norder lex\n";

/// Modulo 7 in x with the parameters a and b.
pub(crate) const TWO_PARAMETERS: &str = "field 7\nparameters a b\nvariables x\norder lex\n";

/// Modulo 7 in x and y.
pub(crate) const PLANE: &str = "field 7\nparameters\nvariables x y\norder lex\n";

/// Modulo 32003 in x with the parameters a, b and c.
pub(crate) const QUADRATIC: &str = "field 32003\nparameters a b c\nvariables x\norder lex\n";

/// The problem with these lines, and `end` after them.
pub(crate) fn problem_of(alloc: Global, ring: &str, lines: &str) -> Result<Problem, TextRefused>
    ensures { IfOk result (λ problem. IsProblem problem) }
{
    let mut text = Text::new(alloc);
    for part in [ring, lines, "end\n"] {
        let added = text.extend_from_slice(part.as_bytes());
        if added.is_err() {
            return Err(TextRefused::OutOfMemory);
        }
    }
    if text.len() > 1048576 {
        return Err(TextRefused::OutOfMemory);
    }
    read_problem(alloc, text.as_slice())
}

/// The polynomial at a place of a problem's list.
pub(crate) fn poly_at(problem: &Problem, i: usize) -> Option<&Poly>
    requires { IsProblem problem.now }
    ensures { IfSome result (λ f. IsPoly problem.now.ring f.now) }
{
    if i < problem.polys.len() {
        Some(problem.polys.get(i))
    } else {
        None
    }
}

/// The polynomial at a place of those that have to vanish.
pub(crate) fn condition_at(problem: &Problem, i: usize) -> Option<&Poly>
    requires { IsProblem problem.now }
    ensures { IfSome result (λ f. IsCondition problem.now.ring f.now) }
{
    if i < problem.zero.len() {
        Some(problem.zero.get(i))
    } else {
        None
    }
}

/// The first point of a problem.
pub(crate) fn first_point(problem: &Problem) -> Option<&Point>
    requires { IsProblem problem.now }
    ensures { IfSome result (λ point. IsPoint problem.now.ring point.now) }
{
    if problem.points.len() > 0 {
        Some(problem.points.get(0))
    } else {
        None
    }
}

/// A polynomial as a text, with as many of the names as its ring has places.
pub(crate) fn printed(alloc: Global, ring: &Ring, names: &NameList, f: &Poly) -> Result<Text, Fail>
    requires ring { IsRing ring.now }
    requires poly { IsPoly ring.now f.now }
{
    if names.len() < ring.places() {
        return Err("too few names".into());
    }
    let mut out = Text::new(alloc);
    poly_text(ring, names, f, &mut out)?;
    Ok(out)
}

/// Whether a text is this one.
pub(crate) fn is_text(text: &Text, want: &str) -> bool {
    text.as_slice() == want.as_bytes()
}
