//! The canonical text of a problem.

ghost use Rattle.cgs_problem.specs.Problems.{IsProblem};
ghost use Rattle.cgs_canonical.specs.Printing.{header_text, body_text, problem_text, Prints};
ghost use Rattle.cgs_canonical.specs.RoundTrip.{IsReadBack};

use crate::line::{field_line, names_line, order_line, point_lines, polynomial_lines, thesis_line};
use cgs_problem::{Problem, Text};
use std::alloc::AllocError;

/// Appends the canonical text of a problem, which reads back as this problem if any text does. For want of memory a front
/// of it is appended.
pub fn problem_text(problem: &Problem, out: &mut Text) -> Result<(), AllocError>
    requires { IsProblem problem.now }
    ensures text { Prints result out.old out.new (problem_text problem.now) }
    ensures reads_back { IsReadBack problem.now }
{
    header_text(problem, out)?;
    body_text(problem, out)?;
    out.extend_from_slice(b"end\n")
}

/// The lines before the polynomials.
fn header_text(problem: &Problem, out: &mut Text) -> Result<(), AllocError>
    requires { IsProblem problem.now }
    ensures { Prints result out.old out.new (header_text problem.now) }
{
    let (variables, parameters) = problem
        .names
        .as_slice()
        .split_at(problem.ring.variables as usize);
    field_line(problem.ring.modulus, out)?;
    names_line(b"parameters", parameters, out)?;
    names_line(b"variables", variables, out)?;
    order_line(problem.ring.kind, out)
}

/// The lines of the conditions, the polynomials, the thesis and the points.
fn body_text(problem: &Problem, out: &mut Text) -> Result<(), AllocError>
    requires { IsProblem problem.now }
    ensures { Prints result out.old out.new (body_text problem.now) }
{
    let ring = &problem.ring;
    let names = problem.names.as_slice();
    polynomial_lines(b"zero", ring, names, problem.zero.as_slice(), out)?;
    polynomial_lines(b"nonzero", ring, names, problem.nonzero.as_slice(), out)?;
    polynomial_lines(b"poly", ring, names, problem.polys.as_slice(), out)?;
    thesis_line(ring, names, &problem.thesis, out)?;
    point_lines(problem.points.as_slice(), out)
}
