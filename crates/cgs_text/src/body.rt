//! The lines after the header.

ghost use Rattle.std.specs.Prelude.{◌≤◌, ℕ, IfOk};
ghost use Rattle.cgs_list.specs.Results.{Answers};
ghost use Rattle.cgs_poly.specs.Polynomial.{IsPoly, places, greatest_degree};
ghost use Rattle.cgs_poly.specs.Parameters.{IsCondition};
ghost use Rattle.cgs_point.specs.Points.{reduced_modulo};
ghost use Rattle.cgs_problem.specs.Drafts as said;
ghost use Rattle.cgs_problem.specs.Problems.{IsProblem, IsThesis};
ghost use Rattle.cgs_problem.specs.Sums.{polynomial_said};
ghost use Rattle.cgs_text.specs.Refusals.{kind_told};
ghost use Rattle.cgs_text.specs.Scopes.{HasTermsFor};
ghost use Rattle.cgs_text.specs.Stages.{meaning, with_header, reader_of, IsProgress};

use crate::polynomial::read_polynomial;
use crate::progress::Progress;
use crate::refusal::LineRefused;
use crate::scope::Scope;
use cgs_exps::MAX_DEGREE;
use cgs_list::ItemList;
use cgs_point::{Point, PointFault};
use cgs_poly::Poly;
use cgs_problem::{MAX_THESIS_DEGREE, Problem, TextKind};
use cgs_tokens::{Lexeme, Line};
use std::alloc::Global;

/// Takes a line by the word that begins it.
pub(crate) fn take_body(
    alloc: Global,
    word: &[u8],
    problem: Problem,
    line: Line,
) -> Result<Progress, LineRefused>
    requires { IsProblem problem }
    ensures said { Answers meaning kind_told result (said.body_said (with_header said.body problem) word.now line.entry) }
    ensures progress { IfOk result IsProgress }
{
    if word == b"zero".as_slice() {
        return take_zero(alloc, problem, line);
    }
    if word == b"nonzero".as_slice() {
        return take_nonzero(alloc, problem, line);
    }
    if word == b"poly".as_slice() {
        return take_poly(alloc, problem, line);
    }
    if word == b"thesis".as_slice() {
        return take_thesis(alloc, problem, line);
    }
    if word == b"point".as_slice() {
        return take_point(alloc, problem, line);
    }
    if word == b"end".as_slice() {
        return take_end(problem, line);
    }
    Err(LineRefused::Kind(TextKind::Place))
}

fn take_zero(alloc: Global, mut problem: Problem, line: Line) -> Result<Progress, LineRefused>
    requires { IsProblem problem }
    ensures said { Answers meaning kind_told result (said.zero_said (with_header said.body problem) line.entry) }
    ensures progress { IfOk result IsProgress }
{
    let f = read_condition(alloc, &problem, line)?;
    problem.zero.push(f)?;
    Ok(Progress::Body(problem))
}

fn take_nonzero(alloc: Global, mut problem: Problem, line: Line) -> Result<Progress, LineRefused>
    requires { IsProblem problem }
    ensures said { Answers meaning kind_told result (said.nonzero_said (with_header said.body problem) line.entry) }
    ensures progress { IfOk result IsProgress }
{
    let f = read_condition(alloc, &problem, line)?;
    problem.nonzero.push(f)?;
    Ok(Progress::Body(problem))
}

fn take_poly(alloc: Global, mut problem: Problem, line: Line) -> Result<Progress, LineRefused>
    requires { IsProblem problem }
    ensures said { Answers meaning kind_told result (said.poly_said (with_header said.body problem) line.entry) }
    ensures progress { IfOk result IsProgress }
{
    let f = read_equation(alloc, &problem, line)?;
    problem.polys.push(f)?;
    Ok(Progress::Body(problem))
}

fn take_thesis(alloc: Global, mut problem: Problem, line: Line) -> Result<Progress, LineRefused>
    requires { IsProblem problem }
    ensures said { Answers meaning kind_told result (said.thesis_said (with_header said.body problem) line.entry) }
    ensures progress { IfOk result IsProgress }
{
    if problem.thesis.is_some() {
        return Err(LineRefused::Kind(TextKind::Thesis));
    }
    let f = read_claim(alloc, &problem, line)?;
    problem.thesis = Some(f);
    Ok(Progress::Body(problem))
}

fn take_point(alloc: Global, mut problem: Problem, line: Line) -> Result<Progress, LineRefused>
    requires { IsProblem problem }
    ensures said { Answers meaning kind_told result (said.point_said (with_header said.body problem) line.entry) }
    ensures progress { IfOk result IsProgress }
{
    let numbers = read_numbers(alloc, line)?;
    match Point::new(alloc, &problem.ring, numbers.as_slice()) {
        Ok(point) => {
            problem.points.push(point)?;
            Ok(Progress::Body(problem))
        }
        Err(PointFault::Count) => Err(LineRefused::Kind(TextKind::Count)),
        Err(PointFault::OutOfMemory) => Err(LineRefused::OutOfMemory),
    }
}

fn take_end(problem: Problem, line: Line) -> Result<Progress, LineRefused>
    requires { IsProblem problem }
    ensures said { Answers meaning kind_told result (said.end_said (with_header said.body problem) line.entry) }
    ensures progress { IfOk result IsProgress }
{
    if !line.is_empty() {
        return Err(LineRefused::Kind(TextKind::Syntax));
    }
    Ok(Progress::Ended(problem))
}

/// A polynomial in the parameters alone.
fn read_condition(alloc: Global, problem: &Problem, line: Line) -> Result<Poly, LineRefused>
    requires { IsProblem problem.now }
    ensures said { Answers (λ f. f) kind_told result (said.condition_said (with_header said.body problem.now) line.entry) }
    ensures condition { IfOk result (IsCondition problem.now.ring) }
{
    read_sum(alloc, problem, problem.ring.variables, MAX_DEGREE, line)
}

/// A polynomial in all names.
fn read_equation(alloc: Global, problem: &Problem, line: Line) -> Result<Poly, LineRefused>
    requires { IsProblem problem.now }
    ensures said { Answers (λ f. f) kind_told result (said.equation_said (with_header said.body problem.now) line.entry) }
    ensures poly { IfOk result (IsPoly problem.now.ring) }
{
    read_sum(alloc, problem, 0, MAX_DEGREE, line)
}

/// A polynomial that leaves room for one more degree.
fn read_claim(alloc: Global, problem: &Problem, line: Line) -> Result<Poly, LineRefused>
    requires { IsProblem problem.now }
    ensures said { Answers (λ f. f) kind_told result (said.claim_said (with_header said.body problem.now) line.entry) }
    ensures thesis { IfOk result (IsThesis problem.now.ring) }
{
    read_sum(alloc, problem, 0, MAX_THESIS_DEGREE, line)
}

/// A polynomial without the first places, whose products have at most that degree.
fn read_sum(
    alloc: Global,
    problem: &Problem,
    barred: u32,
    most: u32,
    line: Line,
) -> Result<Poly, LineRefused>
    requires problem { IsProblem problem.now }
    requires barred { barred ≤ places problem.now.ring }
    requires most { most ≤ greatest_degree }
    ensures said { Answers (λ f. f) kind_told result (polynomial_said (reader_of problem.now barred most) line.entry) }
    ensures poly { IfOk result (IsPoly problem.now.ring) }
    ensures monomials { IfOk result (HasTermsFor (reader_of problem.now barred most)) }
{
    let scope = Scope {
        ring: &problem.ring,
        names: problem.names.as_slice(),
        barred,
        most,
    };
    read_polynomial(alloc, &scope, line)
}

/// The numbers that the line has, and nothing else.
fn read_numbers(alloc: Global, line: Line) -> Result<ItemList<u64>, LineRefused>
    ensures { (p : ℕ) → Answers (reduced_modulo p) kind_told result (said.numbers_said p line.entry) }
{
    let mut numbers = ItemList::new(alloc);
    let mut rest = line;
    while let Some((lexeme, after)) = rest.split_first() {
        let Lexeme::Number(number) = lexeme else {
            return Err(LineRefused::Kind(TextKind::Syntax));
        };
        numbers.push(number)?;
        rest = after;
    }
    Ok(numbers)
}
