//! Conditions on the parameters: emptiness runs, points, lists of conditions, leading coefficients.

ghost use Rattle.std.specs.Prelude.{◌≡◌, [], IfOk, IsTrue};
ghost use Rattle.std.specs.List.{AllByRecursion};
ghost use Rattle.cgs_poly.specs.Polynomial.{ArePolys};
ghost use Rattle.cgs_problem.specs.Problems.{IsProblem};

use crate::given::{
    LINE, QUADRATIC, TWO_PARAMETERS, condition_at, first_point, is_text, poly_at, printed,
    problem_of,
};
use cgs_dickson::{coefficient_list, minimal_dickson};
use cgs_divide::Stop;
use cgs_entry::{Conditions, add};
use cgs_point::{Point, PointFault, specialise, vanishes};
use cgs_poly::{Poly, PolyList, Ring};
use cgs_print::basis_text;
use cgs_problem::{Problem, Text};
use cgs_radical::test_empty;
use std::alloc::Global;
use std::test::Fail;

/// Conditions, units, whether they contradict each other, and the units that are left.
const EMPTINESS: [(&str, u64, Result<bool, Stop>, u64); 10] = [
    ("", 2, Ok(false), 0),
    ("", 1, Err(Stop::Budget), 0),
    ("zero a\nnonzero a\n", 3, Ok(true), 0),
    ("zero a\nnonzero a\n", 2, Err(Stop::Budget), 0),
    ("nonzero a\n", 4, Ok(false), 0),
    ("nonzero a\n", 3, Err(Stop::Budget), 0),
    ("zero a\n", 4, Ok(false), 0),
    ("zero a\n", 3, Err(Stop::Budget), 0),
    ("zero 1\n", 2, Ok(true), 0),
    ("zero 1\n", 1, Err(Stop::Budget), 0),
];

fn is_empty(alloc: Global, problem: Problem, fuel: &mut u64) -> Result<bool, Stop>
    requires { IsProblem problem }
{
    let Problem {
        ring,
        zero,
        nonzero,
        ..
    } = problem;
    let conditions = Conditions { zero, nonzero };
    test_empty(alloc, &ring, &conditions, fuel)
}

#[test]
fn emptiness(rt: HostRuntime) -> Result<(), Fail> {
    for (lines, units, want, left) in EMPTINESS {
        let problem = problem_of(rt.alloc(), LINE, lines)?;
        let mut fuel = units;
        let found = is_empty(rt.alloc(), problem, &mut fuel);
        assert_eq!(rt; (found, fuel), (want, left), "{units} units of {lines}");
    }
    Ok(())
}

/// A polynomial and a point, what it becomes there; a condition, and whether it is 0 there.
const POINTS: [(&str, &str, bool); 5] = [
    ("poly a*x+6\nzero a+4\npoint 3\n", "3*x+6", true),
    ("poly a*x+6\nzero a+4\npoint 0\n", "6", false),
    (
        "poly a^10*x+2*a*x+a*x^2\nzero a^2-a\npoint 3\n",
        "3*x^2+3*x",
        false,
    ),
    ("poly a*x\nzero a^6-1\npoint 12\n", "5*x", true),
    ("poly 0\nzero a+4\npoint 5\n", "0", false),
];

fn becomes(alloc: Global, problem: &Problem) -> Result<Text, Fail>
    requires { IsProblem problem.now }
{
    let f = poly_at(problem, 0).ok_or("no polynomial")?;
    let point = first_point(problem).ok_or("no point")?;
    let special = specialise(alloc, &problem.ring, f, point)?;
    printed(
        alloc,
        &problem.ring.variables_ring(),
        &problem.names,
        &special,
    )
}

fn holds(problem: &Problem) -> Result<bool, Fail>
    requires { IsProblem problem.now }
{
    let f = condition_at(problem, 0).ok_or("no condition")?;
    let point = first_point(problem).ok_or("no point")?;
    Ok(vanishes(&problem.ring, f, point))
}

/// The numbers of a point, and what they are modulo 32003.
const NUMBERS: [([u64; 3], [u16; 3]); 3] = [
    ([0, 2, 1], [0, 2, 1]),
    ([0, 0, 0], [0, 0, 0]),
    ([32003, 32005, 18446744073709551615], [0, 2, 21708]),
];

fn are_numbers(point: &Point, numbers: &[u16; 3]) -> bool {
    let found = point.as_slice();
    found.len() == 3 && numbers.iter().zip(found).all(|(n, x)| x.number() == *n)
}

#[test]
fn numbers(rt: HostRuntime) -> Result<(), Fail> {
    let problem = problem_of(rt.alloc(), QUADRATIC, "")?;
    for (values, want) in NUMBERS {
        let point = Point::new(rt.alloc(), &problem.ring, &values)?;
        assert!(rt; are_numbers(&point, &want), "at {values:?}");
    }
    for values in [[].as_slice(), &[1, 2], &[1, 2, 3, 4]] {
        let refused = Point::new(rt.alloc(), &problem.ring, values).map(|_| ());
        assert_eq!(rt; refused, Err(PointFault::Count));
    }
    Ok(())
}

#[test]
fn points(rt: HostRuntime) -> Result<(), Fail> {
    for (lines, text, want) in POINTS {
        let problem = problem_of(rt.alloc(), LINE, lines)?;
        assert!(rt; is_text(&becomes(rt.alloc(), &problem)?, text), "{lines}");
        assert_eq!(rt; holds(&problem)?, want, "{lines}");
    }
    Ok(())
}

// The first polynomial, in the ring with one variable more, which stands first. The names are those of another problem.
fn raised(alloc: Global, problem: &Problem, names: &str) -> Result<Text, Fail>
    requires { IsProblem problem.now }
{
    let from = problem.ring;
    if from.variables > 8 {
        return Err("too many variables".into());
    }
    let to = Ring {
        variables: from.variables + 1,
        ..from
    };
    let f = poly_at(problem, 0).ok_or("no polynomial")?;
    let recast = Poly::recast(alloc, &from, &to, f)?;
    let named = problem_of(alloc, names, "")?;
    printed(alloc, &to, &named.names, &recast)
}

// The first condition, in the ring with one variable. The names are those of another problem.
fn lifted(alloc: Global, problem: &Problem, names: &str) -> Result<Text, Fail>
    requires { IsProblem problem.now }
{
    let from = problem.ring;
    let to = Ring {
        variables: 1,
        ..from
    };
    let f = condition_at(problem, 0).ok_or("no condition")?;
    let recast = Poly::recast(alloc, &from, &to, f)?;
    let named = problem_of(alloc, names, "")?;
    printed(alloc, &to, &named.names, &recast)
}

#[test]
fn recast(rt: HostRuntime) -> Result<(), Fail> {
    let problem = problem_of(
        rt.alloc(),
        "field 7\nparameters a\nvariables x y\norder grevlex\n",
        "poly a*x*y+3*y+a^2\nzero 2*a^2+6\n",
    )?;
    let three = "field 7\nparameters a\nvariables z x y\norder lex\n";
    assert!(rt; is_text(&raised(rt.alloc(), &problem, three)?, "a*x*y+3*y+a^2"));
    let one = "field 7\nparameters a\nvariables z\norder lex\n";
    assert!(rt; is_text(&lifted(rt.alloc(), &problem, one)?, "2*a^2+6"));
    Ok(())
}

// The conditions of a problem added to each other.
fn added(alloc: Global, problem: &Problem) -> Result<PolyList, Fail>
    requires { IsProblem problem.now }
    ensures { IfOk result (λ list. ArePolys problem.now.ring list) }
{
    let mut list = PolyList::new(alloc);
    for i in 0..problem.zero.len() {
        let f = condition_at(problem, i).ok_or("no condition")?;
        add(alloc, &problem.ring, &mut list, f)?;
    }
    Ok(list)
}

#[test]
fn lists(rt: HostRuntime) -> Result<(), Fail> {
    let problem = problem_of(
        rt.alloc(),
        LINE,
        "zero a\nzero 3*a\nzero 0\nzero 0\nzero 5\n",
    )?;
    let mut out = Text::new(rt.alloc());
    basis_text(&problem, &added(rt.alloc(), &problem)?, &mut out)?;
    assert!(rt; is_text(&out, "basis a\nbasis 0\nbasis 1\nmembers 3\n"));
    Ok(())
}

/// Polynomials, those of the minimal Dickson basis, and the leading coefficients of all that are not constant.
const DICKSON: [(&str, &str, &str); 4] = [
    (
        "poly b*x\npoly a*x\n",
        "basis b*x\nmembers 1\n",
        "basis b\nbasis a\nmembers 2\n",
    ),
    // the least leading monomial, wherever it stands, and each leading coefficient once
    (
        "poly a*x\npoly b*x\npoly a*x^2\n",
        "basis b*x\nmembers 1\n",
        "basis a\nbasis b\nmembers 2\n",
    ),
    // a constant is no condition, and a leading coefficient is made monic
    ("poly 3*x+a\n", "basis 3*x+a\nmembers 1\n", "members 0\n"),
    (
        "poly 3*a*x^2+2*b*x^2+x\n",
        "basis 3*a*x^2+2*b*x^2+x\nmembers 1\n",
        "basis a+3*b\nmembers 1\n",
    ),
];

// Whether 0 is not among the polynomials.
fn have_leads(list: &PolyList) -> bool
    ensures { IsTrue result → AllByRecursion (λ g. ¬ (g ≡ [])) list.now }
{
    list.as_slice().iter().all(|f| f.len() > 0)
}

// The texts of the minimal Dickson basis of a problem's polynomials and of their leading coefficients.
fn dickson(alloc: Global, problem: &Problem) -> Result<(Text, Text), Fail>
    requires { IsProblem problem.now }
{
    if !have_leads(&problem.polys) {
        return Err("a polynomial is 0".into());
    }
    let kept = minimal_dickson(alloc, &problem.ring, &problem.polys)?;
    let coefficients = coefficient_list(alloc, &problem.ring, &problem.polys)?;
    let (mut first, mut second) = (Text::new(alloc), Text::new(alloc));
    basis_text(problem, &kept, &mut first)?;
    basis_text(problem, &coefficients, &mut second)?;
    Ok((first, second))
}

#[test]
fn dickson_bases(rt: HostRuntime) -> Result<(), Fail> {
    for (lines, kept, coefficients) in DICKSON {
        let problem = problem_of(rt.alloc(), TWO_PARAMETERS, lines)?;
        let (first, second) = dickson(rt.alloc(), &problem)?;
        assert!(rt; is_text(&first, kept), "{lines}");
        assert!(rt; is_text(&second, coefficients), "{lines}");
    }
    Ok(())
}
