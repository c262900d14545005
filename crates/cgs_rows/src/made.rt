//! Problems that are made of others and of numbers, as texts.

ghost use Rattle.std.specs.Prelude.{◌≡◌, bytes_eq, IfOk};
ghost use Rattle.std.specs.List.{list_any};
ghost use Rattle.cgs_problem.specs.Problems.{IsProblem};

use crate::given::{LINE, TWO_PARAMETERS, is_text, problem_of};
use cgs_canonical::problem_text;
use cgs_discover::{DiscoverFault, refutation, with_thesis};
use cgs_problem::{Problem, Text};
use std::alloc::{AllocError, Global};
use std::test::Fail;

/// A problem with a thesis, its refutation, and that problem with its thesis.
struct Row<'a> {
    ring: &'a str,
    lines: &'a str,
    refutation: &'a str,
    with_thesis: &'a str,
}

const ROWS: &[Row<'static>] = &[
    Row {
        ring: TWO_PARAMETERS,
        lines: "poly a*x-b\nthesis x\n",
        refutation: "field 7\nparameters a b\nvariables _y x\norder lex\npoly a*x+6*b\npoly _y*x+6\nend\n",
        with_thesis: "field 7\nparameters a b\nvariables x\norder lex\npoly a*x+6*b\npoly x\nend\n",
    },
    // conditions and points are kept, and the thesis 0 leaves 6
    Row {
        ring: LINE,
        lines: "zero a^2-1\nnonzero a\nthesis 0\npoint 3\npoint 8\n",
        refutation: "field 7\nparameters a\nvariables _y x\norder lex\nzero a^2+6\nnonzero a\npoly 6\npoint 3\npoint 1\nend\n",
        with_thesis: "field 7\nparameters a\nvariables x\norder lex\nzero a^2+6\nnonzero a\npoly 0\npoint 3\npoint 1\nend\n",
    },
    // eight variables, and the greatest degree of a thesis
    Row {
        ring: "field 2\nparameters\nvariables s t u v w x y z\norder grevlex\n",
        lines: "poly x*y\nthesis z^32766+1\n",
        refutation: "field 2\nparameters\nvariables _y s t u v w x y z\norder grevlex\npoly x*y\npoly _y*z^32766+_y+1\nend\n",
        with_thesis: "field 2\nparameters\nvariables s t u v w x y z\norder grevlex\npoly x*y\npoly z^32766+1\nend\n",
    },
];

fn contains(names: &[Text], name: &[u8]) -> bool
    ensures { result ≡ list_any (bytes_eq name.now) names.now }
{
    names.iter().any(|other| name == other.as_slice())
}

fn refuted(alloc: Global, problem: &Problem) -> Result<Problem, Fail>
    requires { IsProblem problem.now }
    ensures { IfOk result IsProblem }
{
    if problem.ring.variables > 8 {
        return Err("too many variables".into());
    }
    if contains(problem.names.as_slice(), b"_y") {
        return Err("no new name".into());
    }
    Ok(refutation(alloc, problem)?)
}

fn text_of(alloc: Global, problem: &Problem) -> Result<Text, AllocError>
    requires { IsProblem problem.now }
{
    let mut out = Text::new(alloc);
    problem_text(problem, &mut out)?;
    Ok(out)
}

#[test]
fn discoveries(rt: HostRuntime) -> Result<(), Fail> {
    for row in ROWS {
        let problem = problem_of(rt.alloc(), row.ring, row.lines)?;
        let refuted = refuted(rt.alloc(), &problem)?;
        assert!(rt;
            is_text(&text_of(rt.alloc(), &refuted)?, row.refutation),
            "{}",
            row.lines
        );
        let extended = with_thesis(rt.alloc(), &problem)?;
        assert!(rt;
            is_text(&text_of(rt.alloc(), &extended)?, row.with_thesis),
            "{}",
            row.lines
        );
    }
    Ok(())
}

#[test]
fn no_thesis(rt: HostRuntime) -> Result<(), Fail> {
    let problem = problem_of(rt.alloc(), LINE, "poly a*x-1\n")?;
    let refused = with_thesis(rt.alloc(), &problem).map(|_| ());
    assert_eq!(rt; refused, Err(DiscoverFault::NoThesis));
    Ok(())
}

/// Numbers, and the problems that they generate: with two, three and four variables.
const GENERATED: [(u32, &str); 4] = [
    (
        0,
        "field 101\nparameters p1 q1 p2 q2\nvariables x1 x2\norder lex\npoly 71*p1*x1+57*q1*x2\npoly 70*p2*x2+71*q2\nend\n",
    ),
    (
        1,
        "field 101\nparameters p1 q1 p2 q2 p3 q3\nvariables x1 x2 x3\norder lex\npoly 97*p1*x1+q1*x2\npoly 96*p2*x2+13*q2*x3\npoly 75*p3*x3+51*q3\nend\n",
    ),
    (
        2,
        "field 101\nparameters p1 q1 p2 q2 p3 q3 p4 q4\nvariables x1 x2 x3 x4\norder lex\npoly 22*p1*x1+45*q1*x2^2\npoly 22*p2*x2+90*q2*x3\npoly 88*p3*x3+56*q3*x4\npoly 59*p4*x4+49*q4\nend\n",
    ),
    (
        999999,
        "field 101\nparameters p1 q1 p2 q2\nvariables x1 x2\norder lex\npoly 50*p1*x1+58*q1*x2^2\npoly 24*p2*x2+23*q2\nend\n",
    ),
];

#[test]
fn generated(rt: HostRuntime) -> Result<(), Fail> {
    for (k, want) in GENERATED {
        let problem = cgs_gen::problem_of(rt.alloc(), k)?;
        assert!(rt; is_text(&text_of(rt.alloc(), &problem)?, want), "at {k}");
    }
    Ok(())
}
