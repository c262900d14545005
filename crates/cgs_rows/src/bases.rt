//! S-polynomials, the queue of pairs, and basis runs with all the units that they take and with one unit fewer.

ghost use Rattle.std.specs.Prelude.{IfOk};
ghost use Rattle.cgs_poly.specs.Polynomial.{ArePolys};
ghost use Rattle.cgs_problem.specs.Problems.{IsProblem};

use crate::given::{PLANE, is_text, poly_at, problem_of};
use cgs_basis::{complete, reduced_basis};
use cgs_divide::{Stop, autoreduce};
use cgs_entry::Cause;
use cgs_exps::Powers;
use cgs_order::{BlockOrder, Kind};
use cgs_pairs::{Pair, Queue, Taken, Waiting, s_polynomial};
use cgs_poly::{Poly, PolyList};
use cgs_print::{basis_text, refusal_text};
use cgs_problem::{Problem, Text};
use std::alloc::{AllocError, Global};
use std::test::Fail;

#[derive(Clone, Copy, Debug)]
enum Run {
    /// The S-polynomial of the first two polynomials.
    Difference,
    Completion,
    /// The autoreduction of the completion.
    Autoreduction,
    Basis,
}

/// What a run makes of polynomials, and the units before and after it.
struct Row<'a> {
    run: Run,
    polys: &'a str,
    units: u64,
    found: &'a str,
    left: u64,
}

const CIRCLE_AND_LINE: &str = "poly x^2-1\npoly x*y-1\n";

const HIGH_POWERS: &str = "poly x^20000\npoly y^20000\n";

const HIGH_PRODUCTS: &str = "poly x^20000*y\npoly x*y^20000\n";

const ROWS: &[Row<'static>] = &[
    Row {
        run: Run::Difference,
        polys: "poly x^2+6\npoly x*y+6\n",
        units: 0,
        found: "basis x+6*y\nmembers 1\n",
        left: 0,
    },
    // the lcm of the leads has the degree 40000
    Row {
        run: Run::Difference,
        polys: HIGH_POWERS,
        units: 0,
        found: "refused degree\n",
        left: 0,
    },
    // six pairs: two are passed, and the remainders of the others are x+6*y, y^2+6, 0 and 0
    Row {
        run: Run::Completion,
        polys: CIRCLE_AND_LINE,
        units: 12,
        found: "basis x^2+6\nbasis x*y+6\nbasis x+6*y\nbasis y^2+6\nmembers 4\n",
        left: 0,
    },
    // the last division of two units comes too late
    Row {
        run: Run::Completion,
        polys: CIRCLE_AND_LINE,
        units: 11,
        found: "refused budget\n",
        left: 1,
    },
    // the pair is passed
    Row {
        run: Run::Completion,
        polys: HIGH_POWERS,
        units: 0,
        found: "basis x^20000\nbasis y^20000\nmembers 2\n",
        left: 0,
    },
    // the pair has paid
    Row {
        run: Run::Completion,
        polys: HIGH_PRODUCTS,
        units: 5,
        found: "refused degree\n",
        left: 4,
    },
    Row {
        run: Run::Autoreduction,
        polys: CIRCLE_AND_LINE,
        units: 4,
        found: "basis y^2+6\nbasis x+6*y\nmembers 2\n",
        left: 0,
    },
    Row {
        run: Run::Autoreduction,
        polys: CIRCLE_AND_LINE,
        units: 3,
        found: "refused budget\n",
        left: 0,
    },
    Row {
        run: Run::Basis,
        polys: CIRCLE_AND_LINE,
        units: 16,
        found: "basis y^2+6\nbasis x+6*y\nmembers 2\n",
        left: 0,
    },
    Row {
        run: Run::Basis,
        polys: CIRCLE_AND_LINE,
        units: 15,
        found: "refused budget\n",
        left: 0,
    },
    Row {
        run: Run::Basis,
        polys: HIGH_POWERS,
        units: 2,
        found: "basis y^20000\nbasis x^20000\nmembers 2\n",
        left: 0,
    },
    Row {
        run: Run::Basis,
        polys: HIGH_POWERS,
        units: 1,
        found: "refused budget\n",
        left: 0,
    },
    Row {
        run: Run::Basis,
        polys: HIGH_PRODUCTS,
        units: 1,
        found: "refused degree\n",
        left: 0,
    },
    Row {
        run: Run::Basis,
        polys: HIGH_PRODUCTS,
        units: 0,
        found: "refused budget\n",
        left: 0,
    },
];

// The S-polynomial of the first two polynomials of a problem, alone in a list.
fn difference(alloc: Global, problem: &Problem) -> Result<PolyList, Stop>
    requires { IsProblem problem.now }
    ensures { IfOk result (λ list. ArePolys problem.now.ring list) }
{
    let (Some(f), Some(g)) = (poly_at(problem, 0), poly_at(problem, 1)) else {
        return Err(Stop::OutOfMemory);
    };
    if f.len() == 0 || g.len() == 0 {
        return Err(Stop::OutOfMemory);
    }
    let first = Poly::monic(alloc, &problem.ring, f)?;
    let second = Poly::monic(alloc, &problem.ring, g)?;
    let s = s_polynomial(alloc, &problem.ring, &first, &second)?;
    let mut list = PolyList::new(alloc);
    list.push(s)?;
    Ok(list)
}

fn completion(alloc: Global, problem: &Problem, fuel: &mut u64) -> Result<PolyList, Stop>
    requires { IsProblem problem.now }
    ensures { IfOk result (λ list. ArePolys problem.now.ring list) }
{
    let list = complete(alloc, &problem.ring, &problem.polys, fuel)?;
    Ok(list)
}

fn autoreduction(alloc: Global, problem: &Problem, fuel: &mut u64) -> Result<PolyList, Stop>
    requires { IsProblem problem.now }
    ensures { IfOk result (λ list. ArePolys problem.now.ring list) }
{
    let mut ample = 1000;
    let members = complete(alloc, &problem.ring, &problem.polys, &mut ample)?;
    let list = autoreduce(alloc, &problem.ring, &members, fuel)?;
    Ok(list)
}

fn basis(alloc: Global, problem: &Problem, fuel: &mut u64) -> Result<PolyList, Stop>
    requires { IsProblem problem.now }
    ensures { IfOk result (λ list. ArePolys problem.now.ring list) }
{
    let list = reduced_basis(alloc, &problem.ring, &problem.polys, fuel)?;
    Ok(list)
}

// What a run makes of the polynomials of a problem.
fn run_on(alloc: Global, run: Run, problem: &Problem, fuel: &mut u64) -> Result<PolyList, Stop>
    requires { IsProblem problem.now }
    ensures { IfOk result (λ list. ArePolys problem.now.ring list) }
{
    match run {
        Run::Difference => difference(alloc, problem),
        Run::Completion => completion(alloc, problem, fuel),
        Run::Autoreduction => autoreduction(alloc, problem, fuel),
        Run::Basis => basis(alloc, problem, fuel),
    }
}

// The text of what the run of a row finds, and the units that are left.
fn told(alloc: Global, row: &Row<'_>) -> Result<(Text, u64), Fail> {
    let problem = problem_of(alloc, PLANE, row.polys)?;
    let mut units = row.units;
    let mut out = Text::new(alloc);
    match run_on(alloc, row.run, &problem, &mut units) {
        Ok(list) => basis_text(&problem, &list, &mut out)?,
        Err(Stop::Budget) => refusal_text(Cause::Budget, &mut out)?,
        Err(Stop::Degree) => refusal_text(Cause::Degree, &mut out)?,
        Err(Stop::OutOfMemory) => return Err("out of memory".into()),
    }
    Ok((out, units))
}

// Pairs with these lcms and larger places, and the smaller places from the number of pairs less 1 down to 0.
fn queue_of(alloc: Global, rows: &[([u16; 2], usize)]) -> Result<Queue, AllocError> {
    let order = BlockOrder {
        kind: Kind::Lex,
        head: 2,
        tail: 0,
    };
    let mut queue = Queue::new(alloc, order);
    for (i, (exponents, larger)) in rows.iter().enumerate() {
        let mut lcm = Powers::new(alloc);
        lcm.extend_from_slice(exponents)?;
        queue.push(Pair {
            lcm,
            larger: *larger,
            smaller: rows.len() - 1 - i,
        })?;
    }
    Ok(queue)
}

#[test]
fn pairs(rt: HostRuntime) -> Result<(), Fail> {
    // x^2, three times x*y^2, and x^2*y^2
    let rows = [
        ([2, 0], 7),
        ([1, 2], 5),
        ([1, 2], 5),
        ([1, 2], 6),
        ([2, 2], 5),
    ];
    let mut queue = queue_of(rt.alloc(), &rows)?;
    for smaller in [2, 3, 1, 4, 0] {
        let pair = queue.take_least().ok_or("no pair")?;
        assert_eq!(rt; pair.smaller, smaller);
    }
    assert!(rt; queue.take_least().is_none());
    Ok(())
}

// The pairs of members with these leads, where lex decides.
fn waiting_of(alloc: Global, leads: &[[u16; 2]]) -> Result<Waiting, AllocError> {
    let order = BlockOrder {
        kind: Kind::Lex,
        head: 2,
        tail: 0,
    };
    let mut waiting = Waiting::new(alloc, order);
    for lead in leads {
        waiting.append(lead)?;
    }
    Ok(waiting)
}

#[test]
fn waiting_pairs(rt: HostRuntime) -> Result<(), Fail> {
    // x^2, x*y, x*y^2 and y^2: three pairs have the lcm x*y^2, one x^2*y, and two x^2*y^2. That of x^2 and x*y^2 is passed by
    // x*y, and so is that of x*y^2 and y^2; x^2 and y^2 have nothing in common.
    let mut waiting = waiting_of(rt.alloc(), &[[2, 0], [1, 1], [1, 2], [0, 2]])?;
    for places in [(2, 1), (3, 1), (1, 0)] {
        let pair = waiting.take_least()?.ok_or("no pair")?;
        assert_eq!(rt; (pair.larger, pair.smaller), places);
    }
    assert!(rt; waiting.take_least()?.is_none());
    Ok(())
}

#[test]
fn noted_pairs(rt: HostRuntime) -> Result<(), Fail> {
    let mut taken = Taken::new(rt.alloc());
    assert!(rt; !taken.has(1, 0));
    for (larger, smaller) in [(5, 2), (1, 0), (5, 2)] {
        taken.note(larger, smaller)?;
        assert!(rt; taken.has(larger, smaller));
    }
    for (larger, smaller) in [(2, 5), (5, 1), (5, 3), (4, 0), (usize::MAX, 0)] {
        assert!(rt; !taken.has(larger, smaller));
    }
    Ok(())
}

#[test]
fn basis_runs(rt: HostRuntime) -> Result<(), Fail> {
    for row in ROWS {
        let (run, polys, units) = (row.run, row.polys, row.units);
        let (text, left) = told(rt.alloc(), row)?;
        assert!(rt;
            is_text(&text, row.found),
            "{run:?} with {units} units of {polys}"
        );
        assert_eq!(rt; left, row.left, "{run:?} with {units} units of {polys}");
    }
    Ok(())
}
