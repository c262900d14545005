//! The branch of a problem, its node, its tree, and the entries at each point.

ghost use Rattle.std.specs.List.{AllByRecursion};
ghost use Rattle.cgs_poly.specs.Polynomial.{IsRing};
ghost use Rattle.cgs_point.specs.Points.{IsPoint};
ghost use Rattle.cgs_entry.specs.Entries.{IsEntry};
ghost use Rattle.cgs_problem.specs.Problems.{IsProblem};

use crate::given::{LINE, PLANE, QUADRATIC, TWO_PARAMETERS, is_text, problem_of};
use cgs_board::{Job, Outcome, entries_of};
use cgs_entry::{Cause, Entry, EntryKind};
use cgs_path::Path;
use cgs_point::Point;
use cgs_poly::Ring;
use cgs_print::list_text;
use cgs_problem::{Problem, Text};
use cgs_split::{Branch, Limits, root_branch};
use cgs_system::solve_alone;
use std::alloc::{AllocError, Global};
use std::test::Fail;

const AMPLE: Limits = Limits {
    budget: 10000000,
    depth: 64,
};

const LEVEL_ONE: Limits = Limits {
    budget: 10000000,
    depth: 1,
};

/// A problem, units, and the node of its branch.
struct NodeRow<'a> {
    ring: &'a str,
    lines: &'a str,
    budget: u64,
    found: Found,
}

/// What a node gives: children, or an entry.
#[derive(Clone, Copy, Debug, PartialEq, Eq)]
enum Found {
    Children(usize),
    Solved,
    Refused(Cause),
}

const NODES: &[NodeRow<'static>] = &[
    NodeRow {
        ring: LINE,
        lines: "",
        budget: 2,
        found: Found::Children(1),
    },
    NodeRow {
        ring: LINE,
        lines: "",
        budget: 1,
        found: Found::Refused(Cause::Budget),
    },
    NodeRow {
        ring: LINE,
        lines: "poly a*x-1\n",
        budget: 4,
        found: Found::Children(2),
    },
    NodeRow {
        ring: LINE,
        lines: "poly a*x-1\n",
        budget: 3,
        found: Found::Refused(Cause::Budget),
    },
    NodeRow {
        ring: LINE,
        lines: "zero 1\npoly x\n",
        budget: 100,
        found: Found::Children(0),
    },
    NodeRow {
        ring: LINE,
        lines: "poly a\npoly x\n",
        budget: 4,
        found: Found::Children(2),
    },
    NodeRow {
        ring: LINE,
        lines: "poly a\npoly x\n",
        budget: 3,
        found: Found::Refused(Cause::Budget),
    },
    NodeRow {
        ring: LINE,
        lines: "poly 3\n",
        budget: 100,
        found: Found::Solved,
    },
    NodeRow {
        ring: PLANE,
        lines: "poly x^20000\npoly y^20000\n",
        budget: 4,
        found: Found::Children(1),
    },
    NodeRow {
        ring: PLANE,
        lines: "poly x^20000*y\npoly x*y^20000\n",
        budget: 100,
        found: Found::Refused(Cause::Degree),
    },
    NodeRow {
        ring: QUADRATIC,
        lines: "poly a*x^2+b*x+c\n",
        budget: 100,
        found: Found::Children(2),
    },
];

fn given_by(outcome: &Outcome<Entry, Branch>) -> Found {
    match &outcome.entry {
        Some(entry) => found_in(entry),
        None => Found::Children(outcome.children.len()),
    }
}

fn found_in(entry: &Entry) -> Found {
    match entry.kind {
        EntryKind::Solved { .. } => Found::Solved,
        EntryKind::Refused(cause) => Found::Refused(cause),
    }
}

// Whether the branch is the same as its copy, and as none of the children.
fn differs(alloc: Global, root: &Branch, children: &[Branch]) -> Result<bool, AllocError> {
    let copy = root.copy(alloc)?;
    Ok(copy.same(root) && children.iter().all(|child| !child.same(root)))
}

fn node_found(alloc: Global, row: &NodeRow<'_>) -> Result<(Found, bool), Fail> {
    let problem = problem_of(alloc, row.ring, row.lines)?;
    let limits = Limits {
        budget: row.budget,
        depth: 64,
    };
    let root = root_branch(alloc, &problem, &limits)?;
    found_at(alloc, &root)
}

// What the node of a branch gives, and whether the branch differs from its children.
fn found_at(alloc: Global, root: &Branch) -> Result<(Found, bool), Fail> {
    let outcome = root.node(alloc, &Path::root(alloc))?;
    let differs = differs(alloc, root, &outcome.children)?;
    Ok((given_by(&outcome), differs))
}

#[test]
fn nodes(rt: HostRuntime) -> Result<(), Fail> {
    for row in NODES {
        let lines = row.lines;
        let found = node_found(rt.alloc(), row)?;
        assert_eq!(rt; found, (row.found, true), "{lines}");
    }
    Ok(())
}

// Whether an entry of a tree has this path, beside it and within.
fn is_at(found: Option<&(Path, Entry)>, numbers: &[usize]) -> bool {
    match found {
        Some((path, entry)) => path.as_slice() == numbers && entry.path.as_slice() == numbers,
        None => false,
    }
}

#[test]
fn paths(rt: HostRuntime) -> Result<(), Fail> {
    let problem = problem_of(rt.alloc(), QUADRATIC, "poly a*x^2+b*x+c\n")?;
    let root = root_branch(rt.alloc(), &problem, &AMPLE)?;
    let entries = entries_of(rt.alloc(), &root)?;
    assert_eq!(rt; entries.len(), 4);
    assert!(rt; is_at(entries.get(0), &[0]));
    assert!(rt; is_at(entries.get(1), &[1, 1]));
    assert!(rt; is_at(entries.get(2), &[1, 2, 0]));
    assert!(rt; is_at(entries.get(3), &[1, 2, 3]));
    Ok(())
}

/// A problem, limits, and the list of its entries.
struct ListRow<'a> {
    ring: &'a str,
    lines: &'a str,
    limits: Limits,
    list: &'a str,
}

const LISTS: &[ListRow<'static>] = &[
    ListRow {
        ring: LINE,
        lines: "poly a*x-1\n",
        limits: Limits {
            budget: 7,
            depth: 64,
        },
        list: "segment 0\nnonzero a\nbasis a*x+6\nsolvable yes\nfinite yes\nstandard 1\nsegment 1\nzero a\nbasis 1\nsolvable no\nfinite yes\nstandard 0\nsegments 2 refused 0\n",
    },
    ListRow {
        ring: LINE,
        lines: "poly a*x-1\n",
        limits: Limits {
            budget: 6,
            depth: 64,
        },
        list: "segment 0\nnonzero a\nbasis a*x+6\nsolvable yes\nfinite yes\nstandard 1\nrefused 1 budget\nzero a\nsegments 1 refused 1\n",
    },
    ListRow {
        ring: LINE,
        lines: "poly a\npoly x\n",
        limits: Limits {
            budget: 4,
            depth: 64,
        },
        list: "segment 0\nnonzero a\nbasis 1\nsolvable no\nfinite yes\nstandard 0\nsegment 1\nzero a\nbasis x\nsolvable yes\nfinite yes\nstandard 1\nsegments 2 refused 0\n",
    },
    ListRow {
        ring: LINE,
        lines: "poly a^2-1\n",
        limits: Limits {
            budget: 6,
            depth: 64,
        },
        list: "segment 0\nnonzero a^2+6\nuntested\nbasis 1\nsolvable no\nfinite yes\nstandard 0\nsegment 1\nzero a^2+6\nsolvable yes\nfinite no\nstandard none\nsegments 2 refused 0\n",
    },
    ListRow {
        ring: LINE,
        lines: "poly a^2-1\n",
        limits: Limits {
            budget: 7,
            depth: 64,
        },
        list: "segment 0\nnonzero a^2+6\nbasis 1\nsolvable no\nfinite yes\nstandard 0\nsegment 1\nzero a^2+6\nsolvable yes\nfinite no\nstandard none\nsegments 2 refused 0\n",
    },
    ListRow {
        ring: TWO_PARAMETERS,
        lines: "poly a*x\npoly b*x\n",
        limits: AMPLE,
        list: "segment 0\nnonzero b\nbasis b*x\nsolvable yes\nfinite yes\nstandard 1\nsegment 1.1\nzero b\nnonzero a\nbasis a*x\nsolvable yes\nfinite yes\nstandard 1\nsegment 1.2.2\nzero b\nzero a\nsolvable yes\nfinite no\nstandard none\nsegments 3 refused 0\n",
    },
    ListRow {
        ring: QUADRATIC,
        lines: "poly a*x^2+b*x+c\n",
        limits: AMPLE,
        list: "segment 0\nnonzero a\nbasis a*x^2+b*x+c\nsolvable yes\nfinite yes\nstandard 2\nsegment 1.1\nzero a\nnonzero b\nbasis b*x+c\nsolvable yes\nfinite yes\nstandard 1\nsegment 1.2.0\nzero a\nzero b\nnonzero c\nbasis 1\nsolvable no\nfinite yes\nstandard 0\nsegment 1.2.3\nzero c\nzero b\nzero a\nsolvable yes\nfinite no\nstandard none\nsegments 4 refused 0\n",
    },
    ListRow {
        ring: QUADRATIC,
        lines: "poly a*x^2+b*x+c\n",
        limits: LEVEL_ONE,
        list: "segment 0\nnonzero a\nbasis a*x^2+b*x+c\nsolvable yes\nfinite yes\nstandard 2\nsegment 1.1\nzero a\nnonzero b\nbasis b*x+c\nsolvable yes\nfinite yes\nstandard 1\nrefused 1.2 depth\nzero a\nzero b\nsegments 2 refused 1\n",
    },
];

fn list_found(alloc: Global, row: &ListRow<'_>) -> Result<Text, Fail> {
    let problem = problem_of(alloc, row.ring, row.lines)?;
    let solution = solve_alone(alloc, &problem, &row.limits)?;
    let mut out = Text::new(alloc);
    list_text(&problem, &solution.entries, &mut out)?;
    Ok(out)
}

#[test]
fn lists(rt: HostRuntime) -> Result<(), Fail> {
    for row in LISTS {
        let (lines, limits) = (row.lines, row.limits);
        let list = list_found(rt.alloc(), row)?;
        assert!(rt; is_text(&list, row.list), "{limits:?} of {lines}");
    }
    Ok(())
}

// The number of entries whose region has the point.
fn entries_at(ring: &Ring, entries: &[Entry], point: &Point) -> usize
    requires ring { IsRing ring.now }
    requires entries { AllByRecursion (IsEntry ring.now) entries.now }
    requires point { IsPoint ring.now point.now }
{
    let mut count: usize = 0;
    for entry in entries {
        if entry.holds_at(ring, point) {
            count = count.saturating_add(1);
        }
    }
    count
}

// How many of the points (0, 0) to (6, 6), or of 0 to 6 with one parameter, lie in exactly one entry of a problem.
fn covered(alloc: Global, problem: &Problem) -> Result<usize, Fail>
    requires { IsProblem problem.now }
{
    let solution = solve_alone(alloc, problem, &AMPLE)?;
    let mut covered: usize = 0;
    for n in 0..49 {
        let values = [n % 7, n / 7];
        let used = (problem.ring.parameters as usize).min(2);
        let point = Point::new(alloc, &problem.ring, &values[..used])?;
        if entries_at(&problem.ring, solution.entries.as_slice(), &point) == 1 {
            covered = covered.saturating_add(1);
        }
    }
    Ok(covered)
}

#[test]
fn each_point_lies_in_one_entry(rt: HostRuntime) -> Result<(), Fail> {
    for (ring, lines) in [
        (LINE, "poly a*x-1\n"),
        (TWO_PARAMETERS, "poly a*x\npoly b*x\n"),
    ] {
        let problem = problem_of(rt.alloc(), ring, lines)?;
        assert_eq!(rt; covered(rt.alloc(), &problem)?, 49, "{lines}");
    }
    Ok(())
}
