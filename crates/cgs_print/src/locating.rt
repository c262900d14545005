//! The printed lines of where points lie in a list of entries.

ghost use Rattle.std.specs.Prelude.{◌<◌, length, IfSome};
ghost use Rattle.std.specs.List.{AllByRecursion};
ghost use Rattle.cgs_poly.specs.Polynomial.{ArePolys};
ghost use Rattle.cgs_poly.specs.Parameters.{variables_ring};
ghost use Rattle.cgs_point.specs.Points.{IsPoint};
ghost use Rattle.cgs_entry.specs.Entries.{IsEntry};
ghost use Rattle.cgs_problem.specs.Problems.{IsProblem};
ghost use Rattle.cgs_canonical.specs.Printing.{Prints};
ghost use Rattle.cgs_print.specs.Locating.{special_lines, place_text, point_text, points_line, located_text};

use crate::list::head_line;
use cgs_canonical::{point_line, polynomial_lines, push_all};
use cgs_entry::EntryList;
use cgs_locate::{Located, locate};
use cgs_point::Point;
use cgs_poly::PolyList;
use cgs_problem::{Problem, Text};
use itoa::Buffer;
use std::alloc::{AllocError, Global};

/// Appends for each point of the problem in which of the entries it lies, with the basis there, and the number of points. For
/// want of memory a front of the text is appended.
pub fn located_text(
    alloc: Global,
    problem: &Problem,
    entries: &EntryList,
    out: &mut Text,
) -> Result<(), AllocError>
    requires problem { IsProblem problem.now }
    requires entries { AllByRecursion (IsEntry problem.now.ring) entries.now }
    ensures { Prints result out.old out.new (located_text problem.now entries.now) }
{
    for point in problem.points.as_slice() {
        point_text(alloc, problem, entries, point, out)?;
    }
    points_line(problem.points.len(), out)
}

/// The lines of a point and of where it lies.
fn point_text(
    alloc: Global,
    problem: &Problem,
    entries: &EntryList,
    point: &Point,
    out: &mut Text,
) -> Result<(), AllocError>
    requires problem { IsProblem problem.now }
    requires entries { AllByRecursion (IsEntry problem.now.ring) entries.now }
    requires point { IsPoint problem.now.ring point.now }
    ensures { Prints result out.old out.new (point_text problem.now entries.now point.now) }
{
    let found = locate(alloc, &problem.ring, entries, point)?;
    point_line(point, out)?;
    place_text(problem, entries, &found, out)
}

/// The first line of the entry that was found and the lines of the basis there, or that there is no such entry.
fn place_text(
    problem: &Problem,
    entries: &EntryList,
    found: &Option<Located>,
    out: &mut Text,
) -> Result<(), AllocError>
    requires problem { IsProblem problem.now }
    requires place { IfSome found.now (λ place. place.index < length entries.now) }
    requires basis { IfSome found.now (λ place. ArePolys (variables_ring problem.now.ring) place.basis) }
    ensures { Prints result out.old out.new (place_text problem.now entries.now found.now) }
{
    match found {
        None => out.extend_from_slice(b"nowhere\n"),
        Some(place) => {
            head_line(entries.get(place.index), out)?;
            special_lines(problem, &place.basis, out)
        }
    }
}

/// The lines of a basis in the variables alone.
fn special_lines(problem: &Problem, basis: &PolyList, out: &mut Text) -> Result<(), AllocError>
    requires problem { IsProblem problem.now }
    requires basis { ArePolys (variables_ring problem.now.ring) basis.now }
    ensures { Prints result out.old out.new (special_lines problem.now basis.now) }
{
    let (variables, _) = problem
        .names
        .as_slice()
        .split_at(problem.ring.variables as usize);
    let ring = problem.ring.variables_ring();
    polynomial_lines(b"basis", &ring, variables, basis.as_slice(), out)
}

/// The line of the number of points.
fn points_line(count: usize, out: &mut Text) -> Result<(), AllocError>
    ensures { Prints result out.old out.new (points_line count) }
{
    let mut buffer = Buffer::new();
    push_all(out, &[b"points ", buffer.format(count).as_bytes(), b"\n"])
}
