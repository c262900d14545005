//! Copies of the names and points of a problem.

ghost use Rattle.std.specs.Prelude.{◌≡◌, ◌++◌, IfOk};
ghost use Rattle.std.specs.List.{AllByRecursion};
ghost use Rattle.cgs_poly.specs.Polynomial.{IsRing};
ghost use Rattle.cgs_point.specs.Points.{IsPoint};

use cgs_point::{Point, PointFault, PointList};
use cgs_poly::Ring;
use cgs_problem::{NameList, Text};
use std::alloc::{AllocError, Global};

/// A list of names, and after them copies of more.
pub(crate) fn with_names(
    alloc: Global,
    mut list: NameList,
    names: &[Text],
) -> Result<NameList, AllocError>
    ensures { IfOk result (λ all. all ≡ list ++ names.now) }
{
    for name in names {
        list.push(Text::from_slice(alloc, name.as_slice())?)?;
    }
    Ok(list)
}

/// Copies of points.
pub(crate) fn copy_points(
    alloc: Global,
    ring: &Ring,
    points: &[Point],
) -> Result<PointList, AllocError>
    requires ring { IsRing ring.now }
    requires points { AllByRecursion (IsPoint ring.now) points.now }
    ensures { IfOk result (λ copies. copies ≡ points.now) }
{
    let mut copies = PointList::new(alloc);
    for point in points {
        copies.push(copy_point(alloc, ring, point)?)?;
    }
    Ok(copies)
}

fn copy_point(alloc: Global, ring: &Ring, point: &Point) -> Result<Point, AllocError>
    requires ring { IsRing ring.now }
    requires point { IsPoint ring.now point.now }
    ensures { IfOk result (λ copy. copy ≡ point.now) }
{
    let mut values = Vec::new(alloc);
    for x in point.as_slice() {
        values.push(u64::from(x.number()))?;
    }
    match Point::new(alloc, ring, &values) {
        Ok(copy) => Ok(copy),
        Err(PointFault::OutOfMemory) => Err(AllocError),
        Err(PointFault::Count) => unreachable!(),
    }
}
