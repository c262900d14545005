//! Problems that were put together by hand.

ghost use Rattle.std.specs.Prelude.{◌≡◌, ◌≤◌, IfSome, IfOk};
ghost use Rattle.cgs_poly.specs.Polynomial.{IsRing, IsPoly, places};

use crate::{NameList, Problem, Text, valid};
use cgs_field::Modulus;
use cgs_order::Kind;
use cgs_point::{Point, PointList};
use cgs_poly::{Poly, PolyFault, PolyList, Ring};
use std::alloc::{AllocError, Global};
use std::test::Fail;

type Terms<'a> = &'a [(u16, [u16; 2])];

#[derive(Clone, Copy)]
struct Row<'a> {
    names: &'a [&'a str],
    condition: Terms<'a>,
    thesis: [u16; 2],
    point: &'a [u64],
}

// Modulo 7 in one variable, lexicographic.
fn ring(parameters: u32) -> Option<Ring>
    requires { parameters ≤ 8 }
    ensures valid { IfSome result (λ ring. IsRing ring) }
    ensures parameters { IfSome result (λ ring. ring.parameters ≡ parameters) }
    ensures one { IfSome result (λ ring. ring.variables ≡ 1) }
{
    let modulus = Modulus::of(7)?;
    Some(Ring {
        modulus,
        variables: 1,
        parameters,
        kind: Kind::Lex,
    })
}

fn poly(alloc: Global, ring: &Ring, terms: Terms<'_>) -> Result<Poly, PolyFault>
    requires valid { IsRing ring.now }
    requires two { places ring.now ≡ 2 }
    ensures { IfOk result (λ f. IsPoly ring.now f) }
{
    let mut f = Poly::zero(alloc);
    for (c, m) in terms {
        let term = Poly::of_term(alloc, ring, ring.modulus.of_u64(*c as u64), m)?;
        f = Poly::add(alloc, ring, &f, &term)?;
    }
    Ok(f)
}

fn polys(alloc: Global, ring: &Ring, terms: Terms<'_>) -> Result<PolyList, Fail>
    requires valid { IsRing ring.now }
    requires two { places ring.now ≡ 2 }
{
    let mut list = PolyList::new(alloc);
    list.push(poly(alloc, ring, terms)?)?;
    Ok(list)
}

fn names(alloc: Global, words: &[&str]) -> Result<NameList, AllocError> {
    let mut list = NameList::new(alloc);
    for word in words {
        let mut name = Text::new(alloc);
        name.extend_from_slice(word.as_bytes())?;
        list.push(name)?;
    }
    Ok(list)
}

// A point of a ring with as many parameters.
fn points(alloc: Global, numbers: &[u64]) -> Result<PointList, Fail> {
    if numbers.len() > 8 {
        return Err("too many numbers".into());
    }
    let ring = ring(numbers.len() as u32).ok_or("no ring")?;
    let mut list = PointList::new(alloc);
    list.push(Point::new(alloc, &ring, numbers)?)?;
    Ok(list)
}

fn problem(alloc: Global, row: &Row<'_>) -> Result<Problem, Fail> {
    let ring = ring(1).ok_or("no ring")?;
    Ok(Problem {
        ring,
        names: names(alloc, row.names)?,
        zero: polys(alloc, &ring, row.condition)?,
        nonzero: polys(alloc, &ring, &[(1, [0, 1])])?,
        polys: polys(alloc, &ring, &[(1, [1, 1]), (6, [0, 0])])?,
        thesis: Some(poly(alloc, &ring, &[(1, row.thesis)])?),
        points: points(alloc, row.point)?,
    })
}

#[test]
fn validity(rt: HostRuntime) -> Result<(), Fail> {
    let good = Row {
        names: &["x", "a"],
        condition: &[(1, [0, 2]), (6, [0, 0])],
        thesis: [32765, 1],
        point: &[3],
    };
    let rows = [
        ("good", good, true),
        (
            "repeated name",
            Row {
                names: &["x", "x"],
                ..good
            },
            false,
        ),
        (
            "too few names",
            Row {
                names: &["x"],
                ..good
            },
            false,
        ),
        (
            "too many names",
            Row {
                names: &["x", "a", "b"],
                ..good
            },
            false,
        ),
        (
            "variable in a condition",
            Row {
                condition: &[(1, [1, 0])],
                ..good
            },
            false,
        ),
        (
            "degree of the thesis",
            Row {
                thesis: [32766, 1],
                ..good
            },
            false,
        ),
        (
            "point of two numbers",
            Row {
                point: &[3, 4],
                ..good
            },
            false,
        ),
    ];
    for (what, row, want) in rows {
        let problem = problem(rt.alloc(), &row)?;
        assert_eq!(rt; valid(&problem), want, "at {what}");
    }
    Ok(())
}
