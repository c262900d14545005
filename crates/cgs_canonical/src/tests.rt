//! A problem and polynomials printed, with ample memory.

ghost use Rattle.std.specs.Prelude.{◌≡◌, IfSome, IfOk};
ghost use Rattle.cgs_poly.specs.Polynomial.{IsRing, IsPoly, places};

use crate::{poly_text, problem_text};
use cgs_field::Modulus;
use cgs_order::Kind;
use cgs_point::{Point, PointList};
use cgs_poly::{Poly, PolyFault, PolyList, Ring};
use cgs_problem::{NameList, Problem, Text, valid};
use std::alloc::{AllocError, Global};
use std::test::Fail;

type Terms<'a> = &'a [(u16, [u16; 3])];

// Modulo 7 in the variables x and y and the parameter a.
fn ring() -> Option<Ring>
    ensures valid { IfSome result (λ ring. IsRing ring) }
    ensures three { IfSome result (λ ring. places ring ≡ 3) }
    ensures one { IfSome result (λ ring. ring.parameters ≡ 1) }
{
    let modulus = Modulus::of(7)?;
    Some(Ring {
        modulus,
        variables: 2,
        parameters: 1,
        kind: Kind::GrevLex,
    })
}

fn names(alloc: Global) -> Result<NameList, AllocError> {
    let mut list = NameList::new(alloc);
    for word in ["x", "y", "a"] {
        let mut name = Text::new(alloc);
        name.extend_from_slice(word.as_bytes())?;
        list.push(name)?;
    }
    Ok(list)
}

fn poly(alloc: Global, ring: &Ring, terms: Terms<'_>) -> Result<Poly, PolyFault>
    requires valid { IsRing ring.now }
    requires three { places ring.now ≡ 3 }
    ensures { IfOk result (λ f. IsPoly ring.now f) }
{
    let mut f = Poly::zero(alloc);
    for (c, m) in terms {
        let term = Poly::of_term(alloc, ring, ring.modulus.of_u64(*c as u64), m)?;
        f = Poly::add(alloc, ring, &f, &term)?;
    }
    Ok(f)
}

fn polys(alloc: Global, ring: &Ring, terms: Terms<'_>) -> Result<PolyList, Fail>
    requires valid { IsRing ring.now }
    requires three { places ring.now ≡ 3 }
{
    let mut list = PolyList::new(alloc);
    list.push(poly(alloc, ring, terms)?)?;
    Ok(list)
}

fn problem(alloc: Global) -> Result<Problem, Fail> {
    let ring = ring().ok_or("no ring")?;
    let mut points = PointList::new(alloc);
    points.push(Point::new(alloc, &ring, &[3])?)?;
    Ok(Problem {
        ring,
        names: names(alloc)?,
        zero: polys(alloc, &ring, &[])?,
        nonzero: polys(alloc, &ring, &[(2, [0, 0, 1]), (5, [0, 0, 0])])?,
        polys: polys(alloc, &ring, &[(6, [2, 0, 0]), (6, [1, 1, 0])])?,
        thesis: Some(poly(alloc, &ring, &[(1, [1, 0, 1])])?),
        points,
    })
}

#[test]
fn a_problem(rt: HostRuntime) -> Result<(), Fail> {
    let printed =
        "field 7\nparameters a\nvariables x y\norder grevlex\nzero 0\nnonzero 2*a+5\npoly 6*x^2+6*x*y\nthesis a*x\npoint 3\nend\n";
    let problem = problem(rt.alloc())?;
    assert!(rt; valid(&problem));
    let mut out = Text::new(rt.alloc());
    problem_text(&problem, &mut out)?;
    assert_eq!(rt; out.as_slice(), printed.as_bytes());
    Ok(())
}

#[test]
fn polynomials(rt: HostRuntime) -> Result<(), Fail> {
    let ring = ring().ok_or("no ring")?;
    let names = names(rt.alloc())?;
    assert!(rt; names.len() >= 3);
    let rows: [(Terms<'_>, &str); 4] = [
        (&[], "0"),
        (&[(1, [0, 0, 0])], "1"),
        (&[(6, [0, 0, 0]), (1, [0, 1, 2])], "a^2*y+6"),
        (&[(3, [1, 0, 0]), (1, [0, 0, 0])], "3*x+1"),
    ];
    for (terms, printed) in rows {
        let f = poly(rt.alloc(), &ring, terms)?;
        let mut out = Text::new(rt.alloc());
        poly_text(&ring, &names, &f, &mut out)?;
        assert_eq!(rt; out.as_slice(), printed.as_bytes());
    }
    Ok(())
}
