//! Worked runs modulo 7 in x and y with the order lex.

ghost use Rattle.std.specs.Prelude.{◌≡◌, [], IfSome, IfOk};
ghost use Rattle.cgs_poly.specs.Polynomial.{IsRing, IsPoly, places, ArePolys};
ghost use Rattle.cgs_algebra.specs.Groebner.{AreMonic};

use crate::{Division, Stop, divide, remainder};
use cgs_field::Modulus;
use cgs_order::Kind;
use cgs_poly::{Poly, PolyFault, PolyList, Ring};
use std::alloc::Global;
use std::test::Fail;

type Terms<'a> = &'a [(u16, [u16; 2])];

// A remainder, and a quotient for each divisor.
type Parts<'a> = (Terms<'a>, &'a [Terms<'a>]);

#[derive(Clone, Copy)]
struct Row<'a> {
    dividend: Terms<'a>,
    divisors: &'a [Terms<'a>],
    units: u64,
    found: Result<Parts<'a>, Stop>,
    left: u64,
}

const XY_LESS_ONE: Terms<'static> = &[(1, [1, 1]), (6, [0, 0])];

const Y2_LESS_ONE: Terms<'static> = &[(1, [0, 2]), (6, [0, 0])];

const ROWS: &[Row<'static>] = &[
    // nothing is left from the start
    Row {
        dividend: &[],
        divisors: &[XY_LESS_ONE],
        units: 0,
        found: Ok((&[], &[&[]])),
        left: 0,
    },
    // the last unit is enough, and one fewer is not
    Row {
        dividend: &[(1, [2, 1])],
        divisors: &[XY_LESS_ONE],
        units: 3,
        found: Ok((&[(1, [1, 0])], &[&[(1, [1, 0])]])),
        left: 0,
    },
    Row {
        dividend: &[(1, [2, 1])],
        divisors: &[XY_LESS_ONE],
        units: 2,
        found: Err(Stop::Budget),
        left: 0,
    },
    // the second divisor alone divides
    Row {
        dividend: &[(1, [2, 1])],
        divisors: &[Y2_LESS_ONE, XY_LESS_ONE],
        units: 5,
        found: Ok((&[(1, [1, 0])], &[&[], &[(1, [1, 0])]])),
        left: 2,
    },
    // Cox, Little, O'Shea, chapter 2, section 3, examples 1, 2 and 4
    Row {
        dividend: &[(1, [1, 2]), (1, [0, 0])],
        divisors: &[&[(1, [1, 1]), (1, [0, 0])], &[(1, [0, 1]), (1, [0, 0])]],
        units: 6,
        found: Ok((&[(2, [0, 0])], &[&[(1, [0, 1])], &[(6, [0, 0])]])),
        left: 1,
    },
    Row {
        dividend: &[(1, [2, 1]), (1, [1, 2]), (1, [0, 2])],
        divisors: &[XY_LESS_ONE, Y2_LESS_ONE],
        units: 9,
        found: Ok((
            &[(1, [1, 0]), (1, [0, 1]), (1, [0, 0])],
            &[&[(1, [1, 0]), (1, [0, 1])], &[(1, [0, 0])]],
        )),
        left: 0,
    },
    Row {
        dividend: &[(1, [2, 1]), (1, [1, 2]), (1, [0, 2])],
        divisors: &[Y2_LESS_ONE, XY_LESS_ONE],
        units: 9,
        found: Ok((
            &[(2, [1, 0]), (1, [0, 0])],
            &[&[(1, [1, 0]), (1, [0, 0])], &[(1, [1, 0])]],
        )),
        left: 1,
    },
    // two terms stand before the first that is divided, and units end between them
    Row {
        dividend: &[(1, [1, 1]), (1, [1, 0]), (1, [0, 2])],
        divisors: &[Y2_LESS_ONE],
        units: 5,
        found: Ok((&[(1, [1, 1]), (1, [1, 0]), (1, [0, 0])], &[&[(1, [0, 0])]])),
        left: 0,
    },
    Row {
        dividend: &[(1, [1, 1]), (1, [1, 0]), (1, [0, 2])],
        divisors: &[Y2_LESS_ONE],
        units: 1,
        found: Err(Stop::Budget),
        left: 0,
    },
    // the multiple has the degree 32768: the step has paid, and with a unit too few it does not come to that
    Row {
        dividend: &[(1, [1, 32766])],
        divisors: &[&[(1, [1, 0]), (1, [0, 2])]],
        units: 5,
        found: Err(Stop::Degree),
        left: 3,
    },
    Row {
        dividend: &[(1, [1, 32766])],
        divisors: &[&[(1, [1, 0]), (1, [0, 2])]],
        units: 1,
        found: Err(Stop::Budget),
        left: 1,
    },
];

fn ring() -> Option<Ring>
    ensures valid { IfSome result (λ ring. IsRing ring) }
    ensures two { IfSome result (λ ring. places ring ≡ 2) }
{
    let modulus = Modulus::of(7)?;
    Some(Ring {
        modulus,
        variables: 2,
        parameters: 0,
        kind: Kind::Lex,
    })
}

fn poly(alloc: Global, ring: &Ring, terms: Terms<'_>) -> Result<Poly, PolyFault>
    requires valid { IsRing ring.now }
    requires two { places ring.now ≡ 2 }
    ensures { IfOk result (λ f. IsPoly ring.now f) }
{
    let mut f = Poly::zero(alloc);
    for (c, m) in terms {
        let term = Poly::of_term(alloc, ring, ring.modulus.of_u64(*c as u64), m)?;
        f = Poly::add(alloc, ring, &f, &term)?;
    }
    Ok(f)
}

// Monic multiples of the polynomials that are not 0.
fn divisors(alloc: Global, ring: &Ring, rows: &[Terms<'_>]) -> Result<PolyList, PolyFault>
    requires valid { IsRing ring.now }
    requires two { places ring.now ≡ 2 }
    ensures monic { IfOk result (λ G. AreMonic ring.now G) }
    ensures polys { IfOk result (λ G. ArePolys ring.now G) }
{
    let mut list = PolyList::new(alloc);
    for terms in rows {
        let f = poly(alloc, ring, terms)?;
        let monic = Poly::monic(alloc, ring, &f)?;
        if f.len() > 0 {
            list.push(monic)?;
        }
    }
    Ok(list)
}

fn has_terms(f: &Poly, terms: Terms<'_>) -> bool {
    if f.len() != terms.len() {
        return false;
    }
    for (i, (c, m)) in terms.iter().enumerate() {
        let term = f.term(i);
        if term.coefficient.number() != *c || term.exponents != m.as_slice() {
            return false;
        }
    }
    true
}

fn has_parts(division: &Division, parts: Parts<'_>) -> bool {
    if division.quotients.len() != parts.1.len() {
        return false;
    }
    for (i, terms) in parts.1.iter().enumerate() {
        if !has_terms(division.quotients.get(i), terms) {
            return false;
        }
    }
    has_terms(&division.remainder, parts.0)
}

fn agrees(found: &Result<Division, Stop>, want: Result<Parts<'_>, Stop>) -> bool {
    match found {
        Ok(division) => match want {
            Ok(parts) => has_parts(division, parts),
            Err(_) => false,
        },
        Err(stop) => match want {
            Ok(_) => false,
            Err(wanted) => *stop == wanted,
        },
    }
}

// The remainder alone agrees with the whole division.
fn agrees_alone(found: &Result<Poly, Stop>, want: Result<Parts<'_>, Stop>) -> bool {
    match found {
        Ok(remainder) => match want {
            Ok(parts) => has_terms(remainder, parts.0),
            Err(_) => false,
        },
        Err(stop) => match want {
            Ok(_) => false,
            Err(wanted) => *stop == wanted,
        },
    }
}

fn check(rt: &HostRuntime, ring: &Ring, row: Row<'_>) -> Result<bool, PolyFault>
    requires valid { IsRing ring.now }
    requires two { places ring.now ≡ 2 }
{
    let f = poly(rt.alloc(), ring, row.dividend)?;
    let divisors = divisors(rt.alloc(), ring, row.divisors)?;
    let mut units = row.units;
    let found = divide(rt.alloc(), ring, &f, &divisors, &mut units);
    let mut units_alone = row.units;
    let alone = remainder(rt.alloc(), ring, &f, &divisors, &mut units_alone);
    let agree = agrees(&found, row.found) && agrees_alone(&alone, row.found);
    Ok(agree && units == row.left && units_alone == row.left)
}

#[test]
fn runs(rt: HostRuntime) -> Result<(), Fail> {
    let ring = ring().ok_or("no ring")?;
    for row in ROWS {
        assert!(rt; check(&rt, &ring, *row)?);
    }
    Ok(())
}
