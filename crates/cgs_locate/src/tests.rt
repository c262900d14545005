//! Points located in lists that are made by hand, with ample memory.

ghost use Rattle.std.specs.Prelude.{◌≤◌, IfSome, IfOk};
ghost use Rattle.std.specs.List.{AllByRecursion};
ghost use Rattle.cgs_poly.specs.Polynomial.{IsRing, IsPoly, ArePolys, places};
ghost use Rattle.cgs_poly.specs.Parameters.{IsCondition};
ghost use Rattle.cgs_entry.specs.Entries.{IsEntry, IsFound};

use crate::{Located, locate};
use cgs_entry::{Cause, Conditions, Entry, EntryKind, EntryList};
use cgs_field::Modulus;
use cgs_order::Kind;
use cgs_path::Path;
use cgs_point::Point;
use cgs_poly::{Poly, PolyList, Ring};
use std::alloc::Global;
use std::test::Fail;

// The exponents of x, and of up to three parameters a, b and c.
type Monomial = [u16; 4];

type Terms = &'static [(u16, Monomial)];

// What is 0, what is not, and the basis: none of a refused entry, no terms where it is empty, else its one member.
struct Row {
    zero: &'static [Monomial],
    nonzero: &'static [Monomial],
    basis: Option<Terms>,
}

const AX: Monomial = [1, 1, 0, 0];

const BX: Monomial = [1, 0, 1, 0];

const ONE: Monomial = [0, 0, 0, 0];

const A: Monomial = [0, 1, 0, 0];

const B: Monomial = [0, 0, 1, 0];

const C: Monomial = [0, 0, 0, 1];

// The entries of a*x - 1 modulo 7 where a is not 0.
const LINE: [Row; 1] = [Row {
    zero: &[],
    nonzero: &[A],
    basis: Some(&[(1, AX), (6, ONE)]),
}];

// The first entries of a*x^2 + b*x + c, with the third refused, and the last.
const QUADRATIC: [Row; 4] = [
    Row {
        zero: &[],
        nonzero: &[A],
        basis: Some(&[(1, [2, 1, 0, 0]), (1, BX), (1, C)]),
    },
    Row {
        zero: &[A],
        nonzero: &[B],
        basis: Some(&[(1, BX), (1, C)]),
    },
    Row {
        zero: &[A, B],
        nonzero: &[C],
        basis: None,
    },
    Row {
        zero: &[A, B, C],
        nonzero: &[],
        basis: Some(&[]),
    },
];

fn ring(p: u32, parameters: u32) -> Option<Ring>
    requires { parameters ≤ 3 }
    ensures valid { IfSome result (λ ring. IsRing ring) }
    ensures four { IfSome result (λ ring. places ring ≤ 4) }
{
    let modulus = Modulus::of(p)?;
    Some(Ring {
        modulus,
        variables: 1,
        parameters,
        kind: Kind::Lex,
    })
}

fn monomial(alloc: Global, ring: &Ring, c: u16, m: &Monomial) -> Result<Poly, Fail>
    requires valid { IsRing ring.now }
    requires four { places ring.now ≤ 4 }
    ensures { IfOk result (λ f. IsPoly ring.now f) }
{
    let f = Poly::of_term(
        alloc,
        ring,
        ring.modulus.of_u64(c as u64),
        &m[..ring.places()],
    )?;
    Ok(f)
}

fn basis(alloc: Global, ring: &Ring, terms: Terms) -> Result<PolyList, Fail>
    requires valid { IsRing ring.now }
    requires four { places ring.now ≤ 4 }
    ensures { IfOk result (λ list. ArePolys ring.now list) }
{
    let mut f = Poly::zero(alloc);
    for (c, m) in terms {
        f = Poly::add(alloc, ring, &f, &monomial(alloc, ring, *c, m)?)?;
    }
    let mut list = PolyList::new(alloc);
    if f.len() > 0 {
        list.push(f)?;
    }
    Ok(list)
}

fn conditions(alloc: Global, ring: &Ring, monomials: &[Monomial]) -> Result<PolyList, Fail>
    requires valid { IsRing ring.now }
    requires four { places ring.now ≤ 4 }
    ensures { IfOk result (λ list. AllByRecursion (IsCondition ring.now) list) }
{
    let mut list = PolyList::new(alloc);
    for m in monomials {
        let f = monomial(alloc, ring, 1, m)?;
        if !f.has_no_variables(ring) {
            return Err("no condition".into());
        }
        list.push(f)?;
    }
    Ok(list)
}

fn kind(alloc: Global, ring: &Ring, terms: Option<Terms>) -> Result<EntryKind, Fail>
    requires valid { IsRing ring.now }
    requires four { places ring.now ≤ 4 }
    ensures { IfOk result (λ kind. IsFound ring.now kind) }
{
    let Some(terms) = terms else {
        return Ok(EntryKind::Refused(Cause::Depth));
    };
    Ok(EntryKind::Solved {
        basis: basis(alloc, ring, terms)?,
        tested: true,
    })
}

fn entries(alloc: Global, ring: &Ring, rows: &[Row]) -> Result<EntryList, Fail>
    requires valid { IsRing ring.now }
    requires four { places ring.now ≤ 4 }
    ensures { IfOk result (λ list. AllByRecursion (IsEntry ring.now) list) }
{
    let mut list = EntryList::new(alloc);
    for row in rows {
        let conditions = Conditions {
            zero: conditions(alloc, ring, row.zero)?,
            nonzero: conditions(alloc, ring, row.nonzero)?,
        };
        list.push(Entry {
            path: Path::root(alloc),
            conditions,
            kind: kind(alloc, ring, row.basis)?,
        })?;
    }
    Ok(list)
}

// Whether a basis is empty where there are no terms, and else has one member with these coefficients and exponents of x.
fn has_terms(basis: &PolyList, terms: &[(u16, u16)]) -> bool {
    let Some(f) = basis.as_slice().first() else {
        return terms.len() == 0;
    };
    basis.len() == 1
        && f.len() == terms.len()
        && f.coefficients()
            .iter()
            .zip(terms)
            .all(|(c, (want, _))| c.number() == *want)
        && f.exponents()
            .iter()
            .zip(terms)
            .all(|(e, (_, want))| *e == *want)
}

fn is_at(found: &Option<Located>, index: usize, terms: &[(u16, u16)]) -> bool {
    match found {
        Some(found) => found.index == index && has_terms(&found.basis, terms),
        None => false,
    }
}

#[test]
fn of_a_line(rt: HostRuntime) -> Result<(), Fail> {
    let ring = ring(7, 1).ok_or("no ring")?;
    let entries = entries(rt.alloc(), &ring, &LINE)?;
    let zero = Point::new(rt.alloc(), &ring, &[0])?;
    assert!(rt; locate(rt.alloc(), &ring, &entries, &zero)?.is_none());
    let three = Point::new(rt.alloc(), &ring, &[3])?;
    let found = locate(rt.alloc(), &ring, &entries, &three)?;
    // 3 times 5 is 1, and 6 times 5 is 2
    assert!(rt; is_at(&found, 0, &[(1, 1), (2, 0)]));
    Ok(())
}

#[test]
fn of_a_quadratic(rt: HostRuntime) -> Result<(), Fail> {
    let ring = ring(32003, 3).ok_or("no ring")?;
    let entries = entries(rt.alloc(), &ring, &QUADRATIC)?;
    // half of 1 is 16002
    let rows: [([u64; 3], usize, &[(u16, u16)]); 4] = [
        ([1, 5, 6], 0, &[(1, 2), (5, 1), (6, 0)]),
        ([0, 2, 1], 1, &[(1, 1), (16002, 0)]),
        ([0, 0, 9], 2, &[]),
        ([0, 0, 0], 3, &[]),
    ];
    for (values, index, terms) in rows {
        let point = Point::new(rt.alloc(), &ring, &values)?;
        let found = locate(rt.alloc(), &ring, &entries, &point)?;
        assert!(rt; is_at(&found, index, terms), "at {values:?}");
    }
    Ok(())
}
