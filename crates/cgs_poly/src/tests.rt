//! Worked examples, and each call that takes memory met once with ample memory.

ghost use Rattle.std.specs.Prelude.{◌≡◌, ◌≤◌, IfSome, IfOk};
ghost use Rattle.cgs_poly.specs.Polynomial.{IsRing, IsPoly, places};

use crate::{Poly, PolyFault, PolyList, Ring, TermList, joined};
use cgs_exps::{MAX_DEGREE, degree};
use cgs_field::Modulus;
use cgs_list::Duplicate;
use cgs_order::Kind;
use std::alloc::Global;
use std::test::Fail;

type Terms<'a> = &'a [(u16, [u16; 2])];

// Modulo 7 in two places, of which some are variables and the others parameters, lexicographic.
fn ring(variables: u32) -> Option<Ring>
    requires some { 1 ≤ variables }
    requires most { variables ≤ 2 }
    ensures valid { IfSome result (λ ring. IsRing ring) }
    ensures two { IfSome result (λ ring. places ring ≡ 2) }
{
    let modulus = Modulus::of(7)?;
    Some(Ring {
        modulus,
        variables,
        parameters: 2 - variables,
        kind: Kind::Lex,
    })
}

#[tactic(auto, using(crate::proofs::TermLemmas::terms_have_length, cgs_list::proofs::ListLemmas::all_push))]
fn poly(alloc: Global, ring: &Ring, terms: Terms<'_>) -> Result<Poly, PolyFault>
    requires valid { IsRing ring.now }
    requires two { places ring.now ≡ 2 }
    ensures { IfOk result (λ f. IsPoly ring.now f) }
{
    let mut sum = TermList::new(alloc);
    for (c, m) in terms {
        if degree(m) > MAX_DEGREE {
            return Err(PolyFault::Degree);
        }
        sum.push(ring.modulus.of_u64(*c as u64), m)?;
    }
    let f = Poly::of_terms(alloc, ring, &sum)?;
    Ok(f)
}

fn has_terms(f: &Poly, terms: Terms<'_>) -> bool {
    if f.len() != terms.len() {
        return false;
    }
    for (i, (c, m)) in terms.iter().enumerate() {
        let term = f.term(i);
        if term.coefficient.number() != *c || term.exponents != m.as_slice() {
            return false;
        }
    }
    true
}

// Whether the sum of two polynomials has these terms, and is another polynomial than the first.
fn adds(
    alloc: Global,
    ring: &Ring,
    first: Terms<'_>,
    second: Terms<'_>,
    want: Terms<'_>,
) -> Result<bool, PolyFault>
    requires valid { IsRing ring.now }
    requires two { places ring.now ≡ 2 }
{
    let f = poly(alloc, ring, first)?;
    let g = poly(alloc, ring, second)?;
    let sum = Poly::add(alloc, ring, &f, &g)?;
    Ok(has_terms(&sum, want) && !f.same(&sum))
}

#[test]
fn sums(rt: HostRuntime) -> Result<(), Fail> {
    let ring = ring(2).ok_or("no ring")?;
    // f, g, f + g
    let rows: [(Terms<'_>, Terms<'_>, Terms<'_>); 3] = [
        (
            &[(1, [1, 0]), (1, [0, 0])],
            &[(6, [1, 0]), (2, [0, 0])],
            &[(3, [0, 0])],
        ),
        (
            &[(3, [0, 0]), (1, [2, 0])],
            &[(5, [0, 0]), (2, [0, 9]), (4, [1, 0])],
            &[(1, [2, 0]), (4, [1, 0]), (2, [0, 9]), (1, [0, 0])],
        ),
        (&[(1, [32767, 0])], &[(6, [32767, 0])], &[]),
    ];
    for (first, second, want) in rows {
        assert!(rt; adds(rt.alloc(), &ring, first, second, want)?);
    }
    Ok(())
}

#[test]
fn degrees(rt: HostRuntime) -> Result<(), Fail> {
    let ring = ring(2).ok_or("no ring")?;
    let one = ring.modulus.of_u64(1);
    let most = Poly::of_term(rt.alloc(), &ring, one, &[32766, 1])?;
    assert!(rt; has_terms(&most, &[(1, [32766, 1])]));
    let refused = Poly::of_term(rt.alloc(), &ring, one, &[32767, 1]);
    assert_eq!(rt; refused.map(|_| ()), Err(PolyFault::Degree));
    let nothing = Poly::of_term(rt.alloc(), &ring, ring.modulus.of_u64(7), &[1, 1])?;
    assert_eq!(rt; nothing.len(), 0);
    Ok(())
}

// Whether the product of two polynomials has these terms.
fn multiplies(
    alloc: Global,
    ring: &Ring,
    first: Terms<'_>,
    second: Terms<'_>,
    want: Terms<'_>,
) -> Result<bool, PolyFault>
    requires valid { IsRing ring.now }
    requires two { places ring.now ≡ 2 }
{
    let f = poly(alloc, ring, first)?;
    let g = poly(alloc, ring, second)?;
    let product = Poly::product(alloc, ring, &f, &g)?;
    Ok(has_terms(&product, want))
}

// Whether the first polynomial less a monomial times the second has these terms.
fn subtracts(
    alloc: Global,
    ring: &Ring,
    first: Terms<'_>,
    m: &[u16; 2],
    second: Terms<'_>,
    want: Terms<'_>,
) -> Result<bool, PolyFault>
    requires valid { IsRing ring.now }
    requires two { places ring.now ≡ 2 }
{
    let one = ring.modulus.of_u64(1);
    if one.number() == 0 || degree(m) > MAX_DEGREE {
        return Ok(false);
    }
    let f = poly(alloc, ring, first)?;
    let g = poly(alloc, ring, second)?;
    let difference = Poly::sub_multiple(alloc, ring, &f, one, m, &g)?;
    Ok(has_terms(&difference, want))
}

#[test]
fn products(rt: HostRuntime) -> Result<(), Fail> {
    let ring = ring(2).ok_or("no ring")?;
    let f: Terms<'_> = &[(1, [1, 0]), (1, [0, 0])];
    let g: Terms<'_> = &[(1, [1, 0]), (6, [0, 0])];
    let square: Terms<'_> = &[(1, [2, 0])];
    let most: Terms<'_> = &[(1, [32767, 0])];
    assert!(rt; multiplies(rt.alloc(), &ring, f, g, &[(1, [2, 0]), (6, [0, 0])])?);
    assert_eq!(rt;
        multiplies(rt.alloc(), &ring, most, f, &[]),
        Err(PolyFault::Degree)
    );
    assert!(rt; subtracts(rt.alloc(), &ring, square, &[1, 0], g, &[(1, [1, 0])])?);
    assert_eq!(rt;
        subtracts(rt.alloc(), &ring, f, &[0, 1], most, &[]),
        Err(PolyFault::Degree)
    );
    Ok(())
}

#[test]
fn products_on_a_grid(rt: HostRuntime) -> Result<(), Fail> {
    let ring = ring(2).ok_or("no ring")?;
    // 1 + x + .. + x^7, and y times it
    let f: Terms<'_> = &[
        (1, [7, 0]),
        (1, [6, 0]),
        (1, [5, 0]),
        (1, [4, 0]),
        (1, [3, 0]),
        (1, [2, 0]),
        (1, [1, 0]),
        (1, [0, 0]),
    ];
    let g: Terms<'_> = &[
        (1, [7, 1]),
        (1, [6, 1]),
        (1, [5, 1]),
        (1, [4, 1]),
        (1, [3, 1]),
        (1, [2, 1]),
        (1, [1, 1]),
        (1, [0, 1]),
    ];
    // each power of x as often as it is a sum of two exponents, modulo 7
    let want: Terms<'_> = &[
        (1, [14, 1]),
        (2, [13, 1]),
        (3, [12, 1]),
        (4, [11, 1]),
        (5, [10, 1]),
        (6, [9, 1]),
        (1, [7, 1]),
        (6, [5, 1]),
        (5, [4, 1]),
        (4, [3, 1]),
        (3, [2, 1]),
        (2, [1, 1]),
        (1, [0, 1]),
    ];
    assert!(rt; multiplies(rt.alloc(), &ring, f, g, want)?);
    Ok(())
}

// Whether a polynomial has these terms where it is made monic, and comes back where that is scaled.
fn is_monic_multiple(
    alloc: Global,
    ring: &Ring,
    terms: Terms<'_>,
    want: Terms<'_>,
) -> Result<bool, PolyFault>
    requires valid { IsRing ring.now }
    requires two { places ring.now ≡ 2 }
{
    let f = poly(alloc, ring, terms)?;
    let monic = Poly::monic(alloc, ring, &f)?;
    let back = Poly::scale(alloc, ring, ring.modulus.of_u64(3), &monic)?;
    Ok(has_terms(&monic, want) && back.same(&f))
}

#[test]
fn multiples(rt: HostRuntime) -> Result<(), Fail> {
    let ring = ring(2).ok_or("no ring")?;
    let f: Terms<'_> = &[(3, [1, 0]), (6, [0, 0])];
    assert!(rt; is_monic_multiple(rt.alloc(), &ring, f, &[(1, [1, 0]), (2, [0, 0])])?);
    assert!(rt; is_monic_multiple(rt.alloc(), &ring, &[], &[])?);
    Ok(())
}

#[test]
fn pushed(rt: HostRuntime) -> Result<(), Fail> {
    let ring = ring(2).ok_or("no ring")?;
    let mut pushed = Poly::zero(rt.alloc());
    assert!(rt; pushed.lead().is_none());
    pushed.push(ring.modulus.of_u64(3), &[1, 0])?;
    assert!(rt; has_terms(&pushed, &[(3, [1, 0])]));
    let copy = pushed.copy()?;
    assert!(rt; copy.same(&pushed));
    Ok(())
}

#[test]
fn first_terms(rt: HostRuntime) -> Result<(), Fail> {
    let ring = ring(2).ok_or("no ring")?;
    let f = poly(rt.alloc(), &ring, &[(5, [0, 1]), (3, [2, 0])])?;
    let first = Poly::first_terms(rt.alloc(), &f, f.len() / 2)?;
    assert!(rt; has_terms(&first, &[(3, [2, 0])]));
    let all = Poly::first_terms(rt.alloc(), &f, f.len())?;
    assert!(rt; all.same(&f));
    Ok(())
}

#[test]
fn lists(rt: HostRuntime) -> Result<(), Fail> {
    let ring = ring(2).ok_or("no ring")?;
    let f = poly(rt.alloc(), &ring, &[(3, [1, 0]), (6, [0, 0])])?;
    let mut list = PolyList::new(rt.alloc());
    list.push(f.copy()?)?;
    let both = joined(rt.alloc(), &list, &list.copy()?)?;
    assert_eq!(rt; both.len(), 2);
    for g in &both {
        assert!(rt; g.same(&f));
    }
    Ok(())
}

#[test]
fn shared_lists(rt: HostRuntime) -> Result<(), Fail> {
    let ring = ring(2).ok_or("no ring")?;
    let f = poly(rt.alloc(), &ring, &[(3, [1, 0]), (6, [0, 0])])?;
    let mut own = PolyList::new(rt.alloc());
    own.push(f.copy()?)?;
    own.push(Poly::zero(rt.alloc()))?;
    let shared = own.shared()?;
    let mut first = shared.first(1)?;
    assert_eq!(rt; first.len(), 1);
    first.push(f.copy()?)?;
    assert_eq!(rt; first.len(), 2);
    assert!(rt; first.iter().all(|g| g.same(&f)));
    assert_eq!(rt; shared.copy()?.len(), 2);
    Ok(())
}

#[test]
fn flat_slices(rt: HostRuntime) -> Result<(), Fail> {
    let ring = ring(2).ok_or("no ring")?;
    let f = poly(rt.alloc(), &ring, &[(5, [0, 1]), (3, [2, 0])])?;
    let numbers = [ring.modulus.of_u64(3), ring.modulus.of_u64(5)];
    assert!(rt; f.coefficients() == numbers.as_slice());
    assert!(rt; f.exponents() == [2, 0, 0, 1].as_slice());
    Ok(())
}

#[test]
fn leading_parts(rt: HostRuntime) -> Result<(), Fail> {
    // in x with the parameter a
    let ring = ring(1).ok_or("no ring")?;
    let f = poly(rt.alloc(), &ring, &[(6, [0, 0]), (1, [1, 1]), (2, [1, 0])])?;
    assert_eq!(rt; f.lead_x(&ring), Some([1].as_slice()));
    assert!(rt; f.len() > 0);
    let part = Poly::lc_x(rt.alloc(), &ring, &f)?;
    assert!(rt; has_terms(&part, &[(1, [0, 1]), (2, [0, 0])]));
    Ok(())
}

#[test]
fn recast(rt: HostRuntime) -> Result<(), Fail> {
    // in x with the parameter a, and in y above x
    let modulus = Modulus::of(7).ok_or("no modulus")?;
    let narrow = Ring {
        modulus,
        variables: 1,
        parameters: 1,
        kind: Kind::Lex,
    };
    let wide = Ring {
        modulus,
        variables: 2,
        parameters: 1,
        kind: Kind::Lex,
    };
    let f = poly(
        rt.alloc(),
        &narrow,
        &[(6, [0, 0]), (1, [1, 1]), (2, [1, 0])],
    )?;
    let more = Poly::recast(rt.alloc(), &narrow, &wide, &f)?;
    assert_eq!(rt; (more.len(), f.len()), (3, 3));
    for i in 0..3 {
        if i < f.len() && i < more.len() {
            let (own, other) = (f.term(i), more.term(i));
            assert_eq!(rt; own.coefficient.number(), other.coefficient.number());
            assert_eq!(rt; other.exponents.first(), Some(&0));
            assert!(rt; other.exponents.get(1..) == Some(own.exponents));
        }
    }
    Ok(())
}
