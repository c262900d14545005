//! Worked counts, and the call met.

ghost use Rattle.std.specs.Prelude.{◌≡◌, false, IfSome, IfOk};
ghost use Rattle.cgs_poly.specs.Polynomial.{IsRing, ArePolys, places};
ghost use Rattle.cgs_entry.specs.Entries.{IsFound, is_refused};

use crate::{Standard, report};
use cgs_entry::{Conditions, Entry, EntryKind};
use cgs_field::Modulus;
use cgs_order::Kind;
use cgs_path::Path;
use cgs_poly::{Poly, PolyFault, PolyList, Ring};
use std::alloc::Global;
use std::test::Fail;

// Modulo 7 in three variables.
fn ring() -> Option<Ring>
    ensures valid { IfSome result (λ ring. IsRing ring) }
    ensures places { IfSome result (λ ring. places ring ≡ 3) }
{
    let modulus = Modulus::of(7)?;
    Some(Ring {
        modulus,
        variables: 3,
        parameters: 0,
        kind: Kind::Lex,
    })
}

// A list of monomials as polynomials.
fn monomials(alloc: Global, ring: &Ring, list: &[[u16; 3]]) -> Result<PolyList, PolyFault>
    requires valid { IsRing ring.now }
    requires places { places ring.now ≡ 3 }
    ensures { IfOk result (λ polys. ArePolys ring.now polys) }
{
    let mut polys = PolyList::new(alloc);
    for m in list {
        let f = Poly::of_term(alloc, ring, ring.modulus.of_u64(1), m)?;
        polys.push(f)?;
    }
    Ok(polys)
}

// A solved entry without conditions.
fn entry(alloc: Global, ring: &Ring, basis: PolyList) -> Entry
    requires polys { ArePolys ring.now basis }
    ensures solved { is_refused result ≡ false }
    ensures found { IsFound ring.now result.kind }
{
    Entry {
        path: Path::root(alloc),
        conditions: Conditions {
            zero: PolyList::new(alloc),
            nonzero: PolyList::new(alloc),
        },
        kind: EntryKind::Solved {
            basis,
            tested: true,
        },
    }
}

#[test]
fn reports(rt: HostRuntime) -> Result<(), Fail> {
    let ring = ring().ok_or("no ring")?;
    let rows: [(&[[u16; 3]], bool, Standard); 9] = [
        (&[], true, Standard::NotFinite),
        (&[[0, 0, 0]], false, Standard::Count(0)),
        (&[[1, 0, 0], [0, 1, 0]], true, Standard::NotFinite),
        (&[[1, 0, 0], [0, 1, 0], [0, 0, 1]], true, Standard::Count(1)),
        (&[[1, 0, 0], [0, 2, 0], [0, 0, 1]], true, Standard::Count(2)),
        (
            &[[2, 0, 0], [1, 1, 0], [0, 3, 0], [0, 0, 1]],
            true,
            Standard::Count(4),
        ),
        (
            &[[100, 0, 0], [0, 100, 0], [0, 0, 100]],
            true,
            Standard::Count(1_000_000),
        ),
        (
            &[[100, 0, 0], [0, 100, 0], [0, 0, 101]],
            true,
            Standard::Many,
        ),
        (
            &[
                [1, 1, 0],
                [1, 0, 1],
                [0, 1, 1],
                [16000, 0, 0],
                [0, 16000, 0],
                [0, 0, 16000],
            ],
            true,
            Standard::Count(47998),
        ),
    ];
    for (list, solvable, standard) in rows {
        let basis = monomials(rt.alloc(), &ring, list)?;
        let found = report(&ring, &entry(rt.alloc(), &ring, basis));
        assert_eq!(rt; found.solvable, solvable);
        assert_eq!(rt; found.finite, standard != Standard::NotFinite);
        assert_eq!(rt; found.standard, standard);
    }
    Ok(())
}
