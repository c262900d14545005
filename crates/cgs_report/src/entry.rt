//! The report on an entry.

ghost use Rattle.std.specs.Prelude.{◌≡◌, false, [], ◌∷◌};
ghost use Rattle.std.specs.Cmp.Lexicographic.{pointwise};
ghost use Rattle.cgs_poly.specs.Polynomial.{IsRing, IsPoly, ArePolys, one};
ghost use Rattle.cgs_poly.specs.Same.{same_poly};
ghost use Rattle.cgs_entry.specs.Bases.{basis_of};
ghost use Rattle.cgs_entry.specs.Entries.{IsFound, is_refused};
ghost use Rattle.cgs_report.specs.Standard.{IsStandard, leads_x};
ghost use Rattle.cgs_report.specs.Laws.{Tells};
ghost use Rattle.cgs_report.specs.Report.{is_finite, findings_of};

use crate::leads::is_one;
use crate::standard::{Standard, standard_monomials};
use cgs_entry::{Entry, EntryKind};
use cgs_poly::{Poly, Ring};

/// What is told of a solved entry.
#[derive(Clone, Copy, Debug, PartialEq, Eq)]
pub struct Findings {
    /// Whether the basis is another than the list of 1.
    pub solvable: bool,
    /// Whether the standard monomials are finitely many.
    pub finite: bool,
    pub standard: Standard,
}

/// The report on a solved entry. It takes no memory.
pub fn report(ring: &Ring, entry: &Entry) -> Findings
    requires ring { IsRing ring.now }
    requires solved { is_refused entry.now ≡ false }
    requires found { IsFound ring.now entry.now.kind }
    ensures exact { result ≡ findings_of ring.now (basis_of entry.now.kind) }
    ensures tells { Tells (IsStandard ring.now.variables (leads_x ring.now (basis_of entry.now.kind))) result.standard }
{
    let EntryKind::Solved { basis, .. } = &entry.kind else {
        unreachable!()
    };
    let standard = standard_monomials(ring, basis.as_slice());
    Findings {
        solvable: !is_one_alone(ring, basis.as_slice()),
        finite: is_finite(standard),
        standard,
    }
}

fn is_finite(standard: Standard) -> bool
    ensures { result ≡ is_finite standard }
{
    !matches!(standard, Standard::NotFinite)
}

// Whether the polynomials are the list of 1.
fn is_one_alone(ring: &Ring, basis: &[Poly]) -> bool
    requires ring { IsRing ring.now }
    requires polys { ArePolys ring.now basis.now }
    ensures { result ≡ pointwise same_poly basis.now (one ring.now ∷ []) }
{
    match basis {
        [f] => is_one_poly(ring, f),
        _ => false,
    }
}

// Whether a polynomial is 1.
fn is_one_poly(ring: &Ring, f: &Poly) -> bool
    requires ring { IsRing ring.now }
    requires poly { IsPoly ring.now f.now }
    ensures { result ≡ same_poly f.now (one ring.now) }
{
    if f.len() != 1 {
        return false;
    }
    let term = f.term(0);
    term.coefficient.number() == 1 && is_one(term.exponents)
}
