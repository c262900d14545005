//! The count of standard monomials, without memory.

ghost use Rattle.std.specs.Prelude.{◌≡◌, ◌+◌, ◌-◌, ◌≤◌, false, take, drop, min, replicate, IsTrue};
ghost use Rattle.cgs_poly.specs.Polynomial.{IsRing, ArePolys};
ghost use Rattle.cgs_report.specs.Laws.{Tells};
ghost use Rattle.cgs_report.specs.Standard.{IsStandard, leads_x, has_divisor};
ghost use Rattle.cgs_report.specs.Box.{have_powers, box, standard_of};
ghost use Rattle.cgs_report.specs.Walk.{standard_after};

use crate::leads::{EXPONENTS, has_divisor, has_power, least_last};
use cgs_poly::{Poly, Ring};

/// The greatest number that is counted.
pub const MOST_COUNTED: u64 = 1_000_000;

const MAX_VARIABLES: usize = 9;

/// How many standard monomials there are.
#[derive(Clone, Copy, Debug, PartialEq, Eq)]
pub enum Standard {
    /// There are infinitely many.
    NotFinite,
    /// There are more than `MOST_COUNTED`, but finitely many.
    Many,
    Count(u64),
}

/// What is to be told of the standard monomials of a basis.
pub(crate) fn standard_monomials(ring: &Ring, basis: &[Poly]) -> Standard
    requires ring { IsRing ring.now }
    requires polys { ArePolys ring.now basis.now }
    ensures tells { Tells (IsStandard ring.now.variables (leads_x ring.now basis.now)) result }
    ensures standard { result ≡ standard_of ring.now.variables (leads_x ring.now basis.now) }
{
    if !have_powers(ring, basis) {
        return Standard::NotFinite;
    }
    let count = count_from(ring, basis, [0; MAX_VARIABLES], 0, 0);
    if count > MOST_COUNTED {
        return Standard::Many;
    }
    Standard::Count(count)
}

// Whether each variable has a power among the leading monomials.
fn have_powers(ring: &Ring, basis: &[Poly]) -> bool
    requires ring { IsRing ring.now }
    requires polys { ArePolys ring.now basis.now }
    ensures { result ≡ have_powers (leads_x ring.now basis.now) 0 ring.now.variables }
{
    for place in 0..ring.variables as usize {
        if !has_power(ring, basis, place) {
            return false;
        }
    }
    true
}

// What was counted before, and how many monomials that begin with the exponents of `m` before a place are standard. Where the
// monomial with an exponent at the place, and 0 after it, has a divisor, so have all with this exponent or a greater one there:
// they are passed over. At the last place those below the least exponent that has a divisor are counted at once. The walk
// stops as soon as it passes `MOST_COUNTED`.
fn count_from(
    ring: &Ring,
    basis: &[Poly],
    m: [u16; MAX_VARIABLES],
    place: usize,
    counted: u64,
) -> u64
    requires ring { IsRing ring.now }
    requires polys { ArePolys ring.now basis.now }
    requires powers { IsTrue (have_powers (leads_x ring.now basis.now) place (ring.now.variables - place)) }
    requires within { place ≤ ring.now.variables }
    requires zeros { drop place m ≡ replicate (MAX_VARIABLES - place) 0 }
    requires standard { place ≡ ring.now.variables → has_divisor (leads_x ring.now basis.now) (take place m) ≡ false }
    requires few { counted ≤ MOST_COUNTED }
    ensures { result ≡ min (counted + standard_after (leads_x ring.now basis.now) (take place m) (box (leads_x ring.now basis.now) place (ring.now.variables - place))) (MOST_COUNTED + 1) }
{
    let variables = ring.variables as usize;
    if place == variables {
        return counted + 1;
    }
    if place + 1 == variables {
        let least = least_last(ring, basis, &m[..place]);
        return (counted + least as u64).min(MOST_COUNTED + 1);
    }
    let mut count = counted;
    for e in 0..EXPONENTS {
        let mut corner = m;
        corner[place] = e;
        if has_divisor(ring, basis, &corner[..variables]) {
            return count;
        }
        count = count_from(ring, basis, corner, place + 1, count);
        if count > MOST_COUNTED {
            return count;
        }
    }
    count
}
