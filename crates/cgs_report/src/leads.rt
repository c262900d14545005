//! Tests of the variables' parts of leading monomials.

ghost use Rattle.std.specs.Prelude.{◌≡◌, ◌+◌, ◌<◌, length};
ghost use Rattle.cgs_poly.specs.Polynomial.{IsRing, IsPoly, ArePolys};
ghost use Rattle.cgs_report.specs.Standard.{leads_x, has_divisor};
ghost use Rattle.cgs_report.specs.Box.{has_power, is_one};
ghost use Rattle.cgs_report.specs.Walk.{lead_divides, lead_is_power, least_last, lead_last};

use cgs_exps::{MAX_DEGREE, divides};
use cgs_poly::{Poly, Ring};

// How many exponents there are.
pub(crate) const EXPONENTS: u16 = MAX_DEGREE as u16 + 1;

/// Whether a leading monomial divides m.
pub(crate) fn has_divisor(ring: &Ring, basis: &[Poly], m: &[u16]) -> bool
    requires ring { IsRing ring.now }
    requires polys { ArePolys ring.now basis.now }
    requires places { length m.now ≡ ring.now.variables }
    ensures { result ≡ has_divisor (leads_x ring.now basis.now) m.now }
{
    for f in basis {
        if lead_divides(ring, f, m) {
            return true;
        }
    }
    false
}

fn lead_divides(ring: &Ring, f: &Poly, m: &[u16]) -> bool
    requires ring { IsRing ring.now }
    requires poly { IsPoly ring.now f.now }
    requires places { length m.now ≡ ring.now.variables }
    ensures { result ≡ lead_divides ring.now m.now f.now }
{
    match f.lead_x(ring) {
        Some(x) => divides(x, m),
        None => false,
    }
}

/// The least last exponent of the leading monomials whose other exponents divide m; where there is none, one that is above
/// all exponents.
pub(crate) fn least_last(ring: &Ring, basis: &[Poly], m: &[u16]) -> u16
    requires ring { IsRing ring.now }
    requires polys { ArePolys ring.now basis.now }
    requires places { length m.now + 1 ≡ ring.now.variables }
    ensures { result ≡ least_last m.now (leads_x ring.now basis.now) }
{
    let mut least = EXPONENTS;
    for f in basis {
        least = least.min(lead_last(ring, f, m));
    }
    least
}

fn lead_last(ring: &Ring, f: &Poly, m: &[u16]) -> u16
    requires ring { IsRing ring.now }
    requires poly { IsPoly ring.now f.now }
    requires places { length m.now + 1 ≡ ring.now.variables }
    ensures { result ≡ lead_last ring.now m.now f.now }
{
    match f.lead_x(ring) {
        Some(x) if divides(&x[..m.len()], m) => x[m.len()],
        _ => EXPONENTS,
    }
}

/// Whether a leading monomial is a power of the variable at a place, or 1.
pub(crate) fn has_power(ring: &Ring, basis: &[Poly], place: usize) -> bool
    requires ring { IsRing ring.now }
    requires polys { ArePolys ring.now basis.now }
    requires place { place < ring.now.variables }
    ensures { result ≡ has_power place (leads_x ring.now basis.now) }
{
    for f in basis {
        if lead_is_power(ring, f, place) {
            return true;
        }
    }
    false
}

fn lead_is_power(ring: &Ring, f: &Poly, place: usize) -> bool
    requires ring { IsRing ring.now }
    requires poly { IsPoly ring.now f.now }
    requires place { place < ring.now.variables }
    ensures { result ≡ lead_is_power ring.now place f.now }
{
    match f.lead_x(ring) {
        Some(x) => is_one(&x[..place]) && is_one(&x[place + 1..]),
        None => false,
    }
}

/// Whether all exponents are 0.
pub(crate) fn is_one(exponents: &[u16]) -> bool
    ensures { result ≡ is_one exponents.now }
{
    exponents.iter().all(|e| *e == 0)
}
