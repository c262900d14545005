//! The operations on monomials, place by place and without memory (Cox, Little, O'Shea, chapter 2, sections 2 and 6).

ghost use Rattle.std.specs.Prelude.{◌≡◌, ◌+◌, ◌^◌, ◌<◌, ◌≤◌, ◌↔◌, IsErr, IsTrue, length, OnOk, OnErr};
ghost use Rattle.cgs_exps.specs.Monomial as monomial;

use crate::lanes::{
    LANES, coprime_in_lanes, degree_in_lanes, divides_in_lanes, lanes, lcm_in_lanes,
    product_in_lanes, quotient_in_lanes, store,
};

/// The greatest number of places of a monomial.
pub const MAX_PLACES: usize = 17;

/// The greatest degree of a monomial in a polynomial.
pub const MAX_DEGREE: u32 = 32767;

/// The degree of a product exceeds `MAX_DEGREE`.
#[derive(Clone, Copy, Debug, PartialEq, Eq)]
pub struct DegreeFault;

/// The total degree.
pub fn degree(a: &[u16]) -> u32
    requires { length a.now ≤ MAX_PLACES }
    ensures { result ≡ monomial.degree a.now }
{
    a.iter().map(|&x| x as u32).sum()
}

/// Whether the first monomial divides the second.
pub fn divides(a: &[u16], b: &[u16]) -> bool
    requires same_places { length a.now ≡ length b.now }
    requires places { length a.now ≤ MAX_PLACES }
    ensures { result ≡ monomial.divides a.now b.now }
{
    let mut from = 0;
    if a.len() >= LANES {
        if !divides_in_lanes(lanes(a), lanes(b)) {
            return false;
        }
        from = LANES;
    }
    for i in from..a.len() {
        if a[i] > b[i] {
            return false;
        }
    }
    true
}

/// Whether no variable or parameter stands in both monomials.
pub fn coprime(a: &[u16], b: &[u16]) -> bool
    requires same_places { length a.now ≡ length b.now }
    requires places { length a.now ≤ MAX_PLACES }
    ensures { result ≡ monomial.coprime a.now b.now }
{
    let mut from = 0;
    if a.len() >= LANES {
        if !coprime_in_lanes(lanes(a), lanes(b)) {
            return false;
        }
        from = LANES;
    }
    for i in from..a.len() {
        if a[i] != 0 && b[i] != 0 {
            return false;
        }
    }
    true
}

/// Writes the least common multiple into `out`. Its degree has no limit.
pub fn lcm_into(a: &[u16], b: &[u16], out: &mut [u16])
    requires same_places { length a.now ≡ length b.now }
    requires out_places { length out.old ≡ length a.now }
    requires places { length a.now ≤ MAX_PLACES }
    ensures { out.new ≡ monomial.lcm a.now b.now }
{
    let mut from = 0;
    if a.len() >= LANES {
        store(lcm_in_lanes(lanes(a), lanes(b)), out);
        from = LANES;
    }
    for i in from..a.len() {
        out[i] = a[i].max(b[i]);
    }
}

/// Writes the quotient of the first monomial by the second, a divisor of it, into `out`.
pub fn quotient_into(a: &[u16], b: &[u16], out: &mut [u16])
    requires same_places { length a.now ≡ length b.now }
    requires out_places { length out.old ≡ length a.now }
    requires places { length a.now ≤ MAX_PLACES }
    requires divisor { IsTrue (monomial.divides b.now a.now) }
    ensures { out.new ≡ monomial.quotient a.now b.now }
{
    let mut from = 0;
    if a.len() >= LANES {
        store(quotient_in_lanes(lanes(a), lanes(b)), out);
        from = LANES;
    }
    for i in from..a.len() {
        out[i] = a[i] - b[i];
    }
}

/// Writes the product of two monomials into `out`. It errs where the product's degree exceeds `MAX_DEGREE`.
pub fn product_into(a: &[u16], b: &[u16], out: &mut [u16]) -> Result<(), DegreeFault>
    requires same_places { length a.now ≡ length b.now }
    requires out_places { length out.old ≡ length a.now }
    requires places { length a.now ≤ MAX_PLACES }
    requires first_degree { monomial.degree a.now ≤ MAX_DEGREE }
    requires second_degree { monomial.degree b.now ≤ MAX_DEGREE }
    ensures ok { OnOk result (out.new ≡ monomial.product a.now b.now) }
    ensures too_great { IsErr result ↔ (MAX_DEGREE < monomial.degree a.now + monomial.degree b.now) }
    ensures err { OnErr result (out.new ≡ out.old) }
{
    if degree_of_both(a, b) as u32 > MAX_DEGREE {
        return Err(DegreeFault);
    }
    low_product_into(a, b, out);
    Ok(())
}

// The sum of the degrees of two monomials, in one pass.
fn degree_of_both(a: &[u16], b: &[u16]) -> u16
    requires same_places { length a.now ≡ length b.now }
    requires small { monomial.degree a.now + monomial.degree b.now < 2 ^ 16 }
    ensures { result ≡ monomial.degree a.now + monomial.degree b.now }
{
    let mut total = 0;
    let mut from = 0;
    if a.len() >= LANES {
        total = degree_in_lanes(lanes(a), lanes(b));
        from = LANES;
    }
    for i in from..a.len() {
        total += a[i] + b[i];
    }
    total
}

/// Writes the product of two monomials whose degrees are known to fit into `out`.
#[inline(always)]
pub fn low_product_into(a: &[u16], b: &[u16], out: &mut [u16])
    requires same_places { length a.now ≡ length b.now }
    requires out_places { length out.old ≡ length a.now }
    requires low { monomial.degree a.now + monomial.degree b.now ≤ MAX_DEGREE }
    ensures { out.new ≡ monomial.product a.now b.now }
{
    let places = out.len();
    let mut from = 0;
    if places >= LANES {
        store(product_in_lanes(lanes(a), lanes(b)), out);
        from = LANES;
    }
    for i in from..places {
        out[i] = a[i] + b[i];
    }
}
