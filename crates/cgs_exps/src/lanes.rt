//! The operations on sixteen places at once.

ghost use Rattle.std.specs.Prelude.{◌≡◌, ◌+◌, ◌^◌, ◌<◌, ◌≤◌, ◌++◌, IsTrue, length, take, drop};
ghost use Rattle.cgs_exps.specs.Mask as masks;
ghost use Rattle.cgs_exps.specs.Monomial as monomial;

use std::simd::prelude::*;

// The number of places that are taken at once.
pub(crate) const LANES: usize = 16;

// The first places.
#[inline(always)]
pub(crate) fn lanes(a: &[u16]) -> u16x16
    requires { LANES ≤ length a.now }
    ensures { result ≡ take LANES a.now }
{
    u16x16::from_slice(a)
}

// Writes the first places.
#[inline(always)]
pub(crate) fn store(a: u16x16, out: &mut [u16])
    requires { LANES ≤ length out.old }
    ensures { out.new ≡ a ++ drop LANES out.old }
{
    a.copy_to_slice(out);
}

#[inline(always)]
pub(crate) fn mask_in_lanes(a: u16x16) -> u32
    ensures { result ≡ masks.mask a }
{
    a.simd_ne(u16x16::splat(0)).to_bitmask() as u32
}

#[inline(always)]
pub(crate) fn divides_in_lanes(a: u16x16, b: u16x16) -> bool
    ensures { result ≡ monomial.divides a b }
{
    a.simd_gt(b).to_bitmask() == 0
}

#[inline(always)]
pub(crate) fn coprime_in_lanes(a: u16x16, b: u16x16) -> bool
    ensures { result ≡ monomial.coprime a b }
{
    mask_in_lanes(a) & mask_in_lanes(b) == 0
}

#[inline(always)]
pub(crate) fn lcm_in_lanes(a: u16x16, b: u16x16) -> u16x16
    ensures { result ≡ monomial.lcm a b }
{
    a.simd_max(b)
}

#[inline(always)]
pub(crate) fn quotient_in_lanes(a: u16x16, b: u16x16) -> u16x16
    requires { IsTrue (monomial.divides b a) }
    ensures { result ≡ monomial.quotient a b }
{
    a.strict_sub(b)
}

#[inline(always)]
pub(crate) fn product_in_lanes(a: u16x16, b: u16x16) -> u16x16
    requires { monomial.degree a + monomial.degree b < 2 ^ 16 }
    ensures { result ≡ monomial.product a b }
{
    a.strict_add(b)
}

// The degree of the product.
#[inline(always)]
pub(crate) fn degree_in_lanes(a: u16x16, b: u16x16) -> u16
    requires { monomial.degree a + monomial.degree b < 2 ^ 16 }
    ensures { result ≡ monomial.degree a + monomial.degree b }
{
    a.strict_add(b).strict_reduce_sum()
}
