//! A grid: the divisors of a monomial, its corner, numbered, so that a cell can be kept for each.

ghost use Rattle.std.specs.Prelude.{◌≡◌, ◌<◌, ◌≤◌, ◌^◌, length, IfOk, IfSome, true};
ghost use Rattle.std.specs.List.{AllByRecursion};
ghost use Rattle.cgs_exps.specs.Monomial as monomial;
ghost use Rattle.cgs_poly.specs.Polynomial.{greatest_degree};
ghost use Rattle.cgs_poly.specs.Draft.{HaveLength};
ghost use Rattle.cgs_poly.specs.Grid.{count_divisors, strides, number_of, divisor_at, numbers_of, IsCorner, IsGrid};

use crate::poly::Poly;
use cgs_exps::{MAX_DEGREE, MAX_PLACES, degree, lcm_into, product_into};
use std::alloc::{AllocError, Global};

// A product of fewer pairs of terms is not worth a grid.
const FEWEST_PAIRS: usize = 64;

// The products of more pairs of coefficients could exceed a cell.
const MOST_PAIRS: usize = 0xffff_ffff;

// More cells could take memory that a product by halves has no need of.
const MOST_CELLS: usize = 0x40_0000;

/// How the divisors of a corner are numbered, and how many there are.
#[derive(Drop)]
pub(crate) struct Grid {
    pub(crate) strides: Vec<usize>,
    pub(crate) cells: usize,
}

impl Grid {
    /// A grid for the product of two polynomials, if it has no more cells than there are pairs of terms, and not too many.
    pub(crate) fn for_product(
        alloc: Global,
        places: usize,
        f: &Poly,
        g: &Poly,
    ) -> Result<Option<Grid>, AllocError>
        requires first { HaveLength places f.now }
        requires second { HaveLength places g.now }
        requires few { places ≤ 17 }
        ensures { IfOk result (λ found. IfSome found (λ grid. IsGrid places grid.strides.items grid.cells f.now g.now)) }
    {
        let pairs = f.len().saturating_mul(g.len());
        if pairs < FEWEST_PAIRS || pairs > MOST_PAIRS {
            return Ok(None);
        }
        let mut room = [0; MAX_PLACES];
        let corner = &mut room[..places];
        if !write_corner(f, g, corner) {
            return Ok(None);
        }
        let Some(cells) = count_divisors(corner) else {
            return Ok(None);
        };
        if cells > pairs || cells > MOST_CELLS {
            return Ok(None);
        }
        Ok(Some(Grid {
            strides: strides(alloc, corner, cells)?,
            cells,
        }))
    }
}

// Writes the product of the least common multiples of the monomials of f and of g, unless its degree is above 32767.
fn write_corner(f: &Poly, g: &Poly, corner: &mut [u16]) -> bool
    requires first { HaveLength (length corner.old) f.now }
    requires second { HaveLength (length corner.old) g.now }
    requires few { length corner.old ≤ 17 }
    ensures places { length corner.new ≡ length corner.old }
    ensures corner { result ≡ true → IsCorner corner.new f.now g.now }
    ensures low { result ≡ true → monomial.degree corner.new ≤ greatest_degree }
{
    let mut of_f = [0; MAX_PLACES];
    let mut of_g = [0; MAX_PLACES];
    let of_f = &mut of_f[..corner.len()];
    let of_g = &mut of_g[..corner.len()];
    write_lcm(f, of_f);
    write_lcm(g, of_g);
    if degree(of_f) > MAX_DEGREE || degree(of_g) > MAX_DEGREE {
        return false;
    }
    let Ok(()) = product_into(of_f, of_g, corner) else {
        return false;
    };
    true
}

// Raises a monomial to a common multiple of all monomials.
fn write_lcm(f: &Poly, lcm: &mut [u16])
    requires places { HaveLength (length lcm.old) f.now }
    requires few { length lcm.old ≤ 17 }
    ensures places { length lcm.new ≡ length lcm.old }
    ensures multiple { AllByRecursion (λ x. monomial.divides x.exponents lcm.new ≡ true) f.now }
{
    let mut further = [0; MAX_PLACES];
    for i in 0..f.len() {
        let next = &mut further[..lcm.len()];
        lcm_into(lcm, f.term(i).exponents, next);
        lcm.copy_from_slice(next);
    }
}

// The number of divisors, if it is below 2^64.
fn count_divisors(m: &[u16]) -> Option<usize>
    ensures { IfSome result (λ n. n ≡ count_divisors m.now) }
{
    let mut count: usize = 1;
    for i in 0..m.len() {
        let Some(more) = count.checked_mul(m[i] as usize + 1) else {
            return None;
        };
        count = more;
    }
    Some(count)
}

// What one more at each place adds to the number of a divisor.
fn strides(alloc: Global, m: &[u16], cells: usize) -> Result<Vec<usize>, AllocError>
    requires { cells ≡ count_divisors m.now }
    ensures { IfOk result (λ ss. ss.items ≡ strides m.now) }
{
    let mut strides = Vec::with_capacity(alloc, m.len())?;
    let mut stride = cells;
    for i in 0..m.len() {
        stride /= m[i] as usize + 1;
        strides.push(stride)?;
    }
    Ok(strides)
}

/// The number of a divisor.
pub(crate) fn number_of(strides: &[usize], m: &[u16]) -> usize
    requires places { length m.now ≡ length strides.now }
    requires fits { number_of strides.now m.now < 2 ^ 64 }
    ensures { result ≡ number_of strides.now m.now }
{
    let mut number = 0;
    for i in 0..m.len() {
        number += m[i] as usize * strides[i];
    }
    number
}

/// The numbers of all monomials.
pub(crate) fn numbers_of(
    alloc: Global,
    strides: &[usize],
    f: &Poly,
) -> Result<Vec<usize>, AllocError>
    requires places { HaveLength (length strides.now) f.now }
    requires fit { AllByRecursion (λ x. number_of strides.now x.exponents < 2 ^ 64) f.now }
    ensures { IfOk result (λ numbers. numbers.items ≡ numbers_of strides.now f.now) }
{
    let mut numbers = Vec::with_capacity(alloc, f.len())?;
    for i in 0..f.len() {
        numbers.push(number_of(strides, f.term(i).exponents))?;
    }
    Ok(numbers)
}

/// Writes the divisor with a number into `out`.
pub(crate) fn write_divisor(strides: &[usize], number: usize, out: &mut [u16])
    requires places { length out.old ≡ length strides.now }
    requires positive { AllByRecursion (λ s. 0 < s) strides.now }
    requires fits { AllByRecursion (λ x. x < 2 ^ 16) (divisor_at strides.now number) }
    ensures { out.new ≡ divisor_at strides.now number }
{
    let mut rest = number;
    for i in 0..strides.len() {
        out[i] = (rest / strides[i]) as u16;
        rest %= strides[i];
    }
}
