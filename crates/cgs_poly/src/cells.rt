//! A product on a grid: each product of two terms is added to the cell of its monomial, with no remainder taken till the
//! end.

ghost use Rattle.std.specs.Prelude.{ℕ, ◌≡◌, ◌+◌, ◌<◌, length, get_or, IfOk, IfSome};
ghost use Rattle.cgs_poly.specs.Polynomial.{IsRing, IsPoly, places, canonical};
ghost use Rattle.cgs_poly.specs.Product.{all_products};
ghost use Rattle.cgs_poly.specs.Grid.{terms_at, with_multiple, HasRoom, AreNumbered, IsGrid};

use crate::grid::{Grid, number_of, numbers_of, write_divisor};
use crate::poly::Poly;
use cgs_exps::MAX_PLACES;
use cgs_field::Elem;
use cgs_terms::{Ring, TermList};
use std::alloc::{AllocError, Global};

// So many pairs of terms have to meet in a cell that is used, on average.
const LEAST_PAIRS_OF_A_CELL: usize = 4;

/// The product of two polynomials on a grid that has a cell for each of its monomials, unless few pairs of terms meet in a
/// cell: then the sum of all terms would take longer than a product by halves.
pub(crate) fn product_on(
    alloc: Global,
    ring: &Ring,
    grid: &Grid,
    f: &Poly,
    g: &Poly,
) -> Result<Option<Poly>, AllocError>
    requires ring { IsRing ring.now }
    requires first { IsPoly ring.now f.now }
    requires second { IsPoly ring.now g.now }
    requires grid { IsGrid (places ring.now) grid.now.strides.items grid.now.cells f.now g.now }
    ensures product { IfOk result (λ found. IfSome found (λ h. h ≡ canonical ring.now (all_products f.now g.now))) }
    ensures poly { IfOk result (λ found. IfSome found (λ h. IsPoly ring.now h)) }
{
    let strides = grid.strides.as_slice();
    let numbers = numbers_of(alloc, strides, g)?;
    let mut cells = Vec::from_elem(alloc, 0, grid.cells)?;
    for i in 0..f.len() {
        let term = f.term(i);
        let from = number_of(strides, term.exponents);
        add_multiple(
            &mut cells,
            from,
            term.coefficient,
            g.coefficients(),
            &numbers,
        );
    }
    let used = cells.iter().filter(|cell| **cell != 0).count();
    if used > f.len() * g.len() / LEAST_PAIRS_OF_A_CELL {
        return Ok(None);
    }
    let product = sum_of_cells(alloc, ring, strides, &cells)?;
    Ok(Some(product))
}

// Adds c times each coefficient to the cell with its number, counted from a cell on.
fn add_multiple(cells: &mut [u64], from: usize, c: Elem, coefficients: &[Elem], numbers: &[usize])
    requires lengths { length numbers.now ≡ length coefficients.now }
    requires room { HasRoom (length numbers.now) cells.old }
    requires within { (i : ℕ) → i < length numbers.now → from + get_or numbers.now i 0 < length cells.old }
    ensures { cells.new ≡ with_multiple c from coefficients.now numbers.now cells.old }
{
    let c = c.number() as u64;
    for i in 0..numbers.len() {
        cells[from + numbers[i]] += c * coefficients[i].number() as u64;
    }
}

// The sum of the terms that the cells of a grid stand for.
fn sum_of_cells(
    alloc: Global,
    ring: &Ring,
    strides: &[usize],
    cells: &[u64],
) -> Result<Poly, AllocError>
    requires ring { IsRing ring.now }
    requires numbered { AreNumbered (places ring.now) strides.now (length cells.now) }
    ensures sum { IfOk result (λ h. h ≡ canonical ring.now (terms_at strides.now 0 cells.now)) }
    ensures poly { IfOk result (λ h. IsPoly ring.now h) }
{
    let mut terms = TermList::new(alloc);
    let mut room = [0; MAX_PLACES];
    for i in (0..cells.len()).rev() {
        let c = ring.modulus.of_u64(cells[i]);
        if c.number() != 0 {
            let m = &mut room[..strides.len()];
            write_divisor(strides, i, m);
            terms.push(c, m)?;
        }
    }
    let sum = Poly::of_terms(alloc, ring, &terms)?;
    Ok(sum)
}
