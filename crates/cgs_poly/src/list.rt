//! Lists of polynomials: copies, and whether polynomials and lists are equal.

ghost use Rattle.std.specs.Prelude.{◌≡◌, ◌↔◌, ◌++◌, IsTrue, IfOk};
ghost use Rattle.cgs_poly.specs.Same.{is_among};

use crate::poly::Poly;
use crate::poly_list::PolyList;
use std::alloc::{AllocError, Global};

/// Copies of all polynomials of two lists, one list after the other.
pub fn joined(alloc: Global, list: &PolyList, more: &PolyList) -> Result<PolyList, AllocError>
    ensures { IfOk result (λ whole. whole ≡ list.now ++ more.now) }
{
    let first = PolyList::new(alloc).extended(list.as_slice())?;
    first.extended(more.as_slice())
}

/// Whether two lists are equal.
pub fn are_same(list: &PolyList, other: &PolyList) -> bool
    ensures { IsTrue result ↔ (list.now ≡ other.now) }
{
    if list.len() != other.len() {
        return false;
    }
    for i in 0..list.len() {
        if !list.get(i).same(other.get(i)) {
            return false;
        }
    }
    true
}

/// Whether a polynomial stands in a list.
pub fn is_among(f: &Poly, list: &PolyList) -> bool
    ensures { result ≡ is_among f.now list.now }
{
    for i in 0..list.len() {
        if f.same(list.get(i)) {
            return true;
        }
    }
    false
}
