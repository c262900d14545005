//! Polynomials over a prime field, in variables and parameters, as canonical lists of terms.
//!
//! Below stand terms and the merge of two lists of them (`cgs_terms`). Each call promises the exact list of terms of its
//! answer, and beside it the law by coefficients. Read first: `canonical`, `IsPoly` and `coefficient` (specs/Polynomial of
//! `cgs_terms`).
#![tactic(auto)]

mod arithmetic;
mod cells;
mod fault;
mod grid;
mod laws;
mod list;
mod merge;
mod parameters;
mod poly;
mod poly_list;
mod product;
mod recast;
mod sum;

pub use cgs_terms::{Ring, Term, TermList};
pub use fault::PolyFault;
pub use laws::{
    canonical_keeps_coefficients, coefficients_decide, one_is_least, product_keeps_order,
    specialising_is_homomorphism, value_is_homomorphism,
};
pub use list::{are_same, is_among, joined};
pub use poly::Poly;
pub use poly_list::PolyList;

#[cfg(test)]
mod tests;
