//! Terms over a prime field, and the canonical lists of them that polynomials are.
//!
//! Below stand the field (`cgs_field`), monomials (`cgs_exps`) and term orders (`cgs_order`). A list is kept flat: one
//! vector of coefficients, and one of all exponents. `merge` is the one pass that adds a multiple of a list to another; it
//! promises the exact list. Read first: `canonical` (specs/Polynomial), `multiple` (specs/Product) and `terms_of`
//! (specs/Flat).
#![tactic(auto)]

mod draft;
mod flat;
mod list;
mod merging;
mod multiple;
mod ring;

pub use draft::Draft;
pub use flat::{Flat, Term};
pub use list::TermList;
pub use merging::merge;
pub use multiple::{Factor, Multiple, Once, Scalar};
pub use ring::Ring;
