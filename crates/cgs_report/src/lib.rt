//! What a basis tells at the points where it serves: whether 1 is in the ideal, and how many standard monomials there are.
//!
//! It promises the number of monomials in the variables that no leading monomial of the basis divides, up to `MOST_COUNTED`, and
//! that these are the monomials that lead no polynomial of the ideal but 0. Below it stand polynomials (`cgs_poly`) and entries
//! (`cgs_entry`). Read first: `IsStandard` (specs/Standard), `Tells` (specs/Laws), `IsTrueOf` (specs/AtPoint).
#![tactic(auto)]

mod entry;
mod laws;
mod leads;
mod standard;

pub use entry::{Findings, report};
pub use laws::{
    box_has_all, finite_by_powers, one_answer, one_number, report_at_point, standard_at_point,
};
pub use standard::{MOST_COUNTED, Standard};

#[cfg(test)]
mod tests;
