//! Parametric membership: at which points of an entry's region a polynomial lies in the ideal.
//!
//! `cases` promises polynomials in the parameters that are all 0 exactly there. Below it stand divisions (`cgs_divide`) and entries
//! (`cgs_entry`). Read first: `cases`, then `reduction` (specs/ReductionRun) and `CasesDecide` (specs/Laws).
#![tactic(auto)]

mod cancelling;
mod laws;
mod membership;
mod parts;
mod reduction;

pub use laws::{cases_decide, cases_examples, reduction_reduces};
pub use membership::cases;

#[cfg(test)]
mod tests;
