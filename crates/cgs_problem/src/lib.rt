//! Problems: what they are, what a text spells, and whether a problem is valid.
//!
//! It promises that `valid` is true exactly for the valid problems. The reading of a text is a definition alone here;
//! the code that reads stands above. Below it stand polynomials (`cgs_poly`), points (`cgs_point`) and tokens
//! (`cgs_tokens`). Read first: `IsProblem` (specs/Problems), `problem_spelled` (specs/Reading).
#![tactic(auto)]

mod fault;
mod polynomial;
mod problem;
mod validity;

pub use fault::{TextFault, TextKind};
pub use polynomial::MAX_THESIS_DEGREE;
pub use problem::{NameList, Problem, Text};
pub use validity::valid;

#[cfg(test)]
mod tests;
