//! Large problems that are made from numbers, to try the program on.
//!
//! It promises exactly the problem of the definition, and that it is valid. Below it stand polynomials (`cgs_poly`) and problems
//! (`cgs_problem`). Read first: `problem_of`, `link` and `next` (specs/Generator).
#![tactic(auto)]

mod generator;
mod laws;
mod names;

pub use generator::problem_of;
pub use laws::first_problem;
