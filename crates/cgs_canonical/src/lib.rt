//! The canonical text of polynomials, lines and problems, read back as what was printed.
//!
//! It promises that the canonical text is appended, or for want of memory a front of it, and that the text of a problem
//! that some bytes spell spells it again. Below it stand problems and their reading as a definition (`cgs_problem`).
//! Read first: `polynomial_text` and `problem_text` (specs/Printing), `ReadsBack` (specs/RoundTrip).
#![tactic(auto)]

mod laws;
mod line;
mod polynomial;
mod problem;
mod push;

pub use laws::{printed_problems_read_back, spelled_problems_are_valid};
pub use line::{point_line, polynomial_lines};
pub use polynomial::poly_text;
pub use problem::problem_text;
pub use push::push_all;

#[cfg(test)]
mod tests;
