//! The text of a problem is read: line by line, token by token, with its first fault.
//!
//! It promises that `read_problem` gives the problem that the bytes spell, or the first fault with its line, and that
//! what it gives is a valid problem. Below it stand problems and what a text spells (`cgs_problem`), lines of tokens
//! (`cgs_tokens`) and polynomials (`cgs_poly`). Read first: `problem_spelled` and `line_said` of `cgs_problem`, and
//! `meaning` (specs/Stages).
#![tactic(auto)]

mod body;
mod header;
mod lines;
mod names;
mod polynomial;
mod product;
mod progress;
mod read;
mod refusal;
mod scope;
#[cfg(test)]
mod tests;

pub use read::read_problem;
pub use refusal::TextRefused;
