//! The words of the command line: what they ask for, or what is wrong with them.
//!
//! Below it stands `cgs_io`, for the type of a word. It promises that the answer is the plan of the words, or the first
//! fault from the left, without taking memory. Read first: `plan_of`, `options_of` and `number_in` (specs/Words).
#![tactic(auto)]

mod number;
mod options;
mod plan;
mod words;

pub use plan::{Command, Plan, WordFault};
pub use words::read_words;

#[cfg(test)]
mod tests;
