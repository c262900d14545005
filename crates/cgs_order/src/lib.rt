//! Term orders on monomials: lexicographic, graded lexicographic and graded reverse lexicographic, in two blocks.
//!
//! Nothing stands below it. It promises that `compare` is the comparison of key lists, for any exponents and without
//! making a list, and has the words that stand for the kinds in a file. Read first: `key`, `compared` (specs/TermOrder),
//! the laws (specs/Laws) and `word_of` (specs/Words).
#![tactic(auto)]

mod block;
mod comparison;
mod kind;
mod laws;

pub use block::BlockOrder;
pub use comparison::compare;
pub use kind::Kind;
pub use laws::{
    compared_is_reversed, compared_is_transitive, compared_is_well_founded, equal_is_same,
};

#[cfg(test)]
mod tests;
