//! Tests that cross crates: tables of problems as texts, with what a call makes of them.
//!
//! It has no call of its own, and stands on the crates up to `cgs_print`. The expected texts, numbers of units and entries are worked out
//! by hand from the definitions. Read first `problem_of` (given.rt), by which all tables are read.
#![tactic(auto)]

#[cfg(test)]
mod bases;
#[cfg(test)]
mod conditions;
#[cfg(test)]
mod deep;
#[cfg(test)]
mod given;
#[cfg(test)]
mod made;
#[cfg(test)]
mod trees;
