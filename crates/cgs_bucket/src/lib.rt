//! A sum of many multiples whose leading term is asked for again and again: levels of growing size, each a list of terms in
//! order (Yan 1998, geobuckets).
//!
//! Below stand terms and the merge of two lists of them (`cgs_terms`). Contracts see a `Bucket` as the canonical list of
//! terms of its sum, which is the finite map from monomials to coefficients that are not 0. Read first: `Contents`
//! (specs/Levels), and `canonical` and `multiple` of `cgs_terms`.
#![tactic(auto)]

mod bucket;
mod fault;
mod front;
mod level;
mod levels;
#[cfg(test)]
mod tests;

pub use bucket::Bucket;
pub use fault::BucketFault;
pub use level::Lead;
