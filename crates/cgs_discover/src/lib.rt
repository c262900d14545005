//! Where a thesis follows from the polynomials of a problem: problems whose systems tell it.
//!
//! It promises exactly the problems of the definitions, and that they are valid; and that at each point where the ideal of the refutation
//! has 1, the thesis is 0 at every common zero. Below it stand problems (`cgs_problem`) and ideals (`cgs_algebra`). Read first: `refuted`,
//! `extended` (specs/Refutation), `ThesisFollows` (specs/Laws).
#![tactic(auto)]

mod copies;
mod fault;
mod laws;
mod lift;
mod problems;

pub use fault::DiscoverFault;
pub use laws::thesis_follows;
pub use problems::{refutation, with_thesis};
