//! Whether conditions on the parameters contradict each other.
//!
//! It promises that a region that is found empty has no point, and when it is found so. Below it stand divisions (`cgs_divide`) and conditions
//! (`cgs_entry`). Read first: `emptiness_run` (specs/EmptinessRun), `Contradict` (specs/Laws).
#![tactic(auto)]

mod emptiness;
mod laws;
mod product;

pub use emptiness::{one_alone, test_empty, test_empty_by, vanishing_basis};
pub use laws::{
    contradiction_has_no_point, emptiness_examples, empty_has_no_point, empty_is_contradiction,
};
