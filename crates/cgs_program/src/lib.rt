//! The top call: words, a source and a sink in, a status out.
//!
//! It promises, in one relation over all of these, what was read, what was written and which status that gives, for every
//! number of workers. Below it stand the streams (`cgs_io`), the words (`cgs_words`), problem files read and printed
//! (`cgs_text`, `cgs_canonical`, `cgs_print`), the problems of a thesis and of a number (`cgs_discover`, `cgs_gen`), and the system of a
//! problem (`cgs_system`). Read first: `IsRun` and `Completes` (specs/Run), `IsAnswer` (specs/Due), `WritesSystem` (specs/Promises).
#![tactic(auto)]

mod basis;
mod discover;
mod faults;
mod reply;
mod solve;
mod status;
mod stress;
#[cfg(test)]
mod tests;
mod top;

pub use status::Status;
pub use top::{run, run_alone};
