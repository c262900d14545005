//! Bases, lists and what is told of them, histories and faults printed.
//!
//! It promises that the text is appended, or for want of memory a front of it, and that two lists of entries of a problem
//! that some bytes spell are equal if they have one text. Below it stand the canonical text of polynomials and problems
//! (`cgs_canonical`), the search for a point (`cgs_locate`) and the events of a board (`cgs_board`). Read first:
//! `list_text` (specs/Printing), `located_text` (specs/Locating), `discovered_text` (specs/Discovery), `summary_text`
//! (specs/Summary), `history_text` (specs/History), `ListsAreTold` (specs/Telling).
#![tactic(auto)]

mod basis;
mod discovery;
mod fault;
mod findings;
mod history;
mod laws;
mod list;
mod locating;
mod summary;

pub use basis::{basis_text, refusal_text};
pub use discovery::discovered_text;
pub use fault::fault_text;
pub use history::history_text;
pub use laws::{
    located_points_tell_places, printed_bases_tell_members, printed_lists_tell_entries,
};
pub use list::{list_text, path_text};
pub use locating::located_text;
pub use summary::summary_text;

#[cfg(test)]
mod tests;
