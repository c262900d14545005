//! A tree of branches, and the board that hands its branches out in any order and keeps what comes back.
//!
//! It stands on `cgs_list` and `cgs_path`, and knows of branches only what `Job` says. It promises that the history of a
//! board is legal, that each answer is the one that the history asks for, and that the entries of a finished board are
//! those of the tree in path order. Read first `entries_of` (specs/Tree), then `IsLegal` and `IsComplete`
//! (specs/History).
#![tactic(auto)]

mod board;
mod event;
mod fields;
mod job;
mod laws;
mod piece;
mod slot;
mod waiting;
mod walk;

pub use board::{Board, Claimed, Given};
pub use event::{Event, EventList};
pub use job::{Job, Outcome};
pub use laws::{
    complete_gives_all, entries_ascend, entries_unfold, finished_is_complete, two_workers,
};
pub use piece::{Done, Piece, finish};
pub use walk::entries_of;

#[cfg(test)]
mod plays;
#[cfg(test)]
mod tests;
