//! Workers that take the branches of a board, each in a thread of its own, and one that works alone.
//!
//! It stands on `cgs_board`, and knows of branches only what `Job` says. For each number of workers, each order in which
//! they take the lock and each gate it promises a finished board of the root, whose history is complete for that root and
//! number of workers; and that a book of a ledger beside the board counts what the board keeps, so that the shares of all
//! workers add up to it.
//!
//! That two workers are at work at once, that a worker's node is made outside the lock, and that none waits for ever,
//! only tests show. Read first `IsComplete` and `IsFinished` (of cgs_board, specs/History), then `SharedState` and
//! `IsBoardOf` (specs/).
#![tactic(auto)]

mod alone;
mod gate;
mod joined;
mod run;
mod seat;
mod shared;
mod worker;

pub use alone::run_board_alone;
pub use gate::{Gate, OpenGate};
pub use run::run_board;
pub use seat::Seat;
pub use shared::Shared;
pub use worker::work;

#[cfg(test)]
mod tests;
