//! Tests of the program with one worker and with two: that two are at work at once, and what a stream that fails leaves.
//!
//! It has no call of its own, and stands on the program. That two meet no contract says: `run` promises the list for any number of
//! workers, also where one of them does all the work. Read first `Meeting`, the gate, and `is_done`, by which the history is judged.
#![tactic(auto)]

#[cfg(test)]
mod failing;
#[cfg(test)]
mod workers;
