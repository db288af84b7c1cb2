// What stands before a step and around it: the start of each side; the form of what a step is given, refusal 1, in full; rooms, the grid, and the
// numbers that are answered.
// The layer below `session`.
#![tactic(auto)]

mod fronts;
pub mod grid;
mod judging;
pub mod marks;
pub mod numbers;
pub mod rooms;
pub mod sending;
pub mod starting;
pub mod tallying;
