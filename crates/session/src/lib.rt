// The session: one step of the protocol. The layer above `form`, which has the start of each side.
// The step answers every input; the definitions that its contract cites stand in `ledger`.
#![tactic(auto)]

mod asking;
mod checking;
mod ends;
mod filters;
mod inserting;
mod lists;
mod offering;
mod places;
mod sending;
pub mod stepping;
mod swapping;
