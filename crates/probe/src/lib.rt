// The functions of `bucket`, those of `filter` on tables and those of `message` on lists and items, under C names, for the comparison tests and the benchmark. No part of the delivered interface.
// Each makes the CRC tables itself where it needs them, so its contract is document 01's own definition.
#![tactic(auto)]

pub mod chains;
pub mod columns;
pub mod messages;
pub mod numbers;
pub mod packing;
pub mod places;
pub mod tables;
