// The messages of the protocol: every kind written, read and walked. The layer above `filter`; it knows no session.
// Every public function answers every input; the definitions that the contracts cite stand in specs/.
#![tactic(auto)]

mod copying;
mod fields;
pub mod filters;
mod frames;
pub mod items;
pub mod kinds;
pub mod laying;
mod lists;
pub mod reader;
pub mod reading;
mod slices;
pub mod walking;
pub mod writing;
