// Tables, filters, their subtraction and reading. The layer above `bucket`, whose contracts and laws are all that it uses.
// Every public function answers every input; the definitions that the contracts cite stand in specs/.
#![tactic(auto)]

mod adding;
pub mod answers;
pub mod building;
mod clearing;
pub mod estimator;
mod finding;
pub mod forms;
mod judging;
mod marks;
mod peeling;
pub mod reading;
mod repeats;
pub mod searching;
mod strata;
pub mod table;
