// The session's definitions and their laws, and the numbers that its calls take and answer. The layer below `form` and `session`, which have the code.
#![tactic(auto)]

pub mod numbers;
