// The C interface of Tandawire, declared in include/tandawire.h: numbers and slices in, a refusal number or a struct of numbers out.
// Each function is a proved one of a crate below, under a C name, with the same promise.
#![tactic(auto)]

pub mod estimators;
pub mod filters;
pub mod messages;
pub mod sessions;
pub mod versions;
