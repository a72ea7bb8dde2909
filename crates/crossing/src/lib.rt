//! What crosses to C: the structs, and how values of the crates below are made of them and shown in them.
#![tactic(auto)]

pub mod input;
pub mod outcome;
pub mod output;
pub mod types;
