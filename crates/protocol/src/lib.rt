//! The rules of both ends: the states that the code and the definitions share.
#![tactic(auto)]

pub mod types;
