//! Runs of a writer and of both ends, whose times are measured: many calls, of which each goes on from where the one before left off.
#![tactic(auto)]

pub mod rounds;
pub mod runs;
