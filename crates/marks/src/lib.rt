//! Marks, and the writer of the list of marked sources.
#![tactic(auto)]

mod bytes;
mod marking;
pub mod types;
pub mod write;
