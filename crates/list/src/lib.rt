//! Lists of occurrences: the bytes of a list, and its reader.
#![tactic(auto)]

pub mod next;
pub mod read;
pub mod types;
