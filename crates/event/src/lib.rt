//! Events, their sources and readings, and the refusals of every call.
#![tactic(auto)]

pub mod delay;
pub mod enabled;
pub mod id;
pub mod key;
mod made;
pub mod names;
pub mod occurrence;
pub mod reading;
pub mod refusal;
