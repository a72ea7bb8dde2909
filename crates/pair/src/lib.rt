//! The two ends on one board and one carrier: every call as data, and whole runs of calls.
#![tactic(auto)]

pub mod call;
mod manage;
mod manager;
pub mod pair;
mod readers;
pub mod record;
pub mod run;
mod step;
