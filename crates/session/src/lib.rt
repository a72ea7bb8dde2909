//! A session: a pair of both ends that makes the actions of scripts, and two pairs side by side.
#![tactic(auto)]

pub mod beside;
pub mod boards;
pub mod carriers;
pub mod latest;
pub mod session;
