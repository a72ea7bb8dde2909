//! The book: the manager's end, which keeps the readings that an endpoint tells.
#![tactic(auto)]

pub mod calls;
mod enter;
pub mod parts;
pub mod readers;
mod state;
mod table;
