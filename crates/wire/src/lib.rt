//! The four messages: writers and readers.
#![tactic(auto)]

mod check;
pub mod items;
pub mod message;
pub mod read;
pub mod request;
pub mod types;
