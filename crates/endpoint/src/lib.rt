//! The drive's end: it marks what changes, tells it in event messages, and answers requests.
#![tactic(auto)]

mod ack;
mod change;
mod readers;
mod request;
mod reset;
mod state;
mod sync;
mod tick;
pub mod types;
