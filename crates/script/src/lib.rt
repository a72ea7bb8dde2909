//! Scripts: a line is turned into a command.
#![tactic(auto)]

mod action;
pub mod command;
mod items;
pub mod parse;
mod room;
