//! What a line of a script is made of: words, and the numbers and bytes that words say.
#![tactic(auto)]

pub mod bytes;
pub mod digit;
pub mod fault;
pub mod number;
pub mod words;
