//! The calls for C: checks, writers, readers, carriers, and runs of both ends for measurements. Each takes numbers, slices of bytes
//! and plain structs, and requires nothing.
#![tactic(auto)]

mod carriers;
mod checks;
mod readers;
mod runs;
mod writers;
