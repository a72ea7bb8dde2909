//! Calls of the libraries below, with the results, the bytes and the refusals that each must bring.
#![tactic(auto)]

#[cfg(test)]
mod boards;
#[cfg(test)]
mod lines;
#[cfg(test)]
mod messages;
#[cfg(test)]
mod packets;
