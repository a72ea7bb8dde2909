//! The states of the two ends.
use std::fmt;
use wire::types::Kind;

/// What the endpoint is doing.
#[derive(Clone, Copy, PartialEq, Eq, Debug)]
pub enum State {
    /// Nothing is enabled.
    Off,
    /// It gathers marks for the next message; its age in ticks, up to the delay.
    Armed { age: u16 },
    /// A message waits for its ack; the number of attempts, and the ticks since the last one.
    Sending { attempt: u8, waited: u16 },
    /// The attempts are over.
    Failed,
}

/// A state is shown by one word.
impl fmt::Display for State {
    fn fmt<W: fmt::Write>(&self, f: &mut fmt::Formatter<W>) -> fmt::Result {
        let word = match self {
            State::Off => "off",
            State::Armed { .. } => "armed",
            State::Sending { .. } => "sending",
            State::Failed => "failed",
        };
        write!(f, "{word}")
    }
}

/// What the book knows.
#[derive(Clone, Copy, PartialEq, Eq, Debug)]
pub enum Phase {
    /// Nothing.
    Blind,
    /// What the latest answer said; it has no message to acknowledge.
    Settled,
    /// The same, and a message that it has not acknowledged.
    Holding,
    /// It shows nothing until the answer to a request of this kind comes.
    Waiting { kind: Kind },
}
