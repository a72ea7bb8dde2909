//! The endpoint, what happens to its state, and what it does then.
ghost use Rattle.std.specs.Prelude.{◌<◌};

use event::delay::Delays;
use marks::types::Marks;
use protocol::types::State;

/// The drive's end. Its board and its carrier are lent to it at each call.
// It has no model: in the definitions marks are a function of the place, and a model's value cannot hold a function.
// Board, carrier and buffer are three parameters: a struct of them has to be taken apart in each function, and contracts
// call what it leaves `lent.exit.1.0.now` where they say `carrier.new`.
#[derive(Drop)]
pub struct Endpoint {
    pub(crate) state: State,
    // The identifiers of the enabled events.
    pub(crate) enabled: [u64; 4],
    // Before the first attempt of a message, and before each further one.
    pub(crate) delays: Delays,
    // The marks of the present message, or of the next one.
    pub(crate) prior: Marks,
    // The marks of changes since the present message was first sent.
    pub(crate) since: Marks,
    // Of the latest message.
    pub(crate) generation: u8,
    // Where messages are put to.
    pub(crate) destination: u8,
    // The failure bit.
    pub(crate) failure: bool,
    ghost small: { generation < 32 },
}

// What happens to the endpoint's state.
#[derive(Clone, Copy)]
pub(crate) enum Event {
    // 100 ms have passed; the two delays in ticks, and whether prior has a mark.
    Tick { full: u16, retry: u16, marked: bool },
    // The endpoint is reset.
    Reset,
}

// What the endpoint does after an event. Data, and not a closure, so that a contract can say which it is.
#[derive(Clone, Copy)]
pub(crate) enum Move {
    // Nothing more.
    Rest,
    // The first attempt of the next message.
    Start,
    // Another attempt, with this retry count.
    Again { retries: u8 },
    // The attempts have failed.
    Fail,
}
