//! What the endpoint tells of itself.
ghost use Rattle.std.specs.Prelude.{◌≡◌};
ghost use Rattle.event.specs.View.{held_if};
ghost use Rattle.endpoint.specs.View.{as_endpoint};

use crate::types::Endpoint;
use event::reading::Reading;
use protocol::types::State;

impl Endpoint {
    /// What it is doing.
    pub fn state(&self) -> State
        ensures { result ≡ (as_endpoint self.now).state }
    {
        self.state
    }

    /// The identifiers of the enabled events.
    pub fn enabled(&self) -> [u64; 4]
        ensures { result ≡ (as_endpoint self.now).enabled }
    {
        self.enabled
    }

    /// The reading of the mark at a place, if it has one, for the present message or for the next one.
    pub fn prior(&self, place: usize) -> Option<Reading>
        ensures { held_if result ≡ (as_endpoint self.now).prior place }
    {
        self.prior.get(place)
    }

    /// The reading of the mark at a place, if it has one, since the present message was first sent.
    pub fn since(&self, place: usize) -> Option<Reading>
        ensures { held_if result ≡ (as_endpoint self.now).since place }
    {
        self.since.get(place)
    }

    /// The generation of the latest message.
    pub fn generation(&self) -> u8
        ensures { result ≡ (as_endpoint self.now).generation }
    {
        self.generation
    }

    /// Whether the attempts to send a message have failed since the latest sync.
    pub fn failure(&self) -> bool
        ensures { result ≡ (as_endpoint self.now).failure }
    {
        self.failure
    }
}
